// The public calls: a step and a run. Neither asks for anything; each answers, and promises every byte of the state, whatever is lent.
ghost use Rattle.std.specs.Prelude.{◌≡◌, ◌-◌, ◌<◌, ◌≤◌};
ghost use Rattle.parts.specs.Limits.{budget_max};
ghost use Rattle.state.specs.Layout.{view};
ghost use Rattle.sound.specs.Lent.{under};
ghost use Rattle.machine.specs.Calls.{out, step_told, step_called, ran_told, run_told, ran_out, run_called};
ghost use Rattle.machine.specs.Turns.{enough, Turnable};

use crate::outcome::Stop;
use crate::picking::step_on;
use crate::turns::{Running, enough, take_turn};
use kept::keep;
use lent::both_sound;
use parts::Limits;
use parts::faults::Fault;
use state::Pile;

// The step on the equation that is picked, counted from 0 at the head.
pub fn step(
    table: &[u8; Limits::TABLE],
    state: &mut [u16; Limits::STATE],
    pick: u16,
) -> Result<(), Fault>
    ensures { out (step_told result) (view state.new) ≡ step_called table.now state.old pick }
{
    if !both_sound(table, state) {
        return Err(Fault::Unsound);
    }
    if state::count(state, Pile::Waits) <= pick {
        return Err(Fault::NoPick);
    }
    let k = keep(state);
    match step_on(table, state, pick, true, k) {
        Ok(_) => Ok(()),
        Err(_) => Err(Fault::NoRoom),
    }
}

// Why a run stopped, and the interactions made.
#[derive(Clone, Copy)]
pub struct Ran {
    pub stop: Stop,
    pub made: u32,
}

// Turns on the head, as many as suffice.
fn run_on(table: &[u8; Limits::TABLE], state: &mut [u16; Limits::STATE], budget: u32) -> Ran
    requires { Turnable table.now (view state.old) × (budget ≤ budget_max) }
    ensures { out (ran_told result) (view state.new) ≡ ran_out (under table.now) budget (view state.old) }
{
    let mut r = Running {
        kept: keep(state),
        left: budget,
    };
    for _ in 0..enough(budget) {
        match take_turn(table, state, r) {
            Ok(next) => r = next,
            Err(stop) => {
                return Ran {
                    stop: stop,
                    made: budget - r.left,
                };
            }
        }
    }
    Ran {
        stop: Stop::Ended,
        made: budget - r.left,
    }
}

// The run: it picks the head again and again, for at most so many interactions.
pub fn run(
    table: &[u8; Limits::TABLE],
    state: &mut [u16; Limits::STATE],
    budget: u32,
) -> Result<Ran, Fault>
    ensures { out (run_told result) (view state.new) ≡ run_called table.now state.old budget }
{
    if !both_sound(table, state) {
        return Err(Fault::Unsound);
    }
    if Limits::BUDGET < budget {
        return Err(Fault::LargeBudget);
    }
    Ok(run_on(table, state, budget))
}
