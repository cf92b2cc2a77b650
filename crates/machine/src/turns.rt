// One turn of a run: a step on the head, or the reason to stop.
ghost use Rattle.std.specs.Prelude.{◌≡◌, ◌+◌, ◌-◌, ◌*◌, ◌<◌, ◌≤◌};
ghost use Rattle.parts.specs.Limits.{budget_max};
ghost use Rattle.state.specs.Layout.{view};
ghost use Rattle.sound.specs.Lent.{under};
ghost use Rattle.kept.specs.Right.{Right};
ghost use Rattle.machine.specs.Turns.{enough, Turnable, TurnAs};

use crate::outcome::Stop;
use crate::picking::step_on;
use kept::Kept;
use parts::Limits;
use state::Pile;

// What a run carries from turn to turn, beside the state: the budget that is left, too.
#[derive(Clone, Copy)]
pub struct Running {
    pub kept: Kept,
    pub left: u32,
}

// A number of steps that suffices for a budget: between two interactions no more are made than can wait and names there are.
pub fn enough(budget: u32) -> u32
    requires { budget ≤ budget_max }
    ensures { result ≡ enough budget }
{
    (budget + 1) * ((1 + (Limits::WAITING + Limits::NAMES)) as u32)
}

// One turn.
pub fn take_turn(
    table: &[u8; Limits::TABLE],
    state: &mut [u16; Limits::STATE],
    r: Running,
) -> Result<Running, Stop>
    requires { Turnable table.now (view state.old) × Right r.kept (view state.old) }
    ensures { TurnAs (under table.now) r.left (view state.old) result (view state.new) }
{
    if state::count(state, Pile::Waits) == 0 {
        return Err(Stop::Ended);
    }
    let done = step_on(table, state, 0, 0 < r.left, r.kept)?;
    Ok(Running {
        kept: done.kept,
        left: r.left - u32::from(done.interacted),
    })
}
