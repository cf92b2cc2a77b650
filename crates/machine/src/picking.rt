// One step on a picked equation of a sound state. What is refused is refused before anything changes.
ghost use Rattle.std.specs.Prelude.{◌≡◌, ◌-◌, ◌<◌};
ghost use Rattle.parts.specs.Limits.{names_max};
ghost use Rattle.parts.specs.Typed.{number};
ghost use Rattle.state.specs.Layout.{view};
ghost use Rattle.sound.specs.Lent.{under};
ghost use Rattle.kept.specs.Right.{Right};
ghost use Rattle.machine.specs.Picked.{full_loop, Pickable, Linking, Steppable, Went};

use crate::meeting::meet_picked;
use crate::outcome::{Made, Stop};
use kept::Kept;
use parts::{Limits, Side};
use state::Pile;
use wiring::{loops_here, wire};

// Whether the equation is a loop that can't be counted.
fn uncountable(state: &[u16; Limits::STATE], l: Side, r: Side) -> bool
    requires { (number l < names_max) × (number r < names_max) }
    ensures { result ≡ full_loop l r (view state.now) }
{
    state::loops(state) == Limits::LOOPS && loops_here(state, l, r)
}

// An equation with a name on its left.
fn wire_picked(
    state: &mut [u16; Limits::STATE],
    place: u16,
    l: Side,
    r: Side,
    k: Kept,
) -> Result<Made, Stop>
    requires { Pickable l r place (view state.old) × Right k (view state.old) }
    ensures { Linking l r place (view state.old) result (view state.new) }
{
    if uncountable(state, l, r) {
        return Err(Stop::NoRoom);
    }
    state::take_out(state, place);
    Ok(Made {
        kept: wire(state, l, r, k),
        interacted: false,
    })
}

// The step on a picked equation. "U = x is treated as x = U."
pub fn step_on(
    table: &[u8; Limits::TABLE],
    state: &mut [u16; Limits::STATE],
    pick: u16,
    may: bool,
    k: Kept,
) -> Result<Made, Stop>
    requires { Steppable table.now (view state.old) pick × Right k (view state.old) }
    ensures { Went (under table.now) may (view state.old) pick result (view state.new) }
{
    let place = state::count(state, Pile::Waits) - 1 - pick;
    let e = state::equation_at(state, Pile::Waits, place);
    match (e.left, e.right) {
        (Side::Name(x), r) => wire_picked(state, place, Side::Name(x), r, k),
        (Side::Cell(a), Side::Name(y)) => wire_picked(
            state,
            place,
            Side::Name(y),
            Side::Cell(a),
            k,
        ),
        (Side::Cell(a), Side::Cell(b)) => meet_picked(table, state, place, a, b, may, k),
    }
}
