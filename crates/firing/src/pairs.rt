// The interaction of two cells by a rule: both opened and freed, the new numbers taken, the right side built.
ghost use Rattle.std.specs.Prelude.{◌≡◌, ◌+◌, ◌≤◌};
ghost use Rattle.parts.specs.Limits.{waiting_max};
ghost use Rattle.kept.specs.Right.{Right};
ghost use Rattle.model.specs.Step.{fired};
ghost use Rattle.model.specs.Stepped.{Room};
ghost use Rattle.state.specs.Layout.{view};
ghost use Rattle.state.specs.Moves.{freed};
ghost use Rattle.table.specs.Layout.{entry_at};
ghost use Rattle.firing.specs.Built.{CellsIn, equations_of};
ghost use Rattle.firing.specs.Fires.{Pairing, RoomFor, opened, entered_both, taken_both, built};

use crate::Frame;
use crate::building::{fill_cells, put_equations};
use crate::frames::enter_arguments;
use crate::lent_rule::LentRule;
use crate::taking::{take_cells, take_names};
use kept::Kept;
use parts::{CellNo, Limits};
use table::reading::{cell_count, name_count};

// The arguments of both cells entered in the frame, and the cells freed.
fn open(
    state: &mut [u16; Limits::STATE],
    frame: &mut [u16; Frame::SIZE],
    a: CellNo,
    b: CellNo,
    k: Kept,
) -> Kept
    requires { Pairing a.0 b.0 (view state.old) × Right k (view state.old) }
    ensures frame_after { frame.new ≡ opened a.0 b.0 (view state.old) frame.old }
    ensures state_after { view state.new ≡ freed b.0 (freed a.0 (view state.old)) }
    ensures right { Right result (view state.new) }
{
    enter_arguments(frame, 0, state, a);
    enter_arguments(frame, Limits::ARITY, state, b);
    state::free_cell(state, a);
    state::free_cell(state, b);
    Kept {
        cells: k.cells - 2,
        low_cell: k.low_cell.min(a.0.min(b.0)),
        ..k
    }
}

// State, frame and what is kept stay three arguments: all three change, and each clause says what becomes of each.
// The new names and the new cells of a rule taken, and entered in the frame.
fn take(
    rule: LentRule<'_>,
    state: &mut [u16; Limits::STATE],
    frame: &mut [u16; Frame::SIZE],
    k: Kept,
) -> Kept
    requires { RoomFor rule.table.now rule.number (view state.old) × Right k (view state.old) }
    ensures frame_after { frame.new ≡ entered_both rule.entry.table.now rule.entry.number (view state.old) frame.old }
    ensures state_after { view state.new ≡ taken_both rule.entry.table.now rule.entry.number (view state.old) }
    ensures right { Right result (view state.new) }
{
    let low_name = take_names(rule, state, frame, k.low_name);
    let low_cell = take_cells(rule, state, frame, k.low_cell);
    Kept {
        cells: k.cells + u16::from(cell_count(rule.table, rule.number)),
        names: k.names + u16::from(name_count(rule.table, rule.number)),
        low_cell,
        low_name,
    }
}

// The cells of a rule filled, and its equations put.
fn build(rule: LentRule<'_>, state: &mut [u16; Limits::STATE], frame: &[u16; Frame::SIZE])
    requires { CellsIn rule.table.now rule.number frame.now
        × ((view state.old).waiting.used + equations_of rule.table.now rule.number ≤ waiting_max) }
    ensures { view state.new ≡ built rule.entry.table.now rule.entry.number frame.now (view state.old) }
{
    fill_cells(rule, state, frame);
    put_equations(rule, state, frame);
}

// An interaction by a rule, whose left agent is a and whose right one is b.
pub fn fire(
    rule: LentRule<'_>,
    state: &mut [u16; Limits::STATE],
    a: CellNo,
    b: CellNo,
    k: Kept,
) -> Kept
    requires { Pairing a.0 b.0 (view state.old) × Room (entry_at rule.table.now rule.number) (view state.old)
        × Right k (view state.old) }
    ensures state_after { view state.new ≡ fired (entry_at rule.entry.table.now rule.entry.number) a.0 b.0 (view state.old) }
    ensures right { Right result (view state.new) }
{
    let mut frame = [0u16; Frame::SIZE];
    let opened = open(state, &mut frame, a, b, k);
    let taken = take(rule, state, &mut frame, opened);
    build(rule, state, &frame);
    taken
}
