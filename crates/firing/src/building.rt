// The right side of a rule, built with what a frame holds: the arguments of the new cells, and the equations.
ghost use Rattle.std.specs.Prelude.{◌≡◌, ◌+◌, ◌*◌, ◌<◌, ◌≤◌};
ghost use Rattle.parts.specs.Limits.{arity_max, cells_max, waiting_max};
ghost use Rattle.state.specs.Layout.{view};
ghost use Rattle.state.specs.Places.{stored};
ghost use Rattle.state.specs.Moves.{put_on};
ghost use Rattle.state.specs.declared.Part.{Part};
ghost use Rattle.state.specs.declared.Pile.{Pile};
ghost use Rattle.firing.specs.Built.{CellsIn, equations_of, cells_of, width_of, value, argued_on, equation_for, put_from};

use crate::Frame;
use crate::frames::{cell_at, stands_for};
use crate::lent_rule::LentRule;
use parts::{CellNo, Equation, Limits};
use state::Pile;
use table::reading::{arity_of, cell_count, equation_count, node_argument, node_symbol, side_code};

// Argument j of cell m of a rule, written in its new cell c.
fn fill_argument(
    rule: LentRule<'_>,
    state: &mut [u16; Limits::STATE],
    frame: &[u16; Frame::SIZE],
    m: usize,
    c: CellNo,
    j: u8,
)
    requires { (m < cells_of rule.table.now rule.number) × (j < width_of rule.table.now rule.number m) × (c.0 < cells_max) }
    ensures { view state.new
        ≡ stored Part.Arguments (arity_max * c.0 + j) (value rule.entry.table.now rule.entry.number frame.now m j)
        (view state.old) }
{
    let code = node_argument(rule.table, rule.number, m, usize::from(j));
    let v = stands_for(frame, code);
    state::set_argument_word(state, c, u16::from(j), v);
}

// The arguments of cell m of a rule.
fn fill_cell(
    rule: LentRule<'_>,
    state: &mut [u16; Limits::STATE],
    frame: &[u16; Frame::SIZE],
    m: usize,
)
    requires { CellsIn rule.table.now rule.number frame.now × (m < cells_of rule.table.now rule.number) }
    ensures { view state.new ≡ argued_on rule.entry.table.now rule.entry.number frame.now m 1 (view state.old) }
{
    let c = cell_at(frame, m);
    let n = arity_of(rule.table, node_symbol(rule.table, rule.number, m));
    for j in 0..n {
        fill_argument(rule, state, frame, m, c, j);
    }
}

// The arguments of all cells of a rule.
pub fn fill_cells(rule: LentRule<'_>, state: &mut [u16; Limits::STATE], frame: &[u16; Frame::SIZE])
    requires { CellsIn rule.table.now rule.number frame.now }
    ensures { view state.new
        ≡ argued_on rule.entry.table.now rule.entry.number frame.now 0 (cells_of rule.entry.table.now rule.entry.number)
        (view state.old) }
{
    for m in 0..usize::from(cell_count(rule.table, rule.number)) {
        fill_cell(rule, state, frame, m);
    }
}

// Equation j of a rule, put.
fn put_equation(
    rule: LentRule<'_>,
    state: &mut [u16; Limits::STATE],
    frame: &[u16; Frame::SIZE],
    j: usize,
)
    requires { (j < equations_of rule.table.now rule.number) × ((view state.old).waiting.used < waiting_max) }
    ensures { view state.new
        ≡ put_on Pile.Waits (equation_for rule.entry.table.now rule.entry.number frame.now j)
        (view state.old) }
{
    let l = stands_for(frame, side_code(rule.table, rule.number, 2 * j));
    let r = stands_for(frame, side_code(rule.table, rule.number, 1 + 2 * j));
    let e = Equation::from((l, r));
    state::put_at_head(state, Pile::Waits, e);
}

// All equations of a rule, the last one first, so that the first becomes the head.
pub fn put_equations(
    rule: LentRule<'_>,
    state: &mut [u16; Limits::STATE],
    frame: &[u16; Frame::SIZE],
)
    requires { (view state.old).waiting.used + equations_of rule.table.now rule.number ≤ waiting_max }
    ensures { view state.new
        ≡ put_from rule.entry.table.now rule.entry.number frame.now 0 (equations_of rule.entry.table.now rule.entry.number)
        (view state.old) }
{
    for j in (0..usize::from(equation_count(rule.table, rule.number))).rev() {
        put_equation(rule, state, frame, j);
    }
}
