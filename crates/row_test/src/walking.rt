// Cells and new names are numbered as they are met: one walk over a stack of codes. The stack ends where the array does, and its head is
// the next code to be met.
ghost use Rattle.std.specs.Prelude.{◌≡◌, cond, ◌&&◌, suc, ◌+◌, ◌*◌, ◌-◌, ◌/◌, ◌<◌, ◌≤◌, get_or, eqb, ltb, leb};
ghost use Rattle.std.proofs.lemmas.List.Edits.{sets};
ghost use Rattle.texts.specs.Coded.{new_from};
ghost use Rattle.table.specs.Layout.{agents_in, entry_of};
ghost use Rattle.row_test.specs.Row.{walked, sides_max, side_bytes, arg_bytes, arity_in};

use crate::codes::{cell_arity, put_args, put_sides};
use crate::fitting::FittingRow;
use parts::Limits;
use table::Layout;

// The sides of the equations, laid at the end of a stack; where its head is.
fn laid(fit: FittingRow, stack: &mut [u8; Layout::SIDES]) -> usize
    ensures { (result ≡ sides_max - 2 * get_or fit.entry.row.now 2 0) × (stack.new ≡ sets stack.old result (side_bytes fit.entry.row.now)) }
{
    let top = Layout::SIDES - 2 * usize::from(fit.row[2]);
    put_sides(fit.row, stack, top);
    top
}

// A cell stands in its order: as many were met before it as its number says, and the rule has so many.
fn cell_due(row: &[u8; Limits::RULE], x: u8, met: usize) -> bool
    ensures { result ≡ (eqb (x / 2) met && ltb met (get_or row.now 3 0)) }
{
    usize::from(x / 2) == met && met < usize::from(row[3])
}

// The arguments of cell c, laid over its code; where the head is then.
fn entered(fit: FittingRow, c: usize, stack: &mut [u8; Layout::SIDES], top: usize) -> usize
    requires { (c < get_or fit.row.now 3 0) × (top < sides_max) × (arity_in fit.table.now fit.row.now c ≤ top + 1) }
    ensures { (result ≡ top + 1 - arity_in fit.entry.table.now fit.entry.row.now c)
        × (stack.new ≡ sets stack.old result (arg_bytes fit.entry.row.now c (arity_in fit.entry.table.now fit.entry.row.now c))) }
{
    let a = cell_arity(fit.table, fit.row, c);
    let at = top + 1 - a;
    put_args(fit.row, c, a, stack, at);
    at
}

// A name is no later than the next new one.
fn name_due(x: u8, next: usize) -> bool
    requires { next ≤ 256 }
    ensures { result ≡ leb (x / 2) (new_from + next) }
{
    usize::from(x / 2) <= 2 * Limits::ARITY + next
}

// The next new name after this one.
fn after(x: u8, next: usize) -> usize
    requires { next ≤ 256 }
    ensures { (result ≡ cond (eqb (x / 2) (new_from + next)) (suc next) next) × (result ≤ 256) }
{
    if usize::from(x / 2) == 2 * Limits::ARITY + next {
        return next + 1;
    }
    next
}

// All cells and all new names of the rule are met.
fn all_met(row: &[u8; Limits::RULE], met: usize, next: usize) -> bool
    ensures { result ≡ (eqb met (get_or row.now 3 0) && eqb next (get_or row.now 4 0)) }
{
    met == usize::from(row[3]) && next == usize::from(row[4])
}

// The top of the stack moves by as many places as a cell has arguments, so the walk is a while and not a for.
pub fn walk_ok(fit: FittingRow) -> bool
    ensures { result ≡ walked (entry_of (agents_in fit.entry.table.now) fit.entry.row.now) }
{
    let mut stack = [0u8; Layout::SIDES];
    let mut top = laid(fit, &mut stack);
    let mut met: usize = 0;
    let mut next: usize = 0;
    while top < Layout::SIDES {
        let x = stack[top];
        if x % 2 == 1 {
            if !cell_due(fit.row, x, met) {
                return false;
            }
            top = entered(fit, met, &mut stack, top);
            met += 1;
        } else {
            if !name_due(x, next) {
                return false;
            }
            next = after(x, next);
            top += 1;
        }
    }
    all_met(fit.row, met, next)
}
