// The codes of all sides of a rule, gathered from its row: those of its equations, then the arguments of its cells.
ghost use Rattle.std.specs.Prelude.{◌≡◌, ◌+◌, ◌*◌, ◌<◌, ◌≤◌, length, get_or, map};
ghost use Rattle.std.proofs.lemmas.List.Edits.{sets};
ghost use Rattle.parts.specs.Limits.{symbols_max, rule_equations_max, rule_cells_max, arity_max};
ghost use Rattle.parts.specs.Sides.{name, side};
ghost use Rattle.texts.specs.Bytes.{all};
ghost use Rattle.texts.specs.TableTest.{all_codes, tally, same_side, standing};
ghost use Rattle.texts.specs.Coded.{arity_at};
ghost use Rattle.table.specs.Layout.{agents_in, symbol_of, entry_of};
ghost use Rattle.row_test.specs.Row.{sides_within, side_fits, code_fits, sides_max, side_bytes, arg_bytes};

use crate::fitting::FittingRow;
use parts::{Limits, SymbolNo};
use table::Layout;
use table::reading::arity_of;

// The codes gathered from a row. Nothing allocates, so they stand in an array as long as the longest list, with a used length.
#[derive(Clone, Copy)]
pub struct Codes {
    pub used: usize,
    pub list: [u8; Layout::SIDES],
}

// How many arguments cell c has.
// That the agents are few enough stays a clause: the table is one that is being tested.
pub fn cell_arity(table: &[u8; Limits::TABLE], row: &[u8; Limits::RULE], c: usize) -> usize
    requires { (length (agents_in table.now) ≤ symbols_max) × (c < rule_cells_max) }
    ensures { result ≡ arity_at (agents_in table.now) (symbol_of row.now c) }
{
    let head = row[Layout::NODES_IN + Limits::NODE * c];
    usize::from(arity_of(table, SymbolNo(u16::from(head.saturating_sub(1)))))
}

// The codes of the equations' sides, stored from a place on.
// A FittingRow here would ask more of a caller than the bound on the equations.
pub fn put_sides(row: &[u8; Limits::RULE], list: &mut [u8; Layout::SIDES], at: usize)
    requires { (get_or row.now 2 0 ≤ rule_equations_max) × (at + 2 * get_or row.now 2 0 ≤ sides_max) }
    ensures { list.new ≡ sets list.old at (side_bytes row.now) }
{
    let n = 2 * usize::from(row[2]);
    list[at..at + n].copy_from_slice(&row[Layout::SIDES_IN..Layout::SIDES_IN + n]);
}

// The codes of the arguments of cell c, stored from a place on; a is how many it has.
pub fn put_args(
    row: &[u8; Limits::RULE],
    c: usize,
    a: usize,
    list: &mut [u8; Layout::SIDES],
    at: usize,
)
    requires { (c < rule_cells_max) × (a ≤ arity_max) × (at + a ≤ sides_max) }
    ensures { list.new ≡ sets list.old at (arg_bytes row.now c a) }
{
    let from = Layout::NODES_IN + (Limits::NODE * c + 1);
    list[at..at + a].copy_from_slice(&row[from..from + a]);
}

// The codes of all sides of a row.
pub fn gather(fit: FittingRow) -> Codes
    ensures { (sides_within result ≡ all_codes (entry_of (agents_in fit.entry.table.now) fit.entry.row.now)) × (result.used ≤ sides_max) }
{
    let mut list = [0u8; Layout::SIDES];
    put_sides(fit.row, &mut list, 0);
    let mut used = 2 * usize::from(fit.row[2]);
    for c in 0..usize::from(fit.row[3]) {
        let a = cell_arity(fit.table, fit.row, c);
        put_args(fit.row, c, a, &mut list, used);
        used += a;
    }
    Codes { used, list }
}

// A name is an argument of the left agent, one of the right agent, or one of the new names; a cell is one of the rule's.
fn code_ok(x: u8, left: usize, right: usize, names: usize, cells: usize) -> bool
    requires { (left < 256) × (right < 256) × (names < 256) }
    ensures { result ≡ code_fits left right names cells x }
{
    let h = usize::from(x / 2);
    if x % 2 == 1 {
        return h < cells;
    }
    if h < Limits::ARITY {
        return h < left;
    }
    if h < 2 * Limits::ARITY {
        return h < Limits::ARITY + right;
    }
    h < 2 * Limits::ARITY + names
}

// Every code of a rule, by how many arguments, new names and cells there are.
pub fn codes_ok(codes: &[u8], left: usize, right: usize, names: usize, cells: usize) -> bool
    requires { (left < 256) × (right < 256) × (names < 256) }
    ensures { result ≡ all (side_fits left right names cells) (map side codes.now) }
{
    codes.iter().all(|x| code_ok(*x, left, right, names, cells))
}

// How often a name stands among the codes.
fn counted(codes: &[u8], x: usize) -> usize
    requires { x < 128 }
    ensures { result ≡ tally (same_side (name x)) (map side codes.now) }
{
    // The code of a name below 128 fits a byte; `u8::try_from` would bring a refusal that cannot come.
    let code = (2 * x) as u8;
    codes.iter().filter(|c| code == **c).count()
}

// Each of n names stands so often.
pub fn standing_ok(codes: &[u8], often: usize, from: usize, n: usize) -> bool
    requires { from + n ≤ 128 }
    ensures { result ≡ standing often (map side codes.now) from n }
{
    (0..n).all(|i| counted(codes, from + i) == often)
}
