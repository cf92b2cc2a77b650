// The test of a rule.
ghost use Rattle.std.specs.Prelude.{◌≡◌, true, false, not, ◌&&◌, ◌||◌, List, ◌+◌, ◌*◌, ◌<◌, ◌≤◌, length, get_or, eqb, ltb};
ghost use Rattle.parts.specs.Limits.{symbols_max, rule_equations_max, rule_cells_max};
ghost use Rattle.texts.specs.Bytes.{all};
ghost use Rattle.texts.specs.Books.{Agent};
ghost use Rattle.texts.specs.TableTest.{agent_ok, cell_ok, test_template, is_two_sided};
ghost use Rattle.table.specs.Lists.{tab};
ghost use Rattle.table.specs.Layout.{agents_in, symbol_of, cell_of, entry_of};
ghost use Rattle.row_test.specs.Row.{sizes_fit, sides_fit, fitting_test};

use crate::codes::{codes_ok, gather, standing_ok};
use crate::fitting::FittingRow;
use crate::walking::walk_ok;
use parts::{Limits, SymbolNo};
use table::Layout;
use table::reading::{arity_of, symbol_count};
use turning::two_sided;

// Both symbols are declared; "at most 16 equations, 32 cells and 32 new names".
fn sizes_ok(n: usize, row: &[u8; Limits::RULE]) -> bool
    ensures { result ≡ sizes_fit n row.now }
{
    usize::from(row[0]) < n
        && usize::from(row[1]) < n
        && usize::from(row[2]) <= Limits::RULE_EQUATIONS
        && usize::from(row[3]) <= Limits::RULE_CELLS
        && usize::from(row[4]) <= Limits::RULE_NAMES
}

// The symbol of cell c is declared.
fn cell_declared(n: usize, row: &[u8; Limits::RULE], c: usize) -> bool
    requires { c < rule_cells_max }
    ensures { result ≡ ltb (symbol_of row.now c) n }
{
    usize::from(row[Layout::NODES_IN + Limits::NODE * c].saturating_sub(1)) < n
}

// Each cell: a declared symbol with as many arguments as its arity.
fn cells_ok(n: usize, row: &[u8; Limits::RULE]) -> bool
    requires { get_or row.now 3 0 ≤ rule_cells_max }
    ensures { (ags : List Agent) → n ≡ length ags → result ≡ all (cell_ok ags) (tab (get_or row.now 3 0) (cell_of ags row.now)) }
{
    (0..usize::from(row[3])).all(|c| cell_declared(n, row, c))
}

// A rule of a symbol with itself reads the same from both sides.
fn self_ok(fit: FittingRow) -> bool
    ensures { (ags : List Agent) → result ≡ (not (eqb (get_or fit.entry.row.now 0 0) (get_or fit.entry.row.now 1 0)) || is_two_sided (entry_of ags fit.entry.row.now)) }
{
    fit.row[0] != fit.row[1] || two_sided(fit.row)
}

// The test of the sides.
fn sides_ok(fit: FittingRow) -> bool
    ensures { result ≡ sides_fit (agents_in fit.entry.table.now) (entry_of (agents_in fit.entry.table.now) fit.entry.row.now) }
{
    let gathered = gather(fit);
    let codes = &gathered.list[..gathered.used];
    let left = usize::from(arity_of(fit.table, SymbolNo(u16::from(fit.row[0]))));
    let right = usize::from(arity_of(fit.table, SymbolNo(u16::from(fit.row[1]))));
    let cells = usize::from(fit.row[3]);
    let names = usize::from(fit.row[4]);
    codes_ok(codes, left, right, names, cells)
        && standing_ok(codes, 1, 0, left)
        && standing_ok(codes, 1, Limits::ARITY, right)
        && standing_ok(codes, 2, 2 * Limits::ARITY, names)
}

// What is asked of a row that passed by its sizes and its cells.
fn fitting_ok(fit: FittingRow) -> bool
    ensures { result ≡ fitting_test (agents_in fit.entry.table.now) fit.entry.row.now }
{
    sides_ok(fit) && walk_ok(fit) && self_ok(fit)
}

// One rule, clause by clause.
pub fn template_ok(table: &[u8; Limits::TABLE], row: &[u8; Limits::RULE]) -> bool
    requires { (length (agents_in table.now) ≤ symbols_max) × (all agent_ok (agents_in table.now) ≡ true) }
    ensures { result ≡ test_template (agents_in table.now) (entry_of (agents_in table.now) row.now) }
{
    let n = usize::from(symbol_count(table));
    sizes_ok(n, row) && cells_ok(n, row) && fitting_ok(FittingRow { table, row })
}
