// The rule that a sheet and the codes of the sides of its equations stand for.
ghost use Rattle.std.specs.Prelude.{◌≡◌, ◌*◌, ◌/◌, ◌%◌, ◌-◌, ◌<◌, ◌≤◌, length};
ghost use Rattle.parts.specs.Limits.{rule_equations_max, rule_cells_max, node_size, net_cells_max};
ghost use Rattle.terms.specs.Sheet.{view};
ghost use Rattle.coding.specs.Made.{byte_size, node_byte, Filled, side_bytes, node_bytes, Makeable, Made};

use parts::{CellNo, Limits, SymbolNo};
use table::Rule;
use terms::sheet::{Sheet, argument, cells, names, symbol_word};

// How many numbers a byte holds.
const BYTE: u16 = 256;

// The low byte: a cast alone asks for a proof that the number fits.
fn low(x: u16) -> u8
    ensures { result ≡ x % byte_size }
{
    (x % BYTE) as u8
}

// The codes of the sides, a byte each.
fn sides_of(codes: &[u16], n: usize) -> [u8; 2 * Limits::RULE_EQUATIONS]
    requires { (n ≤ 2 * rule_equations_max) × (n ≤ length codes.now) }
    ensures { Filled result (2 * rule_equations_max) (side_bytes codes.now) n }
{
    let mut list = [0u8; 2 * Limits::RULE_EQUATIONS];
    for i in 0..n {
        list[i] = low(codes[i]);
    }
    list
}

// Byte j of cell c: its symbol + 1, then the codes of its arguments.
fn node_byte(sheet: &[u16; Sheet::SIZE], c: usize, j: usize) -> u8
    requires { (c < net_cells_max) × (j < node_size) }
    ensures { result ≡ node_byte (view sheet.now) c j }
{
    let cell = CellNo(c as u16);
    if j == 0 {
        return low(symbol_word(sheet, cell));
    }
    low(argument(sheet, cell, (j - 1) as u16))
}

// The cells, end to end.
fn nodes_of(sheet: &[u16; Sheet::SIZE], n: usize) -> [u8; Limits::NODE * Limits::RULE_CELLS]
    requires { n ≤ node_size * rule_cells_max }
    ensures { Filled result (node_size * rule_cells_max) (node_bytes (view sheet.now)) n }
{
    let mut list = [0u8; Limits::NODE * Limits::RULE_CELLS];
    for p in 0..n {
        list[p] = node_byte(sheet, p / Limits::NODE, p % Limits::NODE);
    }
    list
}

// The rule of two symbols, n sides and the cells of the sheet; its names past the places of the left arguments are the new ones.
pub fn rule_of(
    left: SymbolNo,
    right: SymbolNo,
    codes: &[u16; 2 * Limits::RULE_EQUATIONS],
    n: usize,
    sheet: &[u16; Sheet::SIZE],
) -> Rule
    requires { Makeable left.0 right.0 n codes.now (view sheet.now) }
    ensures { Made result left.0 right.0 n codes.now (view sheet.now) }
{
    let m = cells(sheet);
    let fresh = names(sheet) - ((2 * Limits::ARITY) as u16);
    Rule {
        left: low(left.0),
        right: low(right.0),
        equations: low((n / 2) as u16),
        cells: low(m),
        names: low(fresh),
        sides: sides_of(codes, n),
        nodes: nodes_of(sheet, Limits::NODE * usize::from(m)),
    }
}
