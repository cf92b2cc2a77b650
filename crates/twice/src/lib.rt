// "each name occurs exactly twice": how often a name stands in a net that was read, and the line of the earliest that stands otherwise.
#![tactic(auto)]

ghost use Rattle.std.specs.Prelude.{position, ltb, ◌≡◌, ◌+◌, ◌*◌, ◌<◌, ◌≤◌, get_or};
ghost use Rattle.parts.specs.Limits.{arity_max, face_max, net_cells_max, net_equations_max};
ghost use Rattle.parts.specs.Sides.{name, side};
ghost use Rattle.texts.specs.TableTest.{tally, same_side, args_all};
ghost use Rattle.table.specs.Layout.{agents_in};
ghost use Rattle.table.specs.Lists.{tab};
ghost use Rattle.terms.specs.Sheet as Sheets;
ghost use Rattle.loading.specs.OnSheet.{cells_on, face_on};
ghost use Rattle.twice.specs.Counting.{Found, args_on, loose_on, first_loose, passed};

use loading::{Codes, LentTable, width_on};
use parts::{CellNo, Limits};
use terms::sheet;
use terms::sheet::Sheet;

// One mark for each line of terms: how many names there are after it.
#[derive(Clone, Copy)]
pub struct Marks;

impl Marks {
    pub const SIZE: usize = 1 + Limits::NET_EQUATIONS;
}

// Whether a code is that of name x.
fn is_name(word: u16, x: u16) -> bool
    ensures { result ≡ same_side (name x) (side word) }
{
    usize::from(word) == 2 * usize::from(x)
}

// Among the first n codes.
// The codes are one array with room for the largest net, of which n are read so far: here, in crates/loading and in crates/nets the clauses name
// that array, so it goes whole, with n.
fn times_in_codes(codes: &[u16; Codes::SIZE], n: usize, x: u16) -> usize
    requires { n ≤ face_max + 2 * net_equations_max }
    ensures { Found result (tally (same_side (name x)) (face_on codes.now n)) n }
{
    codes[..n].iter().filter(|code| is_name(**code, x)).count()
}

// Among the first n arguments of a cell.
fn times_in_cell(sheet: &[u16; Sheet::SIZE], c: CellNo, n: u16, x: u16) -> usize
    requires { (c.0 < net_cells_max) × (n ≤ arity_max) }
    ensures { Found result (tally (same_side (name x)) (args_on (Sheets.view sheet.now) c.0 n)) arity_max }
{
    let mut found: usize = 0;
    for k in 0..n {
        found += usize::from(is_name(sheet::argument(sheet, c, k), x));
    }
    found
}

// Among the arguments of all cells.
fn times_in_cells(table: LentTable<'_>, sheet: &[u16; Sheet::SIZE], x: u16) -> usize
    requires { (Sheets.view sheet.now).cells ≤ net_cells_max }
    ensures { Found result (tally (same_side (name x)) (args_all (cells_on (agents_in table.entry.bytes.now) (Sheets.view sheet.now)))) (arity_max * net_cells_max) }
{
    let mut found: usize = 0;
    for c in 0..sheet::cells(sheet) {
        let w = width_on(table, sheet, CellNo(c));
        found += times_in_cell(sheet, CellNo(c), w, x);
    }
    found
}

// Whether name x stands another number of times than two.
// `sheet` and `codes` are lent apart, since the sheet is read by number and the codes by place.
fn loose(
    table: LentTable<'_>,
    sheet: &[u16; Sheet::SIZE],
    codes: &[u16; Codes::SIZE],
    n: usize,
    x: u16,
) -> bool
    requires { ((Sheets.view sheet.now).cells ≤ net_cells_max) × (n ≤ face_max + 2 * net_equations_max) }
    ensures { result ≡ loose_on (agents_in table.entry.bytes.now) (Sheets.view sheet.now) codes.now n x }
{
    times_in_codes(codes, n, x) + times_in_cells(table, sheet, x) != 2
}

// The first such name, or the number of names: no Option, since `loose_line_lem` of specs/Meaning says the line by that number.
pub fn first_loose(
    table: LentTable<'_>,
    sheet: &[u16; Sheet::SIZE],
    codes: &[u16; Codes::SIZE],
    n: usize,
) -> u16
    requires { ((Sheets.view sheet.now).cells ≤ net_cells_max) × (n ≤ face_max + 2 * net_equations_max) }
    ensures { result ≡ first_loose (loose_on (agents_in table.entry.bytes.now) (Sheets.view sheet.now) codes.now n) 0 (Sheets.view sheet.now).names }
{
    let most = sheet::names(sheet);
    for x in 0..most {
        if loose(table, sheet, codes, n, x) {
            return x;
        }
    }
    most
}

// Where the first mark is that passes x.
fn first_past(marks: &[u16], x: u16) -> Option<usize>
    ensures { result ≡ position (ltb x) marks.now }
{
    marks.iter().position(|mark| x < *mark)
}

// How many of the first n marks do not pass x: the lines before the one on which name x first stands.
pub fn lines_before(marks: &[u16; Marks::SIZE], n: usize, x: u16) -> usize
    requires { n ≤ 1 + net_equations_max }
    ensures { result ≡ passed x (tab n (λ k. get_or marks.now k 0)) }
{
    first_past(&marks[..n], x).unwrap_or(n)
}
