// A net that was read, written into the lent state: nothing in the state is tested, and all of it is written.
#![tactic(auto)]

ghost use Rattle.std.specs.Prelude.{◌≡◌, ◌+◌, ◌*◌, ◌<◌, ◌≤◌, get_or};
ghost use Rattle.parts.specs.Limits.{arity_max, face_max, net_cells_max, net_names_max, net_equations_max};
ghost use Rattle.model.specs.State.{empty};
ghost use Rattle.model.specs.Load.{loaded};
ghost use Rattle.table.specs.Layout.{agents_in};
ghost use Rattle.table.specs.Lists.{tab};
ghost use Rattle.terms.specs.Sheet as Sheets;
ghost use Rattle.state.specs.Layout.{view};
ghost use Rattle.loading.specs.OnSheet.{symbol_on, width_on, cell_on, cells_on, equation_on, equations_on, net_on, Lent, Ready};
ghost use Rattle.loading.specs.Writing.{laid, cell_written, cells_from, Equated, faced, stacked};

use parts::{CellNo, Equation, Limits, NameNo, SymbolNo};
use state::{
    Part, Pile, empty, put_at_head, set_argument_word, set_count, set_name_word, set_symbol_word,
    write,
};
use table::reading::arity_of;
use terms::sheet;
use terms::sheet::Sheet;

// The codes of a net's terms: first those of `face`, then two for each equation.
#[derive(Clone, Copy)]
pub struct Codes;

impl Codes {
    pub const SIZE: usize = Limits::FACE + 2 * Limits::NET_EQUATIONS;
}

// A lent table whose agents keep to the sizes.
#[derive(Clone, Copy)]
pub struct LentTable<'a> {
    pub bytes: &'a [u8; Limits::TABLE],
    pub ghost lent: { Lent bytes.now },
}

// The symbol of a cell of the sheet.
// Beside `symbol_of` of crates/stuck_pairs and `symbol_at` of crates/machine, which speak of a state that is tested and of a sound one.
fn symbol_on(sheet: &[u16; Sheet::SIZE], c: CellNo) -> SymbolNo
    requires { c.0 < net_cells_max }
    ensures { (result.0 ≡ symbol_on (Sheets.view sheet.now) c.0) × (result.0 < 65535) }
{
    SymbolNo(sheet::symbol_word(sheet, c).saturating_sub(1))
}

// How many arguments it takes.
pub fn width_on(table: LentTable<'_>, sheet: &[u16; Sheet::SIZE], c: CellNo) -> u16
    requires { c.0 < net_cells_max }
    ensures { (result ≡ width_on (agents_in table.entry.bytes.now) (Sheets.view sheet.now) c.0) × (result ≤ arity_max) }
{
    let s = symbol_on(sheet, c);
    u16::from(arity_of(table.bytes, s))
}

// All words are zero.
fn clear(state: &mut [u16; Limits::STATE])
    ensures { view state.new ≡ empty }
{
    *state = empty();
}

// The first n arguments of a cell.
fn write_arguments(sheet: &[u16; Sheet::SIZE], c: CellNo, n: u16, state: &mut [u16; Limits::STATE])
    requires { (c.0 < net_cells_max) × (n ≤ arity_max) }
    ensures { view state.new ≡ laid Part.Arguments (arity_max * c.0) (tab n (λ k. get_or (Sheets.view sheet.now).arguments (arity_max * c.0 + k) 0)) (view state.old) }
{
    for k in 0..n {
        set_argument_word(state, c, k, sheet::argument(sheet, c, k));
    }
}

fn write_cell(
    table: LentTable<'_>,
    sheet: &[u16; Sheet::SIZE],
    c: CellNo,
    state: &mut [u16; Limits::STATE],
)
    requires { c.0 < net_cells_max }
    ensures { view state.new ≡ cell_written c.0 (cell_on (agents_in table.entry.bytes.now) (Sheets.view sheet.now) c.0) (view state.old) }
{
    let s = symbol_on(sheet, c);
    let n = width_on(table, sheet, c);
    set_symbol_word(state, c, s.0 + 1);
    write_arguments(sheet, c, n, state);
}

// Every cell, with its own number.
fn write_cells(table: LentTable<'_>, sheet: &[u16; Sheet::SIZE], state: &mut [u16; Limits::STATE])
    requires { (Sheets.view sheet.now).cells ≤ net_cells_max }
    ensures { view state.new ≡ cells_from 0 (cells_on (agents_in table.entry.bytes.now) (Sheets.view sheet.now)) (view state.old) }
{
    for c in 0..sheet::cells(sheet) {
        write_cell(table, sheet, CellNo(c), state);
    }
}

// The first n names, bare.
fn write_names(n: u16, state: &mut [u16; Limits::STATE])
    requires { n ≤ net_names_max }
    ensures { view state.new ≡ laid Part.Names 0 (tab n (λ k. 1)) (view state.old) }
{
    for x in 0..n {
        set_name_word(state, NameNo(x), 1);
    }
}

// The first n codes are those of the interface.
// The codes go whole, with how many are those of the interface: those of the equations follow in the same array.
fn write_face(codes: &[u16; Codes::SIZE], n: usize, state: &mut [u16; Limits::STATE])
    requires { n ≤ face_max }
    ensures { view state.new ≡ faced (tab n (λ k. get_or codes.now k 0)) n (view state.old) }
{
    for i in 0..n {
        write(state, Part::Face, i, codes[i]);
    }
    set_count(state, Pile::Faces, n as u16);
}

// Equation number k.
fn equation_on(codes: &[u16; Codes::SIZE], f: usize, k: usize) -> Equation
    requires { (f ≤ face_max) × (k < net_equations_max) }
    ensures { Equated result (equation_on codes.now f k) }
{
    Equation::from((codes[f + 2 * k], codes[f + 2 * k + 1]))
}

// The equations, the last one first, so that the first becomes the head.
fn write_equations(codes: &[u16; Codes::SIZE], f: usize, n: usize, state: &mut [u16; Limits::STATE])
    requires { (f ≤ face_max) × (n ≤ net_equations_max) × ((view state.old).waiting.used ≡ 0) }
    ensures { view state.new ≡ stacked (equations_on codes.now f n) (view state.old) }
{
    for k in (0..n).rev() {
        put_at_head(state, Pile::Waits, equation_on(codes, f, k));
    }
}

// The whole net: "A loaded net is numbered so from 0, `face` first; its equations wait in text order and the rest is empty."
// `sheet` and `codes` are lent apart, since the sheet is read by number and the codes by place.
pub fn fill(
    table: LentTable<'_>,
    sheet: &[u16; Sheet::SIZE],
    codes: &[u16; Codes::SIZE],
    f: usize,
    n: usize,
    state: &mut [u16; Limits::STATE],
)
    requires { Ready (Sheets.view sheet.now) f n }
    ensures { view state.new ≡ loaded (net_on (agents_in table.entry.bytes.now) (Sheets.view sheet.now) codes.now f n) }
{
    clear(state);
    write_equations(codes, f, n, state);
    write_cells(table, sheet, state);
    write_names(sheet::names(sheet), state);
    write_face(codes, f, state);
}
