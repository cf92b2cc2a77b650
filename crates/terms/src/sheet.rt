// The sheet that a reader writes on: one lent array of words, its parts at fixed places.
ghost use Rattle.std.specs.Prelude.{◌≡◌, ◌+◌, ◌*◌, ◌<◌, length, get_or};
ghost use Rattle.parts.specs.Limits.{net_cells_max, net_names_max, arity_max, symbols_max};
ghost use Rattle.terms.specs.Sheet.{view, begins, size, words, stored, counted_cells, counted_names, argued, opened, entered};

use parts::{CellNo, Limits, NameNo, SymbolNo};

// Sizes that follow from those of `Limits`: of a lent list of agents and of a lent sheet.
#[derive(Clone, Copy)]
pub struct Sheet;

impl Sheet {
    pub const AGENTS: usize = Limits::SYMBOLS * Limits::AGENT;

    pub const CELLS_AT: usize = 0;

    pub const NAMES_AT: usize = 1;

    pub const SYMBOLS_AT: usize = 2;

    pub const ARGUMENTS_AT: usize = Sheet::SYMBOLS_AT + Limits::NET_CELLS;

    pub const PLACES_AT: usize = Sheet::ARGUMENTS_AT + Limits::ARITY * Limits::NET_CELLS;

    pub const SIZE: usize = Sheet::PLACES_AT + 2 * Limits::NET_NAMES;
}

#[derive(Clone, Copy)]
pub enum Part {
    Symbols,
    Arguments,
    Places,
}

// Its own function beside `count_place` of the state, which is of the same form: the places are those of another layout.
fn start(p: Part) -> usize
    ensures { result ≡ begins p }
{
    match p {
        Part::Symbols => Sheet::SYMBOLS_AT,
        Part::Arguments => Sheet::ARGUMENTS_AT,
        Part::Places => Sheet::PLACES_AT,
    }
}

#[tactic(auto, using(crate::proofs::Parts::fetch_way))]
fn read(sheet: &[u16; Sheet::SIZE], p: Part, i: usize) -> u16
    requires { i < size p }
    ensures { result ≡ get_or (words p (view sheet.now)) i 0 }
{
    sheet[start(p) + i]
}

#[tactic(auto, using(crate::proofs::Parts::store_way))]
fn write(sheet: &mut [u16; Sheet::SIZE], p: Part, i: usize, v: u16)
    requires { i < size p }
    ensures { view sheet.new ≡ stored p i v (view sheet.old) }
{
    sheet[start(p) + i] = v;
}

// How many cells the sheet has. The two counts keep a read and a store each: these are one line, and their contracts
// speak of two fields.
#[tactic(auto, unfolding(crate::specs::Sheet::view))]
pub fn cells(sheet: &[u16; Sheet::SIZE]) -> u16
    ensures { result ≡ (view sheet.now).cells }
{
    sheet[Sheet::CELLS_AT]
}

// How many names the sheet has.
#[tactic(auto, unfolding(crate::specs::Sheet::view))]
pub fn names(sheet: &[u16; Sheet::SIZE]) -> u16
    ensures { result ≡ (view sheet.now).names }
{
    sheet[Sheet::NAMES_AT]
}

#[tactic(auto, using(crate::proofs::Parts::view_cells))]
fn set_cells(sheet: &mut [u16; Sheet::SIZE], n: u16)
    ensures { view sheet.new ≡ counted_cells n (view sheet.old) }
{
    sheet[Sheet::CELLS_AT] = n;
}

#[tactic(auto, using(crate::proofs::Parts::view_names))]
pub fn set_names(sheet: &mut [u16; Sheet::SIZE], n: u16)
    ensures { view sheet.new ≡ counted_names n (view sheet.old) }
{
    sheet[Sheet::NAMES_AT] = n;
}

// A number's bound stands in the clauses: the sheet and the state take the same `CellNo` and `NameNo`, each up to a size of its own.
// The word of a cell's symbol: its number + 1.
pub fn symbol_word(sheet: &[u16; Sheet::SIZE], c: CellNo) -> u16
    requires { c.0 < net_cells_max }
    ensures { result ≡ get_or (view sheet.now).symbols c.0 0 }
{
    read(sheet, Part::Symbols, usize::from(c.0))
}

// The code of argument k of a cell.
pub fn argument(sheet: &[u16; Sheet::SIZE], c: CellNo, k: u16) -> u16
    requires { (c.0 < net_cells_max) × (k < arity_max) }
    ensures { result ≡ get_or (view sheet.now).arguments (arity_max * c.0 + k) 0 }
{
    let i = Limits::ARITY * usize::from(c.0) + usize::from(k);
    read(sheet, Part::Arguments, i)
}

#[tactic(auto, unfolding(crate::specs::Sheet::argued))]
pub fn set_argument(sheet: &mut [u16; Sheet::SIZE], c: CellNo, k: u16, v: u16)
    requires { (c.0 < net_cells_max) × (k < arity_max) }
    ensures { view sheet.new ≡ argued c.0 k v (view sheet.old) }
{
    let i = Limits::ARITY * usize::from(c.0) + usize::from(k);
    write(sheet, Part::Arguments, i, v);
}

// The place in the text where a name first stands.
pub fn place(sheet: &[u16; Sheet::SIZE], x: NameNo) -> u16
    requires { x.0 < net_names_max }
    ensures { result ≡ get_or (view sheet.now).places (2 * x.0) 0 }
{
    let i = 2 * usize::from(x.0);
    read(sheet, Part::Places, i)
}

// The length of a name: 0 where nothing is spelled so.
pub fn long(sheet: &[u16; Sheet::SIZE], x: NameNo) -> u16
    requires { x.0 < net_names_max }
    ensures { result ≡ get_or (view sheet.now).places (2 * x.0 + 1) 0 }
{
    let i = 2 * usize::from(x.0) + 1;
    read(sheet, Part::Places, i)
}

// A cell of this symbol, the next one: the cells are one more.
#[tactic(auto, unfolding(crate::specs::Sheet::opened))]
pub fn open_cell(sheet: &mut [u16; Sheet::SIZE], c: CellNo, s: SymbolNo)
    requires { (c.0 < net_cells_max) × (s.0 < symbols_max) }
    ensures { view sheet.new ≡ opened c.0 s.0 (view sheet.old) }
{
    let i = usize::from(c.0);
    write(sheet, Part::Symbols, i, s.0 + 1);
    set_cells(sheet, c.0 + 1);
}

// A name that stands at `at` with n bytes, the next one: the names are one more.
#[tactic(auto, unfolding(crate::specs::Sheet::entered))]
pub fn enter_name(sheet: &mut [u16; Sheet::SIZE], x: NameNo, at: u16, n: u16)
    requires { x.0 < net_names_max }
    ensures { view sheet.new ≡ entered x.0 at n (view sheet.old) }
{
    let i = 2 * usize::from(x.0);
    write(sheet, Part::Places, i, at);
    write(sheet, Part::Places, i + 1, n);
    set_names(sheet, x.0 + 1);
}
