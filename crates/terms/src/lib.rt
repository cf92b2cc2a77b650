// The term reader and the argument-list reader, which call each other, the levels left of 64 falling.
#![tactic(auto)]

pub mod sheet; // sheet.rt: the sheet that terms are read onto
pub mod words; // words.rt: words of a text, agents and names looked up by them

ghost use Rattle.std.specs.Prelude.{◌≡◌, ◌+◌, ◌-◌, ◌<◌, ◌≤◌};
ghost use Rattle.parts.specs.Limits.{net_cells_max, arity_max, symbols_max};
ghost use Rattle.terms.specs.Sheet.{view};
ghost use Rattle.terms.specs.Agents.{agents_of};
ghost use Rattle.terms.specs.Reader.{done, fits, name_by, cell_by, head_by, args_by, term_by, field_by};

use parts::{CellNo, Limits, NameNo, Side, SymbolNo};
use sheet::Sheet;
use words::Agent;

// A text, and the agents that its words are looked up among.
#[derive(Clone, Copy)]
pub struct Source<'a> {
    pub text: &'a [u8],
    pub agents: &'a [u8],
}

// What was read: the place after it and its code.
#[derive(Clone, Copy)]
pub struct Read {
    pub next: usize,
    pub code: u16,
}

// The head of a term: one that takes no arguments, with its code; or a cell that takes one and so many more.
#[derive(Clone, Copy)]
pub enum Head {
    Plain { code: u16 },
    Takes { cell: CellNo, more: u16 },
}

// Two places of a text (`at` and `end`, `from` and `to`) stay two arguments here and above: each call goes on with others, so a struct of both
// would be taken apart at once.
// Whether one name more can be entered: there is room, and its place and its length are in bounds.
#[tactic(auto, using(crate::proofs::Beneath::Heads::fits_laws))]
fn name_fits(n: u16, at: usize, long: usize) -> bool
    ensures { result ≡ fits n at long }
{
    usize::from(n) < Limits::NET_NAMES && at < Limits::TEXT && long <= Limits::IDENTIFIER
}

// The name that stands from `at` to `end`: its number, or the next one, under which it is entered.
#[tactic(auto, using(crate::proofs::Beneath::Heads::name_laws))]
fn read_name(
    source: Source<'_>,
    at: usize,
    end: usize,
    sheet: &mut [u16; Sheet::SIZE],
) -> Option<Head>
    requires { at ≤ end }
    ensures { done result (view sheet.new) ≡ name_by source.entry.text.now at end (view sheet.old) }
{
    let n = sheet::names(sheet);
    if Limits::NET_NAMES < usize::from(n) {
        return None;
    }
    let long = end - at;
    let word = words::part(source.text, at, long);
    let k = words::find_name(source.text, sheet, n, word);
    if k == n {
        if !name_fits(n, at, long) {
            return None;
        }
        sheet::enter_name(sheet, NameNo(n), at as u16, long as u16);
    }
    Some(Head::Plain {
        code: parts::encode(Side::Name(NameNo(k))),
    })
}

// A cell of an agent: the next number, before those of its arguments.
#[tactic(auto, using(crate::proofs::Beneath::Heads::cell_laws))]
fn read_cell(symbol: SymbolNo, arity: u16, sheet: &mut [u16; Sheet::SIZE]) -> Option<Head>
    requires { symbol.0 < symbols_max }
    ensures { done result (view sheet.new) ≡ cell_by symbol.0 arity (view sheet.old) }
{
    let c = sheet::cells(sheet);
    if Limits::NET_CELLS <= usize::from(c) || Limits::ARITY < usize::from(arity) {
        return None;
    }
    let cell = CellNo(c);
    sheet::open_cell(sheet, cell, symbol);
    if arity == 0 {
        return Some(Head::Plain {
            code: parts::encode(Side::Cell(cell)),
        });
    }
    Some(Head::Takes {
        cell,
        more: arity - 1,
    })
}

// The head that stands from `at` to `end`: a declared identifier is an agent, any other is a name.
#[tactic(auto, using(crate::proofs::Beneath::Heads::head_laws))]
fn read_head(
    source: Source<'_>,
    at: usize,
    end: usize,
    sheet: &mut [u16; Sheet::SIZE],
) -> Option<Head>
    requires { at ≤ end }
    ensures { done result (view sheet.new) ≡ head_by source.entry.text.now (agents_of source.entry.agents.now) at end (view sheet.old) }
{
    let word = words::part(source.text, at, end - at);
    match words::find_agent(source.agents, word) {
        None => read_name(source, at, end, sheet),
        Some(Agent { symbol, arity }) => read_cell(symbol, arity, sheet),
    }
}

// A term of at most `levels` levels.
#[tactic(auto, using(crate::proofs::Beneath::Ways::term_laws))]
#[cycle(read_args_read_term)]
pub fn read_term(
    source: Source<'_>,
    at: usize,
    levels: usize,
    sheet: &mut [u16; Sheet::SIZE],
) -> Option<Read>
    ensures { done result (view sheet.new) ≡ term_by source.entry.text.now (agents_of source.entry.agents.now) levels at (view sheet.old) }
{
    if levels == 0 {
        return None;
    }
    let end = scan::words::word_end(source.text, at);
    if end == at {
        return None;
    }
    let open = words::byte_at(source.text, end) == b'(';
    match read_head(source, at, end, sheet)? {
        Head::Plain { code } if !open => Some(Read { next: end, code }),
        Head::Takes { cell, more } if open => {
            read_args(source, end + 1, levels - 1, cell, 0, more, sheet)
        }
        _ => None,
    }
}

// Argument k of a cell and so many more, parted by commas, and the bracket after them.
#[tactic(auto, using(crate::proofs::Beneath::Ways::args_laws))]
#[cycle(read_args_read_term)]
fn read_args(
    source: Source<'_>,
    at: usize,
    levels: usize,
    cell: CellNo,
    k: u16,
    more: u16,
    sheet: &mut [u16; Sheet::SIZE],
) -> Option<Read>
    requires { (cell.0 < net_cells_max) × (k + more < arity_max) }
    ensures { done result (view sheet.new) ≡ args_by source.entry.text.now (term_by source.entry.text.now (agents_of source.entry.agents.now) levels) more cell.0 k at (view sheet.old) }
{
    let Read { next, code } = read_term(source, at, levels, sheet)?;
    sheet::set_argument(sheet, cell, k, code);
    match words::byte_at(source.text, next) {
        b')' if more == 0 => Some(Read {
            next: next + 1,
            code: parts::encode(Side::Cell(cell)),
        }),
        b',' if more > 0 => { read_args(source, next + 1, levels, cell, k + 1, more - 1, sheet) }
        _ => None,
    }
}

// The term that the field from `from` to `to` spells: its cells and new names go on the sheet.
#[tactic(auto, using(crate::proofs::Beneath::Ways::field_laws))]
pub fn read_field(
    source: Source<'_>,
    from: usize,
    to: usize,
    sheet: &mut [u16; Sheet::SIZE],
) -> Option<u16>
    ensures { done result (view sheet.new) ≡ field_by source.entry.text.now (agents_of source.entry.agents.now) from to (view sheet.old) }
{
    let Read { next, code } = read_term(source, from, Limits::LEVEL, sheet)?;
    if next == to { Some(code) } else { None }
}
