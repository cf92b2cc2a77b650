// The clauses that a pass over an array decides. A pass ends at the first place that fails.
ghost use Rattle.std.specs.Prelude.{◌≡◌, ◌&&◌, not, ◌<◌, ◌≤◌, eqb, get_or};
ghost use Rattle.parts.specs.Limits.{arity_max, cells_max, names_max};
ghost use Rattle.parts.specs.Sides.{name};
ghost use Rattle.model.specs.State.{bound};
ghost use Rattle.model.specs.Sound.{width, live};
ghost use Rattle.model.specs.Test.{every, zeroed, declared, both_ways, sized};
ghost use Rattle.state.specs.Layout.{view};
ghost use Rattle.state.specs.Places.{size, words};
ghost use Rattle.sound.specs.Clauses.{blanks, zero_past, answers};
ghost use Rattle.sound.specs.Lent.{under};

use crate::usable::{Lent, UsableTable};
use parts::{Limits, NameNo, Side, SymbolNo};
use state::{Part, Pile, count, loops, part_words, read};
use table::reading::{arity_of, symbol_count};

// "all sizes hold": the lengths do, so that the counts are left to be tested.
pub fn sized(state: &[u16; Limits::STATE]) -> bool
    ensures { result ≡ sized (view state.now) }
{
    usize::from(count(state, Pile::Waits)) <= Limits::WAITING
        && usize::from(count(state, Pile::Stucks)) <= Limits::STUCK
        && usize::from(count(state, Pile::Faces)) <= Limits::FACE
        && loops(state) <= Limits::LOOPS
}

// "each cell's symbol is declared"
pub fn declared(table: &[u8; Limits::TABLE], state: &[u16; Limits::STATE]) -> bool
    ensures { result ≡ declared (under table.now) (view state.now) }
{
    let most = u16::from(symbol_count(table));
    part_words(state, Part::Symbols)
        .iter()
        .all(|word| *word <= most)
}

// How many arguments a cell has, by the word of its symbol.
pub fn width_of(table: UsableTable, word: u16) -> u8
    ensures { (result ≡ width (under table.entry.bytes.now).arities word) × (result ≤ arity_max) }
{
    if word == 0 {
        return 0;
    }
    arity_of(table.bytes, SymbolNo(word - 1))
}

// One for a word that is not zero, as that of a cell or a name in use, and none else.
pub fn live(state: &[u16; Limits::STATE], p: Part, i: usize) -> usize
    requires { i < size p }
    ensures { (result ≡ live (words p (view state.now)) i) × (result ≤ 1) }
{
    usize::from(read(state, p, i) != 0)
}

// "unused places of every array and list are zero": the arguments past the arity of each cell.
fn blanks(lent: Lent, c: usize) -> bool
    requires { c < cells_max }
    ensures { result ≡ blanks (under lent.entry.table.bytes.now) (view lent.entry.state.now) c }
{
    let n = usize::from(width_of(lent.table, read(lent.state, Part::Symbols, c)));
    (n..Limits::ARITY).all(|k| read(lent.state, Part::Arguments, Limits::ARITY * c + k) == 0)
}

fn all_blanks(lent: Lent) -> bool
    ensures { result ≡ every cells_max (blanks (under lent.entry.table.bytes.now) (view lent.entry.state.now)) }
{
    (0..Limits::CELLS).all(|c| blanks(lent, c))
}

// The words of a list past the first n.
fn zero_past(state: &[u16; Limits::STATE], p: Part, n: usize) -> bool
    ensures { result ≡ every (size p) (zero_past n (words p (view state.now))) }
{
    part_words(state, p).iter().skip(n).all(|word| *word == 0)
}

pub fn zeroed(lent: Lent) -> bool
    ensures { result ≡ zeroed (under lent.entry.table.bytes.now) (view lent.entry.state.now) }
{
    let waits = 2 * usize::from(count(lent.state, Pile::Waits));
    let stucks = 2 * usize::from(count(lent.state, Pile::Stucks));
    let faces = usize::from(count(lent.state, Pile::Faces));
    all_blanks(lent)
        && zero_past(lent.state, Part::Waiting, waits)
        && zero_past(lent.state, Part::Stuck, stucks)
        && zero_past(lent.state, Part::Face, faces)
}

// "joins go both ways", none "joined to itself"
fn joined_back(state: &[u16; Limits::STATE], x: usize, y: NameNo) -> bool
    requires { x < names_max }
    ensures { result ≡ (eqb (get_or (view state.now).names y.0 0) (bound (name x)) && not (eqb x y.0)) }
{
    let j = usize::from(y.0);
    j < Limits::NAMES && usize::from(read(state, Part::Names, j)) == 2 + 2 * x && x != j
}

fn answers(state: &[u16; Limits::STATE], x: usize) -> bool
    requires { x < names_max }
    ensures { result ≡ answers (view state.now) x }
{
    let word = read(state, Part::Names, x);
    if word < 2 {
        return true;
    }
    match Side::from(word - 2) {
        Side::Name(y) => joined_back(state, x, y),
        Side::Cell(_) => true,
    }
}

pub fn both_ways(state: &[u16; Limits::STATE]) -> bool
    ensures { result ≡ both_ways (view state.now) }
{
    (0..Limits::NAMES).all(|x| answers(state, x))
}
