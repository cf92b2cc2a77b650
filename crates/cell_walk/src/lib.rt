// The walk over cells, from interface, waiting equations, ties and joins, and stuck pairs.
// The marks of the cells seen are bytes: the model's walk, which the contracts speak of, marks by the numbers 0 and 1.
// The loops over sides leave at the first that fails, and are no `all` chains: each call writes `seen`, and a closure
// that changes what it captures leaves nothing known of it after the chain.
#![tactic(auto)]

ghost use Rattle.std.specs.Prelude.{◌≡◌, ◌+◌, ◌*◌, ◌<◌, ◌≤◌, [], ◌∷◌, length, get_or};
ghost use Rattle.parts.specs.Limits.{cells_max, names_max};
ghost use Rattle.parts.specs.Sides.{side};
ghost use Rattle.model.specs.State.{unpack};
ghost use Rattle.model.specs.Reading.{bond_at, bonds};
ghost use Rattle.model.specs.Sound.{Sizes};
ghost use Rattle.model.specs.Test.{every, sides_of, reached};
ghost use Rattle.state.specs.Layout.{view};
ghost use Rattle.state.specs.Places.{size, words};
ghost use Rattle.sound.specs.Lent.{under};
ghost use Rattle.cell_walk.specs.Walks.{Walked, Entered, row, Ready, all_roots, met};

use parts::{CellNo, Limits, Side};
use sound::passes::{live, width_of};
use sound::usable::Lent;
use state::{Part, Pile, count, read};

// A cell that was not met and is in use is marked, and the word of its symbol handed back; none for any other.
fn enter(state: &[u16; Limits::STATE], seen: &mut [u8; Limits::CELLS], c: CellNo) -> Option<u16>
    requires { length seen.old ≡ cells_max }
    ensures { Entered (view state.now).symbols c.0 seen.old result seen.new }
{
    let i = usize::from(c.0);
    if Limits::CELLS <= i || seen[i] != 0 {
        return None;
    }
    let word = read(state, Part::Symbols, i);
    if word == 0 {
        return None;
    }
    seen[i] = 1;
    Some(word)
}

// `visit` and `visit_row` call each other: terms are trees, the cells not yet met fall with each level, and a loop would
// need a stack of sides of its own.
// From the side that a word stands for on: no cell is met twice, none is met that is not in use, and every name is in range.
#[cycle(visit_visit_row)]
fn visit(lent: Lent, seen: &mut [u8; Limits::CELLS], word: u16) -> bool
    requires { Ready (view lent.state.now) seen.old }
    ensures { Walked lent.entry.table.bytes.now (view lent.entry.state.now)
        (side word ∷ []) seen.old result seen.new }
{
    match Side::from(word) {
        Side::Name(x) => usize::from(x.0) < Limits::NAMES,
        Side::Cell(c) => {
            let Some(symbol) = enter(lent.state, seen, c) else {
                return false;
            };
            let n = usize::from(width_of(lent.table, symbol));
            let from = Limits::ARITY * usize::from(c.0);
            visit_row(lent, seen, Part::Arguments, from, n)
        }
    }
}

// From n words of a part on.
#[cycle(visit_visit_row)]
fn visit_row(lent: Lent, seen: &mut [u8; Limits::CELLS], p: Part, from: usize, n: usize) -> bool
    requires { Ready (view lent.state.now) seen.old × (from + n ≤ size p) }
    ensures { Walked lent.entry.table.bytes.now (view lent.entry.state.now)
        (row (words p (view lent.entry.state.now)) from n) seen.old result seen.new }
{
    for i in 0..n {
        if !visit(lent, seen, read(lent.state, p, from + i)) {
            return false;
        }
    }
    true
}

// From the equations of a list on, the head, which is the last, first.
fn visit_pile(lent: Lent, seen: &mut [u8; Limits::CELLS], p: Part, n: usize) -> bool
    requires { Ready (view lent.state.now) seen.old × (2 * n ≤ size p) }
    ensures { Walked lent.entry.table.bytes.now (view lent.entry.state.now)
        (sides_of (unpack n (words p (view lent.entry.state.now)))) seen.old result seen.new }
{
    for k in (0..n).rev() {
        if !visit_row(lent, seen, p, 2 * k, 2) {
            return false;
        }
    }
    true
}

// From what a name is tied to on. A join is looked at once, at the lower of its names.
fn visit_bond(lent: Lent, seen: &mut [u8; Limits::CELLS], x: usize) -> bool
    requires { Ready (view lent.state.now) seen.old × (x < names_max) }
    ensures { Walked lent.entry.table.bytes.now (view lent.entry.state.now)
        (sides_of (bond_at x (get_or (view lent.entry.state.now).names x 0))) seen.old result seen.new }
{
    let word = read(lent.state, Part::Names, x);
    if word < 2 {
        return true;
    }
    match Side::from(word - 2) {
        Side::Name(y) => {
            let j = usize::from(y.0);
            j <= x || j < Limits::NAMES
        }
        Side::Cell(_) => visit(lent, seen, word - 2),
    }
}

// From the ties and joins of all names on.
fn visit_bonds(lent: Lent, seen: &mut [u8; Limits::CELLS]) -> bool
    requires { Ready (view lent.state.now) seen.old }
    ensures { Walked lent.entry.table.bytes.now (view lent.entry.state.now)
        (sides_of (bonds 0 (view lent.entry.state.now).names)) seen.old result seen.new }
{
    for x in 0..Limits::NAMES {
        if !visit_bond(lent, seen, x) {
            return false;
        }
    }
    true
}

// From everything on that the cells are to be reached from.
fn visit_all(lent: Lent, seen: &mut [u8; Limits::CELLS]) -> bool
    requires { Ready (view lent.state.now) seen.old }
    ensures { Walked lent.entry.table.bytes.now (view lent.entry.state.now)
        (all_roots (view lent.entry.state.now)) seen.old result seen.new }
{
    let faces = usize::from(count(lent.state, Pile::Faces));
    let waits = usize::from(count(lent.state, Pile::Waits));
    let stucks = usize::from(count(lent.state, Pile::Stucks));
    visit_row(lent, seen, Part::Face, 0, faces)
        && visit_pile(lent, seen, Part::Waiting, waits)
        && visit_bonds(lent, seen)
        && visit_pile(lent, seen, Part::Stuck, stucks)
}

// A cell was seen exactly if it is in use.
fn met(state: &[u16; Limits::STATE], seen: &[u8; Limits::CELLS], c: usize) -> bool
    requires { c < cells_max }
    ensures { result ≡ met (view state.now).symbols seen.now c }
{
    usize::from(seen[c]) == live(state, Part::Symbols, c)
}

fn all_met(state: &[u16; Limits::STATE], seen: &[u8; Limits::CELLS]) -> bool
    ensures { result ≡ every cells_max (met (view state.now).symbols seen.now) }
{
    (0..Limits::CELLS).all(|c| met(state, seen, c))
}

// "every cell in use is reached exactly once from interface, ties, waiting and stuck"
// `Sizes` stays a clause: it is what a test before this one found of the same state.
pub fn reached(lent: Lent) -> bool
    requires { Sizes (view lent.state.now) }
    ensures { result ≡ reached (under lent.entry.table.bytes.now) (view lent.entry.state.now) }
{
    let mut seen = [0; Limits::CELLS];
    visit_all(lent, &mut seen) && all_met(lent.state, &seen)
}
