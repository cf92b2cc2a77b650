// How often each name stands in a state: a search of the whole state for each of them.
#![tactic(auto)]

ghost use Rattle.std.specs.Prelude.{◌≡◌, ◌+◌, ◌*◌, ◌<◌, ◌≤◌};
ghost use Rattle.parts.specs.Limits.{arity_max, cells_max, names_max};
ghost use Rattle.model.specs.Sound.{Sizes};
ghost use Rattle.model.specs.Test.{twice};
ghost use Rattle.state.specs.Layout.{view};
ghost use Rattle.state.specs.Places.{size, words};
ghost use Rattle.sound.specs.Lent.{under};
ghost use Rattle.name_counts.specs.Totals.{total, Found, mark, inside, bound_once, occurring, paired};

use parts::Limits;
use sound::passes::{live, width_of};
use sound::usable::Lent;
use state::{Part, Pile, count, part_words, read};

// How often name x stands among the n words of a list. A list may be long, so this is a loop over its places: it is made into vector code, and a
// chain is not.
fn times_listed(state: &[u16; Limits::STATE], p: Part, n: usize, x: usize) -> usize
    requires { (x < names_max) × (n ≤ size p) }
    ensures { Found result (total n (mark x (words p (view state.now)) 0)) n }
{
    let mut found = 0;
    for i in 0..n {
        found += usize::from(usize::from(read(state, p, i)) == 2 * x);
    }
    found
}

// The same among n words from a place on, as the arguments of a cell: four at most, where the chain is shorter than the loop.
fn times_in(state: &[u16; Limits::STATE], p: Part, from: usize, n: usize, x: usize) -> usize
    requires { (x < names_max) × (from + n ≤ size p) }
    ensures { Found result (total n (mark x (words p (view state.now)) from)) n }
{
    part_words(state, p)[from..from + n]
        .iter()
        .filter(|word| usize::from(**word) == 2 * x)
        .count()
}

// Among the arguments of a cell, and of all cells.
fn times_inside(lent: Lent, c: usize, x: usize) -> usize
    requires { (c < cells_max) × (x < names_max) }
    ensures { Found result (inside (under lent.entry.table.bytes.now) (view lent.entry.state.now) x c) arity_max }
{
    let n = usize::from(width_of(lent.table, read(lent.state, Part::Symbols, c)));
    times_in(lent.state, Part::Arguments, Limits::ARITY * c, n, x)
}

fn times_in_cells(lent: Lent, x: usize) -> usize
    requires { x < names_max }
    ensures { Found result (total cells_max (inside (under lent.entry.table.bytes.now) (view lent.entry.state.now) x)) (arity_max * cells_max) }
{
    // A loop, and no `map(..).sum()`: that asks for a bound of the sum of what the map yields, which no law here gives.
    let mut found = 0;
    for c in 0..Limits::CELLS {
        // A cell with no arguments, as one that is not in use, is passed by at once: there are many, and each is looked at for each name.
        let n = width_of(lent.table, read(lent.state, Part::Symbols, c));
        if n == 0 {
            continue;
        }
        found += times_inside(lent, c, x);
    }
    found
}

// A name's number is an index of a range here, and its bound the range's: it stands in the clauses.
fn bound_once(state: &[u16; Limits::STATE], x: usize) -> usize
    requires { x < names_max }
    ensures { Found result (bound_once (view state.now) x) 1 }
{
    usize::from(read(state, Part::Names, x) >= 2)
}

// `Sizes` stays a clause: it is what a test before this one found of the same state.
fn occurrences(lent: Lent, x: usize) -> usize
    requires { Sizes (view lent.state.now) × (x < names_max) }
    ensures { result ≡ occurring (under lent.entry.table.bytes.now) (view lent.entry.state.now) x }
{
    let faces = usize::from(count(lent.state, Pile::Faces));
    let waits = 2 * usize::from(count(lent.state, Pile::Waits));
    let stucks = 2 * usize::from(count(lent.state, Pile::Stucks));
    let face = times_listed(lent.state, Part::Face, faces, x);
    let waiting = times_listed(lent.state, Part::Waiting, waits, x);
    let stuck = times_listed(lent.state, Part::Stuck, stucks, x);
    let tied = bound_once(lent.state, x);
    let cells = times_in_cells(lent, x);
    face + (waiting + (stuck + (tied + cells)))
}

fn paired(lent: Lent, x: usize) -> bool
    requires { Sizes (view lent.state.now) × (x < names_max) }
    ensures { result ≡ paired (under lent.entry.table.bytes.now) (view lent.entry.state.now) x }
{
    occurrences(lent, x) == 2 * live(lent.state, Part::Names, x)
}

// "each name in use occurs exactly twice among terms, sides, tie heads and join ends"
pub fn twice(lent: Lent) -> bool
    requires { Sizes (view lent.state.now) }
    ensures { result ≡ twice (under lent.entry.table.bytes.now) (view lent.entry.state.now) }
{
    (0..Limits::NAMES).all(|x| paired(lent, x))
}
