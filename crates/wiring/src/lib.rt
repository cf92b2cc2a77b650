// The wiring of an equation with a name on some side, on a lent state and with what a run keeps beside it.
#![tactic(auto)]

ghost use Rattle.std.specs.Prelude.{◌≡◌, ◌<◌};
ghost use Rattle.parts.specs.Limits.{cells_max, names_max};
ghost use Rattle.parts.specs.Typed.{number};
ghost use Rattle.state.specs.Layout.{view};
ghost use Rattle.state.specs.Places.{stored};
ghost use Rattle.state.specs.declared.Part.{Part};
ghost use Rattle.kept.specs.Right.{Right};
ghost use Rattle.wiring.specs.Wiring.{bound, loop_here, Wirable, Countable, Ready, end_of, dropped, fastened, wired};
ghost use Rattle.wiring.specs.Keeping.{Renamable, renamed, lowered, Came};

use kept::Kept;
use parts::{CellNo, Equation, Limits, NameNo, Side, encode};
use state::Pile;

// The word of a name that is tied or joined to a side.
fn bound_to(s: Side) -> u16
    requires { number s < names_max }
    ensures { result ≡ bound s }
{
    encode(s) + 2
}

// Two names: the same, or the first joined to the second.
fn same_or_joined(state: &[u16; Limits::STATE], x: NameNo, y: NameNo) -> bool
    requires { (x.0 < names_max) × (y.0 < names_max) }
    ensures { result ≡ loop_here (Side.Name x) (Side.Name y) (view state.now) }
{
    x == y || state::name_word(state, x) == bound_to(Side::Name(y))
}

// Whether an equation of these sides is a loop: "x = x, or x = y with x joined to y".
pub fn loops_here(state: &[u16; Limits::STATE], l: Side, r: Side) -> bool
    requires { (number l < names_max) × (number r < names_max) }
    ensures { result ≡ loop_here l r (view state.now) }
{
    match (l, r) {
        (Side::Name(x), Side::Name(y)) => same_or_joined(state, x, y),
        _ => false,
    }
}

// What is kept is right of the state behind the `&mut`: `Right` and `Wirable` stand in the clauses, since a struct of the two would have to be
// right at each write between, where it is not.
// The number below which no name is free, once name x has a new word.
fn lower(low: u16, x: u16, word: u16) -> u16
    ensures { result ≡ lowered low x word }
{
    if word == 0 { low.min(x) } else { low }
}

// What is kept, once the word of name x is new.
fn rename(k: Kept, x: NameNo, old: u16, word: u16) -> Kept
    requires { Renamable k old }
    ensures { result ≡ renamed k x.0 old word }
{
    let gone = u16::from(old != 0);
    let come = u16::from(word != 0);
    Kept {
        names: k.names - gone + come,
        low_name: lower(k.low_name, x.0, word),
        ..k
    }
}

// A name's word set.
fn set_name(state: &mut [u16; Limits::STATE], x: NameNo, word: u16, k: Kept) -> Kept
    requires { Wirable (view state.old) × (x.0 < names_max) × Right k (view state.old) }
    ensures { Came (view state.new) result (stored Part.Names x.0 word (view state.old)) }
{
    let old = state::name_word(state, x);
    state::set_name_word(state, x, word);
    rename(k, x, old, word)
}

// The end that a side stands for: of a tied or joined name the other end.
fn end_of(state: &[u16; Limits::STATE], s: Side) -> Side
    requires { number s < names_max }
    ensures { result ≡ end_of s (view state.now) }
{
    match s {
        Side::Name(x) => {
            let w = state::name_word(state, x);
            if w < 2 { s } else { Side::from(w - 2) }
        }
        Side::Cell(_) => s,
    }
}

// The tie or join of a name is dropped.
fn drop_bond(state: &mut [u16; Limits::STATE], s: Side, k: Kept) -> Kept
    requires { Wirable (view state.old) × (number s < names_max) × Right k (view state.old) }
    ensures { Came (view state.new) result (dropped s (view state.old)) }
{
    let Side::Name(x) = s else {
        return k;
    };
    let w = state::name_word(state, x);
    if w < 2 {
        return k;
    }
    let k1 = set_name(state, x, 0, k);
    match Side::from(w - 2) {
        Side::Name(y) => set_name(state, y, 1, k1),
        Side::Cell(_) => k1,
    }
}

// Two names at their ends: a loop, or a join.
fn fasten_names(state: &mut [u16; Limits::STATE], x: NameNo, y: NameNo, k: Kept) -> Kept
    requires wirable { Wirable (view state.old) × (x.0 < names_max) × (y.0 < names_max) × Right k (view state.old) }
    requires countable { Countable (Side.Name x) (Side.Name y) (view state.old) }
    ensures { Came (view state.new) result (fastened (Side.Name x) (Side.Name y) (view state.old)) }
{
    if x == y {
        let n = state::loops(state);
        let freed = set_name(state, x, 0, k);
        state::set_loops(state, n + 1);
        return freed;
    }
    let k1 = set_name(state, x, bound_to(Side::Name(y)), k);
    set_name(state, y, bound_to(Side::Name(x)), k1)
}

// A name tied to a cell.
fn tie(state: &mut [u16; Limits::STATE], x: NameNo, c: CellNo, k: Kept) -> Kept
    requires { Wirable (view state.old) × (x.0 < names_max) × (c.0 < cells_max) × Right k (view state.old) }
    ensures { Came (view state.new) result (stored Part.Names x.0 (bound (Side.Cell c)) (view state.old)) }
{
    set_name(state, x, bound_to(Side::Cell(c)), k)
}

// Two cells: an equation put.
fn put_cells(state: &mut [u16; Limits::STATE], a: CellNo, b: CellNo, k: Kept) -> Kept
    requires { Wirable (view state.old) × (a.0 < cells_max) × (b.0 < cells_max) × Right k (view state.old) }
    ensures { Came (view state.new) result (fastened (Side.Cell a) (Side.Cell b) (view state.old)) }
{
    let e = Equation {
        left: Side::Cell(a),
        right: Side::Cell(b),
    };
    state::put_at_head(state, Pile::Waits, e);
    k
}

// Two ends: a tie, a join, a loop, or an equation put.
fn fasten(state: &mut [u16; Limits::STATE], l: Side, r: Side, k: Kept) -> Kept
    requires wirable { Wirable (view state.old) × (number l < names_max) × (number r < names_max) × Right k (view state.old) }
    requires countable { Countable l r (view state.old) }
    ensures { Came (view state.new) result (fastened l r (view state.old)) }
{
    match (l, r) {
        (Side::Name(x), Side::Name(y)) => fasten_names(state, x, y, k),
        (Side::Name(x), Side::Cell(c)) => tie(state, x, c, k),
        (Side::Cell(c), Side::Name(y)) => tie(state, y, c, k),
        (Side::Cell(a), Side::Cell(b)) => put_cells(state, a, b, k),
    }
}

// Both sides followed, and fastened.
pub fn wire(state: &mut [u16; Limits::STATE], l: Side, r: Side, k: Kept) -> Kept
    requires { Ready l r (view state.old) × Right k (view state.old) }
    ensures { Came (view state.new) result (wired l r (view state.old)) }
{
    let a = end_of(state, l);
    let k1 = drop_bond(state, l, k);
    let b = end_of(state, r);
    let k2 = drop_bond(state, r, k1);
    fasten(state, a, b, k2)
}
