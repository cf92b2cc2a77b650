// The lent state: one array of words, its parts by their tags, and typed accessors above them.
#![tactic(auto)]

ghost use Rattle.std.specs.Prelude.{position, ◌==◌, ◌≡◌, ◌+◌, ◌*◌, ◌<◌, ◌≤◌, get_or};
ghost use Rattle.parts.specs.Limits.{arity_max, cells_max, names_max, waiting_max};
ghost use Rattle.state.specs.Layout.{state_size, view};
ghost use Rattle.state.specs.Places.{begins, size, words, stored, counted_at, pile, part_of, counted, looped};
ghost use Rattle.parts.specs.Typed.{pair};
ghost use Rattle.model.specs.State.{equation, empty, used};
ghost use Rattle.state.specs.Moves.{RoomOn, put_on, Pullable, out_of_waiting, down, cut, freed, free_from};

use parts::{CellNo, Equation, Limits, NameNo, encode};

// Where each part begins. The counts stand first.
#[derive(Clone, Copy)]
pub struct Layout;

impl Layout {
    pub const WAITS_AT: usize = 0;

    pub const STUCKS_AT: usize = 1;

    pub const FACES_AT: usize = 2;

    pub const LOOPS_AT: usize = 3;

    pub const SYMBOLS_AT: usize = 5;

    pub const ARGUMENTS_AT: usize = Layout::SYMBOLS_AT + Limits::CELLS;

    pub const NAMES_AT: usize = Layout::ARGUMENTS_AT + Limits::ARITY * Limits::CELLS;

    pub const WAITING_AT: usize = Layout::NAMES_AT + Limits::NAMES;

    pub const STUCK_AT: usize = Layout::WAITING_AT + 2 * Limits::WAITING;

    pub const FACE_AT: usize = Layout::STUCK_AT + 2 * Limits::STUCK;
}

#[derive(Clone, Copy)]
pub enum Part {
    Symbols,
    Arguments,
    Names,
    Waiting,
    Stuck,
    Face,
}

// The parts that are lists, with a count of what is in them.
#[derive(Clone, Copy)]
pub enum Pile {
    Waits,
    Stucks,
    Faces,
}

// A lent state has as many words as the specs page says.
pub fn figures()
    ensures { Limits.STATE ≡ state_size }
{}

// A state with nothing in it.
pub fn empty() -> [u16; Limits::STATE]
    ensures { view result ≡ empty }
{
    [0u16; Limits::STATE]
}

fn start(p: Part) -> usize
    ensures { result ≡ begins p }
{
    match p {
        Part::Symbols => Layout::SYMBOLS_AT,
        Part::Arguments => Layout::ARGUMENTS_AT,
        Part::Names => Layout::NAMES_AT,
        Part::Waiting => Layout::WAITING_AT,
        Part::Stuck => Layout::STUCK_AT,
        Part::Face => Layout::FACE_AT,
    }
}

fn size_of(p: Part) -> usize
    ensures { result ≡ size p }
{
    match p {
        Part::Symbols => Limits::CELLS,
        Part::Arguments => Limits::ARITY * Limits::CELLS,
        Part::Names => Limits::NAMES,
        Part::Waiting => 2 * Limits::WAITING,
        Part::Stuck => 2 * Limits::STUCK,
        Part::Face => Limits::FACE,
    }
}

// The words of a part.
pub fn part_words(state: &[u16; Limits::STATE], p: Part) -> &[u16]
    ensures { result.now ≡ words p (view state.now) }
{
    let a = start(p);
    &state[a..a + size_of(p)]
}

pub fn read(state: &[u16; Limits::STATE], p: Part, i: usize) -> u16
    requires { i < size p }
    ensures { result ≡ get_or (words p (view state.now)) i 0 }
{
    let a = start(p);
    state[a + i]
}

pub fn write(state: &mut [u16; Limits::STATE], p: Part, i: usize, v: u16)
    requires { i < size p }
    ensures { view state.new ≡ stored p i v (view state.old) }
{
    let a = start(p);
    state[a + i] = v;
}

// Its own function beside `start` of terms' sheet, which is of the same form: the places are those of another layout.
fn count_place(p: Pile) -> usize
    ensures { result ≡ counted_at p }
{
    match p {
        Pile::Waits => Layout::WAITS_AT,
        Pile::Stucks => Layout::STUCKS_AT,
        Pile::Faces => Layout::FACES_AT,
    }
}

pub fn count(state: &[u16; Limits::STATE], p: Pile) -> u16
    ensures { result ≡ (pile p (view state.now)).used }
{
    let a = count_place(p);
    state[a]
}

pub fn set_count(state: &mut [u16; Limits::STATE], p: Pile, n: u16)
    ensures { view state.new ≡ counted p n (view state.old) }
{
    let a = count_place(p);
    state[a] = n;
}

pub fn loops(state: &[u16; Limits::STATE]) -> u32
    ensures { result ≡ (view state.now).loops }
{
    let low = u32::from(state[Layout::LOOPS_AT]);
    let high = u32::from(state[Layout::LOOPS_AT + 1]);
    low + 65536 * high
}

pub fn set_loops(state: &mut [u16; Limits::STATE], n: u32)
    ensures { view state.new ≡ looped n (view state.old) }
{
    state[Layout::LOOPS_AT] = (n % 65536) as u16;
    state[Layout::LOOPS_AT + 1] = (n / 65536) as u16;
}

// A number's bound stands in the clauses here and above: `CellNo` and `NameNo` are made from any code, and the test of a lent state is given
// codes out of range, so the types can't hold it.
// The word of a cell's symbol: 0 for a cell not in use, else symbol + 1.
pub fn symbol_word(state: &[u16; Limits::STATE], c: CellNo) -> u16
    requires { c.0 < cells_max }
    ensures { result ≡ get_or (view state.now).symbols c.0 0 }
{
    let i = usize::from(c.0);
    read(state, Part::Symbols, i)
}

pub fn set_symbol_word(state: &mut [u16; Limits::STATE], c: CellNo, v: u16)
    requires { c.0 < cells_max }
    ensures { view state.new ≡ stored Part.Symbols c.0 v (view state.old) }
{
    let i = usize::from(c.0);
    write(state, Part::Symbols, i, v);
}

// The code of argument k of a cell.
pub fn argument_word(state: &[u16; Limits::STATE], c: CellNo, k: u16) -> u16
    requires { (c.0 < cells_max) × (k < arity_max) }
    ensures { result ≡ get_or (view state.now).arguments (arity_max * c.0 + k) 0 }
{
    let i = Limits::ARITY * usize::from(c.0) + usize::from(k);
    read(state, Part::Arguments, i)
}

pub fn set_argument_word(state: &mut [u16; Limits::STATE], c: CellNo, k: u16, v: u16)
    requires { (c.0 < cells_max) × (k < arity_max) }
    ensures { view state.new ≡ stored Part.Arguments (arity_max * c.0 + k) v (view state.old) }
{
    let i = Limits::ARITY * usize::from(c.0) + usize::from(k);
    write(state, Part::Arguments, i, v);
}

// A name's word: 0 for a name not in use, 1 for a bare one, 2 + the code of what it is tied or joined to.
// It reads as `symbol_word` does and is kept beside it: the callers of each know one part of the state by its clause.
pub fn name_word(state: &[u16; Limits::STATE], x: NameNo) -> u16
    requires { x.0 < names_max }
    ensures { result ≡ get_or (view state.now).names x.0 0 }
{
    let i = usize::from(x.0);
    read(state, Part::Names, i)
}

// Kept beside `set_symbol_word` for the same reason: its clause says that the names change and nothing else.
pub fn set_name_word(state: &mut [u16; Limits::STATE], x: NameNo, v: u16)
    requires { x.0 < names_max }
    ensures { view state.new ≡ stored Part.Names x.0 v (view state.old) }
{
    let i = usize::from(x.0);
    write(state, Part::Names, i, v);
}

fn part_under(p: Pile) -> Part
    ensures { result ≡ part_of p }
{
    match p {
        Pile::Waits => Part::Waiting,
        Pile::Stucks => Part::Stuck,
        Pile::Faces => Part::Face,
    }
}

// Equation number k from the start of a list; the head is the last.
pub fn equation_at(state: &[u16; Limits::STATE], p: Pile, k: u16) -> Equation
    requires { 1 + 2 * k < size (part_of p) }
    ensures { pair result ≡ equation k (pile p (view state.now)).words }
{
    let i = 2 * usize::from(k);
    let part = part_under(p);
    let l = read(state, part, i);
    let r = read(state, part, 1 + i);
    Equation::from((l, r))
}

// An equation put at the head of a list.
pub fn put_at_head(state: &mut [u16; Limits::STATE], p: Pile, e: Equation)
    requires { RoomOn p e (view state.old) }
    ensures { view state.new ≡ put_on p (pair e) (view state.old) }
{
    let n = count(state, p);
    let i = 2 * usize::from(n);
    let part = part_under(p);
    write(state, part, i, encode(e.left));
    write(state, part, 1 + i, encode(e.right));
    set_count(state, p, n + 1);
}

// The equation after number k goes down to its place.
fn pull_down(state: &mut [u16; Limits::STATE], k: u16)
    requires { k + 1 < waiting_max }
    ensures { view state.new ≡ down k (view state.old) }
{
    let i = 2 * usize::from(k);
    let l = read(state, Part::Waiting, 2 + i);
    let r = read(state, Part::Waiting, 3 + i);
    write(state, Part::Waiting, i, l);
    write(state, Part::Waiting, 1 + i, r);
}

// Place number k cleared, so that k equations wait.
fn cut_at(state: &mut [u16; Limits::STATE], k: u16)
    requires { k < waiting_max }
    ensures { view state.new ≡ cut k (view state.old) }
{
    let i = 2 * usize::from(k);
    write(state, Part::Waiting, i, 0);
    write(state, Part::Waiting, 1 + i, 0);
    set_count(state, Pile::Waits, k);
}

// Equation number k from the start taken out of those that wait, the others in their order.
pub fn take_out(state: &mut [u16; Limits::STATE], k: u16)
    requires { Pullable k (view state.old) }
    ensures { view state.new ≡ out_of_waiting k (view state.old) }
{
    let last = count(state, Pile::Waits) - 1;
    for j in k..last {
        pull_down(state, j);
    }
    cut_at(state, last);
}

// A cell's symbol and its arguments set to zero.
pub fn free_cell(state: &mut [u16; Limits::STATE], c: CellNo)
    requires { c.0 < cells_max }
    ensures { view state.new ≡ freed c.0 (view state.old) }
{
    set_symbol_word(state, c, 0);
    set_argument_word(state, c, 0, 0);
    set_argument_word(state, c, 1, 0);
    set_argument_word(state, c, 2, 0);
    set_argument_word(state, c, 3, 0);
}

// Where the first word is that is 0.
fn first_zero(words: &[u16]) -> Option<usize>
    ensures { result ≡ position (λ v. v == 0) words.now }
{
    words.iter().position(|word| *word == 0)
}

// The lowest free number of cells or names from a number on; the number of places where none is free.
// No Option: it is asked only where one is free, and `free_from` of specs/Moves says the number.
pub fn lowest_free(state: &[u16; Limits::STATE], p: Part, from: usize) -> usize
    requires { from ≤ size p }
    ensures { result ≡ free_from from (words p (view state.now)) }
{
    let rest = &part_words(state, p)[from..];
    from + first_zero(rest).unwrap_or(rest.len())
}

// How many cells or names are in use.
pub fn in_use(state: &[u16; Limits::STATE], p: Part) -> usize
    ensures { result ≡ used (words p (view state.now)) }
{
    part_words(state, p)
        .iter()
        .filter(|word| **word != 0)
        .count()
}
