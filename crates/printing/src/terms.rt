// The printer of sides and cells, which calls itself on arguments and tied terms, the count of cells not yet met falling.
ghost use Rattle.std.specs.Prelude.{◌+◌, ◌*◌, ◌<◌, ◌≤◌, [], ◌∷◌};
ghost use Rattle.parts.specs.Sides.{name, cell, side};
ghost use Rattle.model.specs.Ranges.{LiveSide};
ghost use Rattle.state.specs.Layout.{view};
ghost use Rattle.state.specs.Places.{words};
ghost use Rattle.answers.specs.Text.{numeral};
ghost use Rattle.printing.specs.Puts.{far, name_long};
ghost use Rattle.printing.specs.Prints.{Stands, Begins, Begun, closing, Prints, Looks, Ready, Row, Leaf, span, one_name, two_names, side_of, cell_of, sides_of};

use crate::leaves::{put, put_letters, put_numeral};
use crate::states::SoundState;
use parts::{CellNo, Limits, NameNo, Side};
use sound::passes::width_of;
use sound::usable::UsableTable;
use state::{Part, name_word, read, symbol_word};

// Where the next byte goes, the next number of a name, and the cells not yet met.
#[derive(Clone, Copy)]
pub struct Cursor {
    pub at: usize,
    pub next: u16,
    pub left: u16,
}

// The numbers and the output are lent for writing and the cursor goes by value, so the three stay apart: a struct of them would be a `&mut` to
// two more, and each clause would have to say which of them stays.
// What a side is met as: a name that has a number, one that is bare, two that are joined, or a cell.
#[derive(Clone, Copy)]
pub enum Met {
    Numbered(u16),
    Bare(NameNo),
    Joined { x: NameNo, y: NameNo },
    Cell(CellNo),
}

fn look_at(state: &[u16; Limits::STATE], numbers: &[u16; Limits::NAMES], x: NameNo) -> Met
    requires { LiveSide (view state.now) (name x.0) }
    ensures { Looks (view state.now) numbers.now (name x.0) result }
{
    let k = numbers[usize::from(x.0)];
    if k != 0 {
        return Met::Numbered(k - 1);
    }
    let word = name_word(state, x);
    if word < 2 {
        return Met::Bare(x);
    }
    match Side::from(word - 2) {
        Side::Name(y) => Met::Joined { x: x, y: y },
        Side::Cell(c) => Met::Cell(c),
    }
}

fn look(state: &[u16; Limits::STATE], numbers: &[u16; Limits::NAMES], word: u16) -> Met
    requires { LiveSide (view state.now) (side word) }
    ensures { Looks (view state.now) numbers.now (side word) result }
{
    match Side::from(word) {
        Side::Name(x) => look_at(state, numbers, x),
        Side::Cell(c) => Met::Cell(c),
    }
}

// One byte.
pub fn mark(out: &mut [u8], k: Cursor, b: u8) -> Cursor
    requires { k.at + 1 ≤ far }
    ensures { Stands (b ∷ []) k out.old result out.new }
{
    Cursor {
        at: put(out, k.at, b),
        ..k
    }
}

// The number of a name that has one.
fn name_again(out: &mut [u8], k: Cursor, n: u16) -> Cursor
    requires { k.at + name_long ≤ far }
    ensures { Stands (numeral n) k out.old result out.new }
{
    Cursor {
        at: put_numeral(out, k.at, n),
        ..k
    }
}

// A name takes the next number.
fn name_one(numbers: &mut [u16; Limits::NAMES], out: &mut [u8], k: Cursor, x: NameNo) -> Cursor
    requires { Leaf k x.0 }
    ensures { Prints (one_name x.0 k numbers.old) k.at out.old result numbers.new out.new }
{
    let n = k.next + 1;
    numbers[usize::from(x.0)] = n;
    Cursor {
        at: put_numeral(out, k.at, k.next),
        next: n,
        ..k
    }
}

// Two joined names take it both: the second the number that the first was given.
fn name_two(
    numbers: &mut [u16; Limits::NAMES],
    out: &mut [u8],
    k: Cursor,
    x: NameNo,
    y: NameNo,
) -> Cursor
    requires { Leaf k x.0 × Leaf k y.0 }
    ensures { Prints (two_names x.0 y.0 k numbers.old) k.at out.old result numbers.new out.new }
{
    let done = name_one(numbers, out, k, x);
    numbers[usize::from(y.0)] = done.next;
    done
}

// The letters of a cell, by the word of its symbol: the cells left are one less.
fn begin_cell(table: &[u8; Limits::TABLE], out: &mut [u8], k: Cursor, word: u16) -> Cursor
    requires { Begins k word }
    ensures { Begun table.now word k out.old result out.new }
{
    Cursor {
        at: put_letters(table, usize::from(word - 1), out, k.at),
        left: k.left - 1,
        ..k
    }
}

// A closing bracket, if one was opened.
fn end_cell(out: &mut [u8], k: Cursor, n: usize) -> Cursor
    requires { k.at + 1 ≤ far }
    ensures { Stands (closing n) k out.old result out.new }
{
    if n == 0 { k } else { mark(out, k, b')') }
}

// A side: a name by its number, a tied name and a cell as the term that it is.
#[cycle(print_cell_print_side_print_sides)]
pub fn print_side(
    lent: SoundState,
    numbers: &mut [u16; Limits::NAMES],
    out: &mut [u8],
    k: Cursor,
    word: u16,
) -> Cursor
    requires { Ready k numbers.old name_long × LiveSide (view lent.state.now) (side word) }
    ensures { Prints (side_of lent.entry.table.now lent.entry.state.now word k numbers.old)
        k.at out.old result numbers.new out.new }
{
    match look(lent.state, numbers, word) {
        Met::Numbered(n) => name_again(out, k, n),
        Met::Bare(x) => name_one(numbers, out, k, x),
        Met::Joined { x, y } => name_two(numbers, out, k, x, y),
        Met::Cell(c) => print_cell(lent, numbers, out, k, c),
    }
}

// A cell, if one is left to be met: its symbol, and its arguments in brackets, parted by commas.
#[cycle(print_cell_print_side_print_sides)]
fn print_cell(
    lent: SoundState,
    numbers: &mut [u16; Limits::NAMES],
    out: &mut [u8],
    k: Cursor,
    c: CellNo,
) -> Cursor
    requires { Ready k numbers.old 0 × LiveSide (view lent.state.now) (cell c.0) }
    ensures { Prints (cell_of lent.entry.table.now lent.entry.state.now c.0 k numbers.old)
        k.at out.old result numbers.new out.new }
{
    if k.left == 0 {
        return k;
    }
    let word = symbol_word(lent.state, c);
    let n = usize::from(width_of(UsableTable { bytes: lent.table }, word));
    let inner = begin_cell(lent.table, out, k, word);
    let from = Limits::ARITY * usize::from(c.0);
    let r = print_sides(
        lent,
        numbers,
        out,
        inner,
        Part::Arguments,
        from,
        n,
        b'(',
        b',',
    );
    end_cell(out, r, n)
}

// n sides of a part, with the byte f before the first and the byte g before each other.
#[cycle(print_cell_print_side_print_sides)]
pub fn print_sides(
    lent: SoundState,
    numbers: &mut [u16; Limits::NAMES],
    out: &mut [u8],
    k: Cursor,
    p: Part,
    from: usize,
    n: usize,
    f: u8,
    g: u8,
) -> Cursor
    requires { Ready k numbers.old ((1 + name_long) * n) × Row (view lent.state.now) p from n }
    ensures { Prints (sides_of lent.entry.table.now lent.entry.state.now f g
        (span (words p (view lent.entry.state.now)) from n) k numbers.old)
        k.at out.old result numbers.new out.new }
{
    if n == 0 {
        return k;
    }
    let word = read(lent.state, p, from);
    let begun = mark(out, k, f);
    let done = print_side(lent, numbers, out, begun, word);
    print_sides(lent, numbers, out, done, p, from + 1, n - 1, g, g)
}
