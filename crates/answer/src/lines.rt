// The lines of an answer: `face` with its terms, then one `eq` for each stuck pair from the head.
ghost use Rattle.std.specs.Prelude.{◌≡◌, ◌+◌, ◌*◌, ◌<◌, ◌≤◌, length};
ghost use Rattle.parts.specs.Limits.{names_max};
ghost use Rattle.model.specs.State.{zeros};
ghost use Rattle.state.specs.Layout.{view};
ghost use Rattle.state.specs.Places.{words};
ghost use Rattle.printing.specs.Puts.{far};
ghost use Rattle.printing.specs.Prints.{Prints, Stands, Ready, Row, span};
ghost use Rattle.answer.specs.Lines.{tail_of, face_of, pair_of, pairs_of, tail_long, face_long, pair_long, First, Answers};

use parts::Limits;
use printing::leaves::put_bytes;
use printing::states::SoundState;
use printing::terms::{Cursor, mark, print_sides};
use state::{Part, Pile, count, in_use};

// The bytes of a word.
fn mark_word(out: &mut [u8], k: Cursor, word: &[u8]) -> Cursor
    requires { k.at + length word.now ≤ far }
    ensures { Stands word.now k out.old result out.new }
{
    Cursor {
        at: put_bytes(out, k.at, word),
        ..k
    }
}

// What stands in a line after its word: each side after a tab, and newline.
fn print_tail(
    lent: SoundState,
    numbers: &mut [u16; Limits::NAMES],
    out: &mut [u8],
    k: Cursor,
    p: Part,
    from: usize,
    n: usize,
) -> Cursor
    requires { Ready k numbers.old (tail_long n) × Row (view lent.state.now) p from n }
    ensures { Prints (tail_of lent.entry.table.now lent.entry.state.now
        (span (words p (view lent.entry.state.now)) from n) k numbers.old)
        k.at out.old result numbers.new out.new }
{
    let r = print_sides(lent, numbers, out, k, p, from, n, b'\t', b'\t');
    mark(out, r, b'\n')
}

fn print_face(
    lent: SoundState,
    numbers: &mut [u16; Limits::NAMES],
    out: &mut [u8],
    k: Cursor,
) -> Cursor
    requires { Ready k numbers.old face_long }
    ensures { Prints (face_of lent.entry.table.now lent.entry.state.now k numbers.old)
        k.at out.old result numbers.new out.new }
{
    let a = mark_word(out, k, b"face");
    let n = usize::from(count(lent.state, Pile::Faces));
    print_tail(lent, numbers, out, a, Part::Face, 0, n)
}

// Stuck pair number i from the start of the list.
fn print_pair(
    lent: SoundState,
    numbers: &mut [u16; Limits::NAMES],
    out: &mut [u8],
    k: Cursor,
    i: usize,
) -> Cursor
    requires { Ready k numbers.old pair_long × (i < (view lent.state.now).stuck.used) }
    ensures { Prints (pair_of lent.entry.table.now lent.entry.state.now i k numbers.old)
        k.at out.old result numbers.new out.new }
{
    let a = mark_word(out, k, b"eq");
    print_tail(lent, numbers, out, a, Part::Stuck, 2 * i, 2)
}

// The first n stuck pairs, the last of these first, as the head stands last.
fn print_pairs(
    lent: SoundState,
    numbers: &mut [u16; Limits::NAMES],
    out: &mut [u8],
    k: Cursor,
    n: usize,
) -> Cursor
    requires { Ready k numbers.old (pair_long * n) × (n ≤ (view lent.state.now).stuck.used) }
    ensures { Prints (pairs_of lent.entry.table.now lent.entry.state.now n k numbers.old)
        k.at out.old result numbers.new out.new }
{
    if n == 0 {
        return k;
    }
    let a = print_pair(lent, numbers, out, k, n - 1);
    print_pairs(lent, numbers, out, a, n - 1)
}

fn none_numbered() -> [u16; Limits::NAMES]
    ensures { result ≡ zeros names_max }
{
    [0u16; Limits::NAMES]
}

// Every cell in use is still to be met.
fn at_first(lent: SoundState) -> Cursor
    ensures { First (view lent.entry.state.now) result }
{
    Cursor {
        at: 0,
        next: 0,
        left: in_use(lent.state, Part::Symbols) as u16,
    }
}

// The whole answer, from the first place of the output on; the cells left are the knot.
pub fn print_answer(lent: SoundState, out: &mut [u8]) -> Cursor
    ensures { Answers lent.entry.table.now lent.entry.state.now out.old result out.new }
{
    let mut numbers = none_numbered();
    let k = at_first(lent);
    let a = print_face(lent, &mut numbers, out, k);
    let n = usize::from(count(lent.state, Pile::Stucks));
    print_pairs(lent, &mut numbers, out, a, n)
}
