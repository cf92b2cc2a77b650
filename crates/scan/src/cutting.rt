// Lines cut off a text and fields cut off a line, as parts of what the caller lends.
ghost use Rattle.std.specs.Prelude.{◌≡◌, [], ◌≤◌, length, drop, get_or, count_by};
ghost use Rattle.texts.specs.Bytes.{fields};
ghost use Rattle.scan.specs.Places.{place, is};
ghost use Rattle.scan.specs.Cutting.{up_to, next_line, field_start};

use crate::places::first_place;
use parts::faults::Fault;

// Where b first stands in a, or a's length.
pub fn find(a: &[u8], b: u8) -> usize
    ensures { result ≡ place (is b) a.now }
{
    first_place(a, |x| x == b)
}

// The part of a from `at` up to the next b, or up to the end.
fn part<'a>(a: &'a [u8], at: usize, b: u8) -> &'a [u8]
    requires { at ≤ length a.now }
    ensures { result.now ≡ up_to b (drop at a.now) }
{
    let rest = &a[at..];
    &rest[..find(rest, b)]
}

// The line that begins at `at`: Some with the place of its newline, after which the next one begins; None where nothing
// is left; number 2 where bytes are left and no newline stands after them.
pub fn next_line(text: &[u8], at: usize) -> Result<Option<usize>, Fault>
    ensures { result ≡ next_line text.now at }
{
    if text.len() <= at {
        return Ok(None);
    }
    let rest = &text[at..];
    let n = find(rest, b'\n');
    if n < rest.len() {
        Ok(Some(at + n))
    } else {
        Err(Fault::BadByte)
    }
}

// The bytes of the line that begins at `at`, without its newline.
pub fn line(text: &[u8], at: usize) -> &[u8]
    requires { at ≤ length text.now }
    ensures { result.now ≡ up_to 10 (drop at text.now) }
{
    part(text, at, b'\n')
}

// How many tabs a line has.
fn tab_count(line: &[u8]) -> usize
    ensures { result ≡ count_by (is 9) line.now }
{
    line.iter().filter(|b| **b == b'\t').count()
}

// How many fields a line has: one more than tabs.
pub fn field_count(line: &[u8]) -> usize
    ensures { result ≡ length (fields line.now) }
{
    1 + tab_count(line)
}

// Where field k begins, or the line's length where there are not so many.
pub fn field_start(line: &[u8], k: usize) -> usize
    ensures { result ≡ field_start line.now k }
{
    let mut left = k;
    for (i, b) in line.iter().enumerate() {
        if left == 0 {
            return i;
        }
        if *b == b'\t' {
            left -= 1;
        }
    }
    line.len()
}

// The field that begins at `at`: the part of the line up to the next tab. It and `line` both stand over `part`: the byte that ends
// a piece is named here, and callers do not choose it.
pub fn field_at(line: &[u8], at: usize) -> &[u8]
    requires { at ≤ length line.now }
    ensures { result.now ≡ up_to 9 (drop at line.now) }
{
    part(line, at, b'\t')
}

// Field k, from 0; the empty part at the end where there are not so many.
pub fn field(line: &[u8], k: usize) -> &[u8]
    ensures { result.now ≡ get_or (fields line.now) k [] }
{
    let at = field_start(line, k);
    field_at(line, at)
}
