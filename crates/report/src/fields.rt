// What stands in a line: a number in decimal, and fields, each after a tab.
ghost use Rattle.std.specs.Prelude.{◌∷◌, ◌+◌, ◌≤◌, length};
ghost use Rattle.printing.specs.Puts.{Puts, far};
ghost use Rattle.report.specs.Numbers.{digits, number_max};

use printing::leaves::{put, put_bytes};

// By hand and not by `Display`: a run on an output without room measures the answer, so what is not stored is counted too, and nothing allocates.
// A number in decimal, its last digit last.
fn put_number(out: &mut [u8], at: usize, n: usize) -> usize
    requires { at + length (digits n) ≤ far }
    ensures { Puts (digits n) at out.old result out.new }
{
    let d = 48 + ((n % 10) as u8);
    if n < 10 {
        return put(out, at, d);
    }
    let p = put_number(out, at, n / 10);
    put(out, p, d)
}

// A field after the first: a tab and a word.
pub fn put_field(out: &mut [u8], at: usize, word: &[u8]) -> usize
    requires { at + 1 + length word.now ≤ far }
    ensures { Puts (9 ∷ word.now) at out.old result out.new }
{
    let p = put(out, at, b'\t');
    put_bytes(out, p, word)
}

// A tab and a number.
pub fn put_number_field(out: &mut [u8], at: usize, n: usize) -> usize
    requires { at + number_max ≤ far }
    ensures puts { Puts (9 ∷ digits n) at out.old result out.new }
    ensures upper_bound { result ≤ at + number_max }
{
    let p = put(out, at, b'\t');
    put_number(out, p, n)
}
