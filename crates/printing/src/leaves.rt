// What the printer stores at a place of the output: a byte, a word, the letters of a symbol, and the number of a name.
ghost use Rattle.std.specs.Prelude.{[], ◌∷◌, ◌+◌, ◌<◌, ◌≤◌, length};
ghost use Rattle.parts.specs.Limits.{identifier_max, symbols_max};
ghost use Rattle.answers.specs.Text.{numeral};
ghost use Rattle.printing.specs.Puts.{Puts, far, name_long, letters};

use parts::Limits;
use table::reading::agent_byte;

// One byte, where the output has that place. The next place is handed back.
pub fn put(out: &mut [u8], at: usize, b: u8) -> usize
    requires { at + 1 ≤ far }
    ensures { Puts (b ∷ []) at out.old result out.new }
{
    if at < out.len() {
        out[at] = b;
    }
    at + 1
}

// The bytes of a word, or of any other text.
pub fn put_bytes(out: &mut [u8], at: usize, word: &[u8]) -> usize
    requires { at + length word.now ≤ far }
    ensures { Puts word.now at out.old result out.new }
{
    let mut p = at;
    for b in word {
        p = put(out, p, *b);
    }
    p
}

// The letters of a symbol, which end at the first 0 of its row.
pub fn put_letters(table: &[u8; Limits::TABLE], s: usize, out: &mut [u8], at: usize) -> usize
    requires { (s < symbols_max) × (at + identifier_max ≤ far) }
    ensures { Puts (letters table.now s) at out.old result out.new }
{
    let mut p = at;
    for j in 0..Limits::IDENTIFIER {
        let b = agent_byte(table, s, j);
        if b == 0 {
            return p;
        }
        p = put(out, p, b);
    }
    p
}

// Two digits.
fn put_two(out: &mut [u8], at: usize, x: u16, y: u16) -> usize
    requires { (at + 2 ≤ far) × (x < 100) × (y < 10) }
    ensures { Puts ((48 + x) ∷ (48 + y) ∷ []) at out.old result out.new }
{
    let a = put(out, at, 48 + (x as u8));
    put(out, a, 48 + (y as u8))
}

// By hand and not by `Display`, as the numbers of the first line: a place without room is counted and not stored.
// "Names left are printed `_0`, `_1`".
pub fn put_numeral(out: &mut [u8], at: usize, k: u16) -> usize
    requires { at + name_long ≤ far }
    ensures { Puts (numeral k) at out.old result out.new }
{
    let a = put(out, at, b'_');
    if k < 10 {
        return put(out, a, 48 + (k as u8));
    }
    if k < 100 {
        return put_two(out, a, k / 10, k % 10);
    }
    if k < 1000 {
        let b = put(out, a, 48 + ((k / 10 / 10) as u8));
        return put_two(out, b, k / 10 % 10, k % 10);
    }
    let b = put_two(out, a, k / 10 / 10 / 10, k / 10 / 10 % 10);
    put_two(out, b, k / 10 % 10, k % 10)
}
