// What the fields of a line say: numbers, sides and words of names.
use scan::cutting::field;

// The first letter of a field or a line; 0 where there is none.
pub fn letter(field: &[u8]) -> u8 {
    field.first().copied().unwrap_or(0)
}

fn after_digit(v: u32, b: u8) -> u32 {
    match b {
        b'0'..=b'9' if v < 100000000 => 10 * v + u32::from(b - b'0'),
        _ => v,
    }
}

// The number that the digits of a field make, whatever stands between them.
fn digits(field: &[u8]) -> u32 {
    field.iter().fold(0, |v, b| after_digit(v, *b))
}

// The code of a side; a number that is none as it is.
fn code(kind: u8, n: u32) -> u32 {
    if 1000000000 < n {
        return n;
    }
    match kind {
        b'x' => 2 * n,
        b'c' => 2 * n + 1,
        _ => n,
    }
}

// The second letter of a field; 0 where there is none.
fn second(field: &[u8]) -> u8 {
    field.get(1).copied().unwrap_or(0)
}

// What a field says: `x3` and `c3` are the codes of name 3 and of cell 3, `=x3` and `=c3` the words of names joined and tied
// to them, and anything else is a number. The remainder only keeps the sum within 32 bits.
fn said(field: &[u8]) -> u32 {
    let n = digits(field);
    if letter(field) == b'=' {
        return code(second(field), n) % 4294967294 + 2;
    }
    code(letter(field), n)
}

pub fn number(line: &[u8], k: usize) -> u32 {
    said(field(line, k))
}

// The same where it fits a word, and a byte; 0 where it does not.
pub fn word(line: &[u8], k: usize) -> u16 {
    u16::try_from(number(line, k)).unwrap_or(0)
}

pub fn byte(line: &[u8], k: usize) -> u8 {
    u8::try_from(number(line, k)).unwrap_or(0)
}

pub fn count(line: &[u8], k: usize) -> usize {
    number(line, k) as usize
}
