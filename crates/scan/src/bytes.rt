// The classes of bytes.
ghost use Rattle.std.specs.Prelude.{◌≡◌};
ghost use Rattle.texts.specs.Bytes as Bytes;
ghost use Rattle.scan.specs.Places.{bad_at};
ghost use Rattle.scan.specs.Words.{heads};

use crate::places::first_place;

#[tactic(auto, unfolding(texts::specs::Bytes::letter))]
pub fn letter(b: u8) -> bool
    ensures { result ≡ Bytes.letter b }
{
    b.is_ascii_alphabetic()
}

#[tactic(auto, unfolding(texts::specs::Bytes::digit))]
pub fn digit(b: u8) -> bool
    ensures { result ≡ Bytes.digit b }
{
    b.is_ascii_digit()
}

// Letters, digits, underscore: what identifiers are made of.
#[tactic(auto, unfolding(texts::specs::Bytes::word_byte))]
pub fn word_byte(b: u8) -> bool
    ensures { result ≡ Bytes.word_byte b }
{
    letter(b) || digit(b) || b == b'_'
}

// A letter or underscore: what an identifier begins with.
#[tactic(auto, unfolding(crate::specs::Words::heads))]
pub fn head_byte(b: u8) -> bool
    ensures { result ≡ heads b }
{
    letter(b) || b == b'_'
}

// What a line may hold.
#[tactic(auto, unfolding(texts::specs::Bytes::allowed))]
pub fn allowed(b: u8) -> bool
    ensures { result ≡ Bytes.allowed b }
{
    word_byte(b) || matches!(b, b'(' | b')' | b',' | b'\t')
}

// Number 2 on a line: the place of the first byte that is not allowed, or the line's length.
pub fn first_bad(line: &[u8]) -> usize
    ensures { result ≡ bad_at line.now }
{
    first_place(line, |b| !allowed(b))
}
