// Words: compared byte for byte, where they begin and end, identifiers and symbols.
ghost use Rattle.std.specs.Prelude.{◌≡◌, ℕ, ◌<◌, Bool, false, ◌&&◌, length, drop, slice_index};
ghost use Rattle.std.specs.List.{list_all};
ghost use Rattle.texts.specs.Bytes as Bytes;
ghost use Rattle.texts.specs.Terms as Terms;
ghost use Rattle.scan.specs.Words.{word_start, word_end};

use crate::bytes::{head_byte, letter, word_byte};
use crate::places::first_place;

// Whether two parts hold the same bytes.
pub fn same(a: &[u8], b: &[u8]) -> bool
    ensures { result ≡ Bytes.same a.now b.now }
{
    a == b
}

// Where the first word at or after `at` begins, or the field's length. Past the end that is `at` itself, here and below.
pub fn word_start(field: &[u8], at: usize) -> usize
    ensures { result ≡ word_start field.now at }
{
    at + first_place(&field[at.min(field.len())..], word_byte)
}

// Where the word bytes from `at` on end.
pub fn word_end(field: &[u8], at: usize) -> usize
    ensures { result ≡ word_end field.now at }
{
    at + first_place(&field[at.min(field.len())..], |b| !word_byte(b))
}

// Whether each byte is one of a word: a chain of its own, as for digits, since a chain proves where the clause mirrors it.
fn all_word_bytes(a: &[u8]) -> bool
    ensures { result ≡ list_all Bytes.word_byte a.now }
{
    a.iter().all(|b| word_byte(*b))
}

// Whether the first byte passes the test, and each after it is one of a word.
fn word_that<F: Fn(u8) -> bool>(w: &[u8], begins: F) -> bool
    requires { (state : F) (b : ℕ) → F.pre state b }
    ensures empty { length w.now ≡ 0 → result ≡ false }
    ensures first { 0 < length w.now → (t : Bool) × F.post begins (slice_index w.now 0) t × (result ≡ t && list_all Bytes.word_byte (drop 1 w.now)) }
{
    match w.split_first() {
        Some((b, bs)) => begins(*b) && all_word_bytes(bs),
        None => false,
    }
}

pub fn identifier(w: &[u8]) -> bool
    ensures { result ≡ Terms.identifier w.now }
{
    word_that(w, head_byte)
}

pub fn symbol(w: &[u8]) -> bool
    ensures { result ≡ Terms.symbol w.now }
{
    word_that(w, letter)
}
