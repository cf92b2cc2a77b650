// Number 5 on one field, by one flat pass: an identifier that is too long, or inside too many brackets.
ghost use Rattle.std.specs.Prelude.{◌≡◌, ◌<◌};
ghost use Rattle.texts.specs.RuleText.{is_too_long};
ghost use Rattle.texts.specs.Walk as Walk;
ghost use Rattle.field_tests.specs.Sized as Sized;

use parts::Limits;
use scan::bytes::word_byte;

// Whether a word is longer than an identifier may be.
#[tactic(auto, unfolding(texts::specs::RuleText::is_too_long))]
pub fn too_long(w: &[u8]) -> bool
    ensures { result ≡ is_too_long w.now }
{
    Limits::IDENTIFIER < w.len()
}

// The brackets open after a byte.
#[tactic(auto, unfolding(texts::specs::Walk::depth))]
fn depth(deep: usize, b: u8) -> usize
    requires { deep < 18446744073709551615 }
    ensures { result ≡ Walk.depth deep b }
{
    match b {
        b'(' => deep + 1,
        b')' => deep.saturating_sub(1),
        _ => deep,
    }
}

// Where the identifier begins that goes on after the byte b at i, if any does.
#[tactic(auto, unfolding(crate::specs::Sized::begun))]
fn begun(start: usize, i: usize, b: u8) -> usize
    requires { i < 18446744073709551615 }
    ensures { result ≡ Sized.begun start i b }
{
    if word_byte(b) { start } else { i + 1 }
}

// Whether a byte is of an identifier inside too many brackets, or of one that has its full length before it.
#[tactic(auto, unfolding(crate::specs::Sized::passes))]
fn passes(deep: usize, n: usize, b: u8) -> bool
    ensures { result ≡ Sized.passes deep n b }
{
    word_byte(b) && (Limits::LEVEL <= deep || Limits::IDENTIFIER <= n)
}

// Where the first identifier begins that is too long or inside too many brackets, or the field's length.
pub fn first_big(field: &[u8]) -> usize
    ensures { result ≡ Sized.big_at field.now }
{
    let mut deep = 0;
    let mut start = 0;
    for (i, b) in field.iter().enumerate() {
        if passes(deep, i - start, *b) {
            return start;
        }
        start = begun(start, i, *b);
        deep = depth(deep, *b);
    }
    field.len()
}
