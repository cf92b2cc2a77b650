// The word that stands at a place, and the place after it.
ghost use Rattle.std.specs.Prelude.{◌≡◌, List, ◌∷◌, ◌-◌, ◌≤◌, length, drop};
ghost use Rattle.texts.specs.Bytes.{Word};
ghost use Rattle.scan.specs.Words.{words_in};

use scan::words::{word_end, word_start};
use terms::words::part;

// The first word from a place on.
pub fn word_at(text: &[u8], at: usize) -> &[u8]
    ensures { (w : Word) (ws : List Word) → at ≤ length text.now → words_in (drop at text.now) ≡ w ∷ ws → result.now ≡ w }
{
    let from = word_start(text, at);
    let to = word_end(text, from);
    part(text, from, to - from)
}

// The place after it.
pub fn after_word(text: &[u8], at: usize) -> usize
    ensures { (w : Word) (ws : List Word) → at ≤ length text.now → words_in (drop at text.now) ≡ w ∷ ws
        → (result ≤ length text.now) × (words_in (drop result text.now) ≡ ws) }
{
    let from = word_start(text, at);
    word_end(text, from)
}
