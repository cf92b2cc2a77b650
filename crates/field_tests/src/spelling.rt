// Number 4: whether a field spells a term, whatever its depth, by one flat pass with a count of the brackets open.
ghost use Rattle.std.specs.Prelude.{◌≡◌, ◌<◌};
ghost use Rattle.texts.specs.Scan as Flat;
ghost use Rattle.field_tests.specs.Spelled.{plain, open_of, is_lost, misspelt_at, wrong_at};

use scan::bytes::{head_byte, word_byte};

// Where the pass stands, with the brackets open: before a term, in an identifier, after a bracket that closes, or past
// a byte that no term has there.
#[derive(Clone, Copy)]
pub enum Scan {
    Want(usize),
    Word(usize),
    Shut(usize),
    Lost,
}

// After a term, with `deep` brackets open.
#[tactic(auto, unfolding(texts::specs::Scan::after_term))]
fn after_term(deep: usize, b: u8) -> Scan
    ensures { plain result ≡ Flat.after_term deep b }
{
    match b {
        b',' if 0 < deep => Scan::Want(deep),
        b')' if 0 < deep => Scan::Shut(deep - 1),
        _ => Scan::Lost,
    }
}

// In an identifier, with `deep` brackets open, of which there are never more than bytes passed.
#[tactic(auto, unfolding(texts::specs::Scan::next))]
fn in_word(deep: usize, b: u8) -> Scan
    requires { deep < 18446744073709551615 }
    ensures { plain result ≡ Flat.next (Flat.Scan.word deep) b }
{
    if word_byte(b) {
        Scan::Word(deep)
    } else if b == b'(' {
        Scan::Want(deep + 1)
    } else {
        after_term(deep, b)
    }
}

// One byte more.
#[tactic(auto, unfolding(texts::specs::Scan::next, scan::specs::Words::heads))]
fn next(s: Scan, b: u8) -> Scan
    requires { open_of s < 18446744073709551615 }
    ensures { plain result ≡ Flat.next (plain s) b }
{
    match s {
        Scan::Want(deep) if head_byte(b) => Scan::Word(deep),
        Scan::Word(deep) => in_word(deep, b),
        Scan::Shut(deep) => after_term(deep, b),
        Scan::Want(_) | Scan::Lost => Scan::Lost,
    }
}

#[tactic(auto, unfolding(crate::specs::Spelled::is_lost))]
fn lost(s: Scan) -> bool
    ensures { result ≡ is_lost (plain s) }
{
    matches!(s, Scan::Lost)
}

// A whole term, and no bracket open.
#[tactic(auto, unfolding(texts::specs::Scan::done))]
fn done(s: Scan) -> bool
    ensures { result ≡ Flat.done (plain s) }
{
    matches!(s, Scan::Word(0) | Scan::Shut(0))
}

// Whether the field spells a term; else the place of the first byte that no term has there, which is the length where
// the field ends too early.
pub fn spelled(field: &[u8]) -> Result<(), usize>
    ensures { wrong_at result ≡ misspelt_at field.now }
{
    let mut s = Scan::Want(0);
    for (i, b) in field.iter().enumerate() {
        s = next(s, *b);
        if lost(s) {
            return Err(i);
        }
    }
    if done(s) { Ok(()) } else { Err(field.len()) }
}
