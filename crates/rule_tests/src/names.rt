// Number 8: a left field is not an agent over different names, or a name occurs the wrong number of times.
ghost use Rattle.std.specs.Prelude.{◌≡◌, false, [], ◌∷◌};
ghost use Rattle.std.proofs.Math.Option.{some};
ghost use Rattle.texts.specs.Bytes.{any};
ghost use Rattle.texts.specs.Terms.{Term, nodes};
ghost use Rattle.texts.specs.Books as Books;
ghost use Rattle.texts.specs.RuleText.{wrong_args, over_names, fault7, fault8};
ghost use Rattle.texts.specs.Reader.{term_of};
ghost use Rattle.scan.specs.Words.{words_in};
ghost use Rattle.terms.specs.Agents.{agents_of};
ghost use Rattle.rule_tests.specs.Fields.{Fields};
ghost use Rattle.rule_tests.specs.Words.{wrong_word};

use crate::sizes::left_part;
use crate::words::word_at;
use lines::fields::from_field;
use lines::words::{cells_in, declared, times_in};
use scan::bytes::word_byte;
use scan::cutting::field;

// Whether a field is an agent over names, where every identifier has as many arguments as it takes: its head is declared, and no other word is.
fn agent_over_names(field: &[u8], agents: &[u8]) -> bool
    ensures { (t : Term) → term_of field.now ≡ some t → any (wrong_args (agents_of agents.now)) (nodes (t ∷ [])) ≡ false
        → result ≡ over_names (agents_of agents.now) t }
{
    declared(word_at(field, 0), agents) && cells_in(field, agents) == 1
}

// Whether a name stands another number of times than it may: once on either side, or twice on the right alone.
#[tactic(auto, unfolding(crate::specs::Words::wrong_word))]
fn wrong_word(word: &[u8], left: &[u8], right: &[u8], agents: &[u8]) -> bool
    ensures { result ≡ wrong_word (agents_of agents.now) (words_in left.now) (words_in right.now) word.now }
{
    if declared(word, agents) {
        return false;
    }
    let on_right = times_in(right, word);
    match times_in(left, word) {
        0 => on_right != 2,
        1 => on_right != 1,
        _ => true,
    }
}

// Whether some name of a part does.
fn wrong_words(rest: &[u8], left: &[u8], right: &[u8], agents: &[u8]) -> bool
    ensures { result ≡ any (wrong_word (agents_of agents.now) (words_in left.now) (words_in right.now)) (words_in rest.now) }
{
    rest.split(|b| !word_byte(*b))
        .any(|w| !w.is_empty() && wrong_word(w, left, right, agents))
}

// Number 8, where number 7 is not given.
pub fn ill_formed(rest: &[u8], agents: &[u8]) -> bool
    ensures { (b : Books.Book) (r : Books.Rule) → agents_of agents.now ≡ b.agents → Fields rest.now r → fault7 b (Books.is_rule r) ≡ false
        → result ≡ fault8 b (Books.is_rule r) }
{
    if !agent_over_names(field(rest, 0), agents) {
        return true;
    }
    !agent_over_names(field(rest, 1), agents)
        || wrong_words(rest, left_part(rest), from_field(rest, 2), agents)
}
