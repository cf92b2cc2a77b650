// Number 5: an identifier, a level, the equations, cells and new names of the right side, or the rules so far pass their size.
ghost use Rattle.std.specs.Prelude.{◌≡◌, not, ◌&&◌, ◌-◌, ◌≤◌, length, take};
ghost use Rattle.parts.specs.Limits.{symbols_max};
ghost use Rattle.texts.specs.Bytes.{keep, among, different};
ghost use Rattle.texts.specs.Books as Books;
ghost use Rattle.texts.specs.RuleText.{fault5};
ghost use Rattle.scan.specs.Cutting.{field_start};
ghost use Rattle.scan.specs.Words.{words_in};
ghost use Rattle.terms.specs.Agents.{agents_of};
ghost use Rattle.rule_tests.specs.Fields.{Fields};
ghost use Rattle.rule_tests.specs.Words.{new_word, right_big};

use lines::fields::{from_field, oversized};
use lines::words::{cells_in, declared, stands_in};
use parts::Limits;
use scan::cutting::{field_count, field_start};
use scan::words::{word_end, word_start};
use terms::words::part;

// The two left fields, of a part that begins with them.
pub fn left_part(rest: &[u8]) -> &[u8]
    ensures { result.now ≡ take (field_start rest.now 2) rest.now }
{
    part(rest, 0, field_start(rest, 2))
}

// Whether a word is a new name that stands no more in what comes later.
#[tactic(auto, unfolding(crate::specs::Words::new_word))]
fn last_new(word: &[u8], left: &[u8], later: &[u8], agents: &[u8]) -> bool
    ensures { result ≡ (new_word (agents_of agents.now) (words_in left.now) word.now && not (among word.now (words_in later.now))) }
{
    !declared(word, agents) && !stands_in(left, word) && !stands_in(later, word)
}

// How many different names stand on the right and nowhere on the left: each is counted where it stands last.
fn new_names(left: &[u8], right: &[u8], agents: &[u8]) -> usize
    ensures { result ≡ length (different (keep (new_word (agents_of agents.now) (words_in left.now)) (words_in right.now))) }
{
    let mut n: usize = 0;
    let mut at: usize = 0;
    // A step is a whole word, which is held against the part after it: pieces of a split do not give that part.
    while at < right.len() {
        let from = word_start(right, at);
        if right.len() <= from {
            return n;
        }
        let to = word_end(right, from);
        let later = part(right, to, right.len());
        n += usize::from(last_new(part(right, from, to - from), left, later, agents));
        at = to;
    }
    n
}

// The sizes of the right side, which is the part from field 2 on.
fn right_big(rest: &[u8], agents: &[u8]) -> bool
    ensures { (b : Books.Book) (r : Books.Rule) → agents_of agents.now ≡ b.agents → Fields rest.now r → result ≡ right_big b.agents r }
{
    if 2 + 2 * Limits::RULE_EQUATIONS < field_count(rest) {
        return true;
    }
    let right = from_field(rest, 2);
    Limits::RULE_CELLS < cells_in(right, agents)
        || Limits::RULE_NAMES < new_names(left_part(rest), right, agents)
}

// Number 5, `rules` being how many rules there are before the line.
pub fn too_big(rest: &[u8], agents: &[u8], rules: u16) -> bool
    ensures { (b : Books.Book) (r : Books.Rule) → agents_of agents.now ≡ b.agents → length b.agents ≤ symbols_max → rules ≡ length b.rules
        → Fields rest.now r → result ≡ fault5 b (Books.is_rule r) }
{
    if oversized(rest, 0) {
        return true;
    }
    right_big(rest, agents) || Limits::RULES <= usize::from(rules)
}
