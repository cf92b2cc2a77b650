// The words of a part of a line, in reading order: how many are declared, and how often a word stands there.
ghost use Rattle.std.specs.Prelude.{◌≡◌, length};
ghost use Rattle.texts.specs.Bytes.{keep, times, among};
ghost use Rattle.texts.specs.Bytes as Bytes;
ghost use Rattle.texts.specs.Books as Books;
ghost use Rattle.texts.specs.Coded.{Table};
ghost use Rattle.scan.specs.Words.{words_in};
ghost use Rattle.table.specs.Layout.{bytes_of};
ghost use Rattle.table.specs.Laws.Whole.{FitAgents};
ghost use Rattle.terms.specs.Agents.{agents_of};

use parts::Limits;
use scan::bytes::word_byte;
use scan::words::same;
use table::Layout;
use terms::words::{find_agent, part};

// The agents' rows of a lent table.
pub fn agents_part(table: &[u8; Limits::TABLE]) -> &[u8]
    ensures { (t : Table) → table.now ≡ bytes_of t → FitAgents t.agents → agents_of result.now ≡ t.agents }
{
    part(table, Layout::AGENTS_AT, Limits::SYMBOLS * Limits::AGENT)
}

// Whether a word is an agent's.
pub fn declared(word: &[u8], agents: &[u8]) -> bool
    ensures { result ≡ Books.declared (agents_of agents.now) word.now }
{
    find_agent(agents, word).is_some()
}

// How many words of a part are declared: each is a cell.
pub fn cells_in(text: &[u8], agents: &[u8]) -> usize
    ensures { result ≡ length (keep (Books.declared (agents_of agents.now)) (words_in text.now)) }
{
    text.split(|b| !word_byte(*b))
        .filter(|w| !w.is_empty() && declared(w, agents))
        .count()
}

// How often a word stands in a part.
pub fn times_in(text: &[u8], word: &[u8]) -> usize
    ensures { result ≡ times word.now (words_in text.now) }
{
    text.split(|b| !word_byte(*b))
        .filter(|w| !w.is_empty() && same(word, w))
        .count()
}

// Whether a word stands in a part.
pub fn stands_in(text: &[u8], word: &[u8]) -> bool
    ensures { result ≡ among word.now (words_in text.now) }
{
    text.split(|b| !word_byte(*b))
        .any(|w| !w.is_empty() && same(word, w))
}
