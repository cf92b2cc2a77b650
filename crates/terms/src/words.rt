// Words of a text, and the two dictionaries that they are looked up in: the agents lent, and the names of a sheet.
ghost use Rattle.std.specs.Prelude.{◌≡◌, ◌<◌, ◌≤◌, take, drop};
ghost use Rattle.parts.specs.Limits.{net_names_max};
ghost use Rattle.texts.specs.Bytes as Bytes;
ghost use Rattle.terms.specs.Sheet.{view};
ghost use Rattle.terms.specs.Agents.{spelling_at, agents_of};
ghost use Rattle.terms.specs.Words.{ByteAt, found, entry, entries};

use super::sheet;
use super::sheet::Sheet;
use parts::{Limits, NameNo, SymbolNo};
use scan::cutting::find;

// A declared agent: its number and its arity.
#[derive(Clone, Copy)]
pub struct Agent {
    pub symbol: SymbolNo,
    pub arity: u16,
}

// The byte at a place, or 0 past the end.
pub fn byte_at(text: &[u8], i: usize) -> u8
    ensures { ByteAt text.now i result }
{
    text.get(i).copied().unwrap_or(0)
}

// The part of n bytes from a place on, or as many as there are.
pub fn part(text: &[u8], at: usize, n: usize) -> &[u8]
    ensures { result.now ≡ take n (drop at text.now) }
{
    let rest = &text[at.min(text.len())..];
    &rest[..n.min(rest.len())]
}

// Whether the agent whose row begins at a place is spelled so.
fn agent_is(agents: &[u8], at: usize, word: &[u8]) -> bool
    ensures { result ≡ Bytes.same word.now (spelling_at at agents.now) }
{
    let row = part(agents, at, Limits::IDENTIFIER);
    word == &row[..find(row, 0)]
}

// The agent that a word names: symbols stand from the start, each row's last byte being its arity + 1.
#[tactic(auto, using(crate::proofs::Look::agent_laws))]
pub fn find_agent(agents: &[u8], word: &[u8]) -> Option<Agent>
    ensures { result ≡ found 0 (agents_of agents.now) word.now }
{
    for k in 0..Limits::SYMBOLS {
        let at = Limits::AGENT * k;
        let last = byte_at(agents, at + Limits::IDENTIFIER);
        if last == 0 {
            return None;
        }
        if agent_is(agents, at, word) {
            return Some(Agent {
                symbol: SymbolNo(k as u16),
                arity: u16::from(last) - 1,
            });
        }
    }
    None
}

// Whether name k of the sheet is spelled so.
#[tactic(auto, using(crate::proofs::Look::name_way))]
fn name_is(text: &[u8], sheet: &[u16; Sheet::SIZE], k: u16, word: &[u8]) -> bool
    requires { k < net_names_max }
    ensures { result ≡ Bytes.same word.now (entry text.now (view sheet.now).places k) }
{
    let p = usize::from(sheet::place(sheet, NameNo(k)));
    let n = usize::from(sheet::long(sheet, NameNo(k)));
    word == part(text, p, n)
}

// The number of a word among the first n names of the sheet, or n.
#[tactic(auto, using(crate::proofs::Look::name_laws))]
pub fn find_name(text: &[u8], sheet: &[u16; Sheet::SIZE], n: u16, word: &[u8]) -> u16
    requires { n ≤ net_names_max }
    ensures { result ≡ Bytes.index_of word.now (entries text.now (view sheet.now).places n) }
{
    for k in 0..n {
        if name_is(text, sheet, k, word) {
            return k;
        }
    }
    n
}
