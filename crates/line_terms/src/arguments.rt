// Number 7 with no sheet, so with no limit on cells and names: whether every identifier has as many arguments as it takes.
ghost use Rattle.std.specs.Prelude.{◌≡◌, ◌-◌, ◌≤◌, length, take, drop};
ghost use Rattle.texts.specs.Books.{takes};
ghost use Rattle.terms.specs.Agents.{agents_of};
ghost use Rattle.line_terms.specs.Arguments.{args_past, term_past, argued_by, fields_argued};

use super::fields::field_end;
use parts::Limits;
use terms::Source;
use terms::words::{byte_at, find_agent, part};

// How many arguments the word from `at` to `end` takes: an agent its arity, a name none.
#[tactic(auto, using(crate::proofs::Arguing::takes_way))]
fn takes_of(source: Source<'_>, at: usize, end: usize) -> u16
    requires { at ≤ end }
    ensures { result ≡ takes (agents_of source.entry.agents.now) (take (end - at) (drop at source.entry.text.now)) }
{
    let word = part(source.text, at, end - at);
    find_agent(source.agents, word).map_or(0, |agent| agent.arity)
}

// The place after a term of at most `levels` levels; or none, where an identifier has another number of arguments.
// It stands beside `terms::read_term`: it writes no sheet, knows no limit on cells and names, and answers a place alone,
// so a shared pair would take a trait with a sheet behind it, which is longer than these two.
#[tactic(auto, using(crate::proofs::Arguing::term_laws))]
#[cycle(pass_args_pass_term)]
fn pass_term(source: Source<'_>, at: usize, levels: usize) -> Option<usize>
    ensures { result ≡ term_past source.entry.text.now (agents_of source.entry.agents.now) levels at }
{
    if levels == 0 {
        return None;
    }
    let end = scan::words::word_end(source.text, at);
    let n = takes_of(source, at, end);
    let open = byte_at(source.text, end) == b'(';
    if n == 0 {
        return if open { None } else { Some(end) };
    }
    if !open {
        return None;
    }
    pass_args(source, end + 1, levels - 1, n - 1)
}

// An argument and so many more, parted by commas, and the bracket after them.
#[cycle(pass_args_pass_term)]
fn pass_args(source: Source<'_>, at: usize, levels: usize, more: u16) -> Option<usize>
    ensures { result ≡ args_past source.entry.text.now (term_past source.entry.text.now (agents_of source.entry.agents.now) levels) more at }
{
    let next = pass_term(source, at, levels)?;
    match byte_at(source.text, next) {
        b')' if more == 0 => Some(next + 1),
        b',' if more > 0 => pass_args(source, next + 1, levels, more - 1),
        _ => None,
    }
}

// Whether the same holds of the term that the field from `from` to `to` spells.
#[tactic(auto, using(crate::proofs::Arguing::argued_way))]
pub fn argued(source: Source<'_>, from: usize, to: usize) -> bool
    ensures { result ≡ argued_by source.entry.text.now (agents_of source.entry.agents.now) from to }
{
    pass_term(source, from, Limits::LEVEL) == Some(to)
}

// Whether the same holds of n fields that stand from `from` to `to`.
#[tactic(auto, using(crate::proofs::Arguing::passing_laws))]
pub fn fields_argued(source: Source<'_>, from: usize, to: usize, n: usize) -> bool
    requires { to ≤ length source.text.now }
    ensures { result ≡ fields_argued source.entry.text.now (agents_of source.entry.agents.now) to n from }
{
    let mut at = from;
    for _i in 0..n {
        if to < at {
            return false;
        }
        let end = field_end(source.text, at, to);
        if !argued(source, at, end) {
            return false;
        }
        at = end + 1;
    }
    true
}
