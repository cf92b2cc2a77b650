// The coded rule of a line, of which the part after its first tab is lent.
ghost use Rattle.std.specs.Prelude.{◌≡◌, ◌+◌, ◌*◌, ◌≤◌, length};
ghost use Rattle.parts.specs.Limits.{arity_max, rule_equations_max, net_names_max};
ghost use Rattle.texts.specs.Books as Books;
ghost use Rattle.texts.specs.Coded.{template};
ghost use Rattle.table.specs.Rule.{stands};
ghost use Rattle.terms.specs.Agents.{agents_of};
ghost use Rattle.terms.specs.Sheet.{view};
ghost use Rattle.rule_sheet.specs.Wellformed.{Wellformed};
ghost use Rattle.rule_sheet.specs.Heads.{Blank, HeadIs, AgentIn, LeftsIn};

use crate::lefts::enter_left;
use coding::making::rule_of;
use line_terms::fields::read_fields;
use parts::{Limits, SymbolNo};
use rule_tests::words::{after_word, word_at};
use scan::cutting::{field_count, field_start};
use table::Rule;
use terms::Source;
use terms::sheet::Sheet;
use terms::words::{Agent, find_agent};

// The symbols of the two left agents.
#[derive(Clone, Copy)]
pub struct Heads {
    pub left: SymbolNo,
    pub right: SymbolNo,
}

// A sheet with nothing on it.
fn blank() -> [u16; Sheet::SIZE]
    ensures { Blank result }
{
    [0u16; Sheet::SIZE]
}

// Room for the codes of the sides.
fn no_codes() -> [u16; 2 * Limits::RULE_EQUATIONS]
    ensures { length result ≡ 2 * rule_equations_max }
{
    [0u16; 2 * Limits::RULE_EQUATIONS]
}

// The agent that a word names; of a name this says nothing.
fn head_of(word: &[u8], agents: &[u8]) -> Agent
    ensures { HeadIs (agents_of agents.now) word.now result }
{
    find_agent(agents, word).unwrap_or(Agent {
        symbol: SymbolNo(0),
        arity: 0,
    })
}

// The left agent that stands from a place on: its arguments are entered, and its symbol is the answer.
fn enter_agent(source: Source<'_>, at: usize, sheet: &mut [u16; Sheet::SIZE]) -> SymbolNo
    requires { (view sheet.old).names + arity_max ≤ net_names_max }
    ensures { AgentIn source.entry.text.now (agents_of source.entry.agents.now) at (view sheet.old) (view sheet.new) result.0 }
{
    let head = head_of(word_at(source.text, at), source.agents);
    enter_left(
        source.text,
        after_word(source.text, at),
        usize::from(head.arity),
        sheet,
    );
    head.symbol
}

// Both left agents.
fn enter_lefts(source: Source<'_>, sheet: &mut [u16; Sheet::SIZE]) -> Heads
    requires { (view sheet.old).names + 2 * arity_max ≤ net_names_max }
    ensures { LeftsIn source.entry.text.now (agents_of source.entry.agents.now) (view sheet.old) (view sheet.new) result }
{
    let left = enter_agent(source, 0, sheet);
    let right = enter_agent(source, field_start(source.text, 1), sheet);
    Heads { left, right }
}

// The rule: its left arguments are numbered first, then its right side is read and the new names get the numbers behind them.
pub fn coded(source: Source<'_>) -> Rule
    requires { (r : Books.Rule) × Wellformed source.text.now (agents_of source.agents.now) r }
    ensures { (r : Books.Rule) → Wellformed source.entry.text.now (agents_of source.entry.agents.now) r
        → stands (agents_of source.entry.agents.now) result ≡ template (agents_of source.entry.agents.now) r }
{
    let mut sheet = blank();
    let heads = enter_lefts(source, &mut sheet);
    let n = field_count(source.text) - 2;
    let from = field_start(source.text, 2);
    let mut codes = no_codes();
    read_fields(source, from, source.text.len(), n, &mut sheet, &mut codes);
    rule_of(heads.left, heads.right, &codes, n, &sheet)
}
