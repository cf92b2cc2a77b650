// The test of the agents of a table, and the agents written once more.
ghost use Rattle.std.specs.Prelude.{◌≡◌, not, true, [], ◌+◌, ◌*◌, ◌<◌, ◌≤◌, length};
ghost use Rattle.parts.specs.Limits.{symbols_max, table_size};
ghost use Rattle.texts.specs.Books.{declared};
ghost use Rattle.texts.specs.TableTest.{agent_ok, test_agents};
ghost use Rattle.table.specs.Lists.{tab};
ghost use Rattle.table.specs.Layout.{word, agent_at, agents_in, bytes_of};
ghost use Rattle.table.specs.Put.{no_table, only_agents};

use parts::Limits;
use putting::put_agent;
use scan::words::{same, symbol};
use table::Layout;
use table::reading::{agent_byte, symbol_count};

// How many letters stand before the first 0.
fn word_len(row: &[u8]) -> usize
    ensures { result ≡ length (word row.now) }
{
    row.iter().position(|b| *b == 0).unwrap_or(row.len())
}

// The letters of a symbol.
fn letters(table: &[u8], s: usize) -> &[u8]
    requires { (length table.now ≡ table_size) × (s < symbols_max) }
    ensures { result.now ≡ (agent_at table.now s).symbol }
{
    let at = Layout::AGENTS_AT + Limits::AGENT * s;
    let row = &table[at..at + Limits::IDENTIFIER];
    &row[..word_len(row)]
}

// The arity that stands with a symbol.
fn arity_at(table: &[u8; Limits::TABLE], s: usize) -> u8
    requires { s < symbols_max }
    ensures { result ≡ (agent_at table.now s).arity }
{
    agent_byte(table, s, Limits::IDENTIFIER).saturating_sub(1)
}

// "Identifier 1 to 16 bytes", "symbols with a letter", "arity 0 to 4".
fn agent_ok(table: &[u8; Limits::TABLE], s: usize) -> bool
    requires { s < symbols_max }
    ensures { result ≡ agent_ok (agent_at table.now s) }
{
    symbol(letters(table, s)) && usize::from(arity_at(table, s)) <= Limits::ARITY
}

// No symbol before this one is spelt so.
fn agent_new(table: &[u8; Limits::TABLE], s: usize) -> bool
    requires { s < symbols_max }
    ensures { result ≡ not (declared (tab s (agent_at table.now)) (agent_at table.now s).symbol) }
{
    !(0..s).any(|j| same(letters(table, s), letters(table, j)))
}

// Each agent after those before it.
pub fn agents_ok(table: &[u8; Limits::TABLE]) -> bool
    requires { length (agents_in table.now) ≤ symbols_max }
    ensures { result ≡ test_agents [] (agents_in table.now) }
{
    (0..usize::from(symbol_count(table))).all(|s| agent_ok(table, s) && agent_new(table, s))
}

// The agents of a sound table, written into an empty one.
pub fn put_agents(table: &[u8; Limits::TABLE], copy: &mut [u8; Limits::TABLE])
    requires { (length (agents_in table.now) ≤ symbols_max) × (test_agents [] (agents_in table.now) ≡ true) × (copy.old ≡ bytes_of no_table) }
    ensures { copy.new ≡ bytes_of (only_agents (agents_in table.now)) }
{
    for s in 0..usize::from(symbol_count(table)) {
        put_agent(copy, letters(table, s), arity_at(table, s));
    }
}
