// One agent more in a table, or one rule more: its row, its places in the index of pairs, and the count.
#![tactic(auto)]

ghost use Rattle.std.specs.Prelude.{◌≡◌, [], ◌∷◌, suc, ◌+◌, ◌*◌, ◌-◌, ◌/◌, ◌%◌, ◌<◌, ◌≤◌, pred, length, get_or, set};
ghost use Rattle.std.proofs.lemmas.List.Edits.{sets};
ghost use Rattle.parts.specs.Limits.{identifier_max, symbols_max, rules_max, rule_size, table_size};
ghost use Rattle.model.specs.Table.{find, none};
ghost use Rattle.texts.specs.Coded.{Table};
ghost use Rattle.table.specs.Layout.{count_at, pairs_at, nodes_in, rules_in, agents_in, entry_of, agent_bytes, rule_bytes, bytes_of};
ghost use Rattle.table.specs.Rule.{row, stands};
ghost use Rattle.table.specs.Put.{agent, with_agent, with_rule, ruled};
ghost use Rattle.table.specs.Laws.Whole.{FitAgents};

use parts::{Limits, SymbolNo};
use table::reading::{arity_of, rule_count, symbol_count};
use table::{Layout, Rule};

// The row of an agent: its letters, zeros, and its arity + 1.
fn agent_row(letters: &[u8], arity: u8) -> [u8; Limits::AGENT]
    requires { (length letters.now ≤ identifier_max) × (arity < 255) }
    ensures { result ≡ agent_bytes (agent letters.now arity) }
{
    let mut row = [0u8; Limits::AGENT];
    row[..letters.len()].copy_from_slice(letters);
    row[Limits::IDENTIFIER] = arity + 1;
    row
}

// One agent more.
pub fn put_agent(table: &mut [u8; Limits::TABLE], letters: &[u8], arity: u8)
    requires { (length (agents_in table.old) < symbols_max) × (length letters.now ≤ identifier_max) × (arity < 255) }
    ensures { (t : Table) → table.old ≡ bytes_of t → table.new ≡ bytes_of (with_agent (agent letters.now arity) t) }
{
    let n = symbol_count(table);
    let row = agent_row(letters, arity);
    put_row(
        table,
        Layout::AGENTS_AT + Limits::AGENT * usize::from(n),
        &row,
    );
    table[Layout::SYMBOLS_AT] = n + 1;
}

// A row stored in a table: of an agent or of a rule, so a slice.
fn put_row(table: &mut [u8], at: usize, row: &[u8])
    requires { at + length row.now ≤ length table.old }
    ensures { table.new ≡ sets table.old at row.now }
{
    table[at..at + row.len()].copy_from_slice(row);
}

// The numbers of a rule, end to end.
pub fn flat(rule: Rule) -> [u8; Limits::RULE]
    ensures { result ≡ row rule }
{
    let mut out = [0u8; Limits::RULE];
    out[Layout::NODES_IN..].copy_from_slice(&rule.nodes);
    out[Layout::SIDES_IN..Layout::NODES_IN].copy_from_slice(&rule.sides);
    out[0] = rule.left;
    out[1] = rule.right;
    out[2] = rule.equations;
    out[3] = rule.cells;
    out[4] = rule.names;
    out
}

// Byte p of a rule's row where the row ends with its equations, and 0 past the last of them.
fn kept_side(table: &[u8; Limits::TABLE], row: &[u8; Limits::RULE], p: usize) -> u8
    requires { p < nodes_in }
    ensures { result ≡ get_or (rule_bytes (entry_of (agents_in table.now) row.now)) p 0 }
{
    let n = usize::from(row[2]);
    if Layout::SIDES_IN + 2 * n <= p {
        return 0;
    }
    row[p]
}

// The same among the cells: 0 past the last of them, and past the arguments of each.
// That the agents are few enough stays a clause, here and in crates/row_test: the table is one that is being tested or built.
fn kept_node(table: &[u8; Limits::TABLE], row: &[u8; Limits::RULE], p: usize) -> u8
    requires { (length (agents_in table.now) ≤ symbols_max) × (nodes_in ≤ p) × (p < rule_size) }
    ensures { result ≡ get_or (rule_bytes (entry_of (agents_in table.now) row.now)) p 0 }
{
    let c = (p - Layout::NODES_IN) / Limits::NODE;
    let j = (p - Layout::NODES_IN) % Limits::NODE;
    let n = usize::from(row[3]);
    if n <= c {
        return 0;
    }
    let head = row[Layout::NODES_IN + Limits::NODE * c];
    if j == 0 {
        return head.max(1);
    }
    let symbol = SymbolNo(u16::from(head.saturating_sub(1)));
    let arity = usize::from(arity_of(table, symbol));
    if arity < j {
        return 0;
    }
    row[p]
}

fn kept(table: &[u8; Limits::TABLE], row: &[u8; Limits::RULE], p: usize) -> u8
    requires { (length (agents_in table.now) ≤ symbols_max) × (p < rule_size) }
    ensures { result ≡ get_or (rule_bytes (entry_of (agents_in table.now) row.now)) p 0 }
{
    if p < Layout::NODES_IN {
        return kept_side(table, row, p);
    }
    kept_node(table, row, p)
}

// A row with zeros where the rule that it stands for has nothing: the rule's row in a table with these agents.
fn rule_row(table: &[u8; Limits::TABLE], row: &[u8; Limits::RULE]) -> [u8; Limits::RULE]
    requires { length (agents_in table.now) ≤ symbols_max }
    ensures { result ≡ rule_bytes (entry_of (agents_in table.now) row.now) }
{
    let mut out = [0u8; Limits::RULE];
    for (p, b) in out.iter_mut().enumerate() {
        *b = kept(table, row, p);
    }
    out
}

// The index of pairs says which rule, and 1 for the order in which it is written or 2 for the other.
// The way is the byte that is stored, and no enum: the promises speak of the bytes of the lent table.
fn put_pair(table: &mut [u8], a: u8, b: u8, number: u8, way: u8)
    requires { (length table.old ≡ table_size) × (a < symbols_max) × (b < symbols_max) }
    ensures { table.new ≡ sets table.old (pairs_at + 2 * (symbols_max * a + b)) (number ∷ way ∷ []) }
{
    let i = Layout::PAIRS_AT + 2 * (Limits::SYMBOLS * usize::from(a) + usize::from(b));
    table[i] = number;
    table[i + 1] = way;
}

// How many rules a table has.
fn put_count(table: &mut [u8], n: u16)
    requires { length table.old ≡ table_size }
    ensures { table.new ≡ set (set table.old count_at (n % 256)) (1 + count_at) (n / 256) }
{
    let [low, high] = n.to_le_bytes();
    table[Layout::COUNT_AT] = low;
    table[1 + Layout::COUNT_AT] = high;
}

// One rule more, the row of which is written out: the row, the pair, first as it is not written, and the count.
fn put_rule_row(
    table: &mut [u8; Limits::TABLE],
    row: [u8; Limits::RULE],
    n: u16,
    left: u8,
    right: u8,
)
    requires { (n < rules_max) × (left < symbols_max) × (right < symbols_max) }
    ensures { table.new ≡ ruled table.old row n left right }
{
    put_row(
        table,
        Layout::RULES_AT + Limits::RULE * usize::from(n),
        &row,
    );
    // A table has at most 256 rules, so a number fits a byte; `u8::try_from` would bring a refusal that cannot come.
    let number = n as u8;
    put_pair(table, right, left, number, 2);
    put_pair(table, left, right, number, 1);
    put_count(table, n + 1);
}

// One rule more, by its numbers end to end. Its pair must have none.
pub fn put_numbers(table: &mut [u8; Limits::TABLE], row: &[u8; Limits::RULE])
    requires { (length (agents_in table.old) ≤ symbols_max) × (rules_in table.old < rules_max)
        × (get_or row.now 0 0 < symbols_max) × (get_or row.now 1 0 < symbols_max) }
    ensures { (t : Table) → table.old ≡ bytes_of t → FitAgents t.agents
        → find t.rules 0 (get_or row.now 0 0) (get_or row.now 1 0) ≡ none
        → table.new ≡ bytes_of (with_rule (entry_of t.agents row.now) t) }
{
    let n = rule_count(table);
    let out = rule_row(table, row);
    put_rule_row(table, out, n, row[0], row[1]);
}

// One rule more. Its pair must have none.
pub fn put_rule(table: &mut [u8; Limits::TABLE], rule: Rule)
    requires { (length (agents_in table.old) ≤ symbols_max) × (rules_in table.old < rules_max) × (rule.left < symbols_max) × (rule.right < symbols_max) }
    ensures { (t : Table) → table.old ≡ bytes_of t → FitAgents t.agents → find t.rules 0 rule.left rule.right ≡ none
        → table.new ≡ bytes_of (with_rule (stands t.agents rule) t) }
{
    let row = flat(rule);
    put_numbers(table, &row);
}
