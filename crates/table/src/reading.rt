// What stands in a lent table: its counts, its agents, its rules by value and number by number, and the rule of a pair.
ghost use Rattle.std.specs.Prelude.{◌≡◌, ◌+◌, ◌*◌, ◌-◌, ◌<◌, ◌≤◌, pred, length, get_or};
ghost use Rattle.parts.specs.Limits.{symbols_max, arity_max, rules_max, rule_equations_max, rule_cells_max, agent_size, node_size, rule_size};
ghost use Rattle.model.specs.Table.{find};
ghost use Rattle.texts.specs.Coded.{Table, arity_at};
ghost use Rattle.texts.specs.Bytes.{any};
ghost use Rattle.texts.specs.TableTest.{pair_test};
ghost use Rattle.table.specs.Layout.{sides_in, nodes_in, agent_row, rule_row, symbol_of, rules_in, agents_in, bytes_of};
ghost use Rattle.table.specs.Rule.{matched};

use crate::{Layout, Match};
use parts::{Limits, SymbolNo};

// How many symbols are declared, and how many rules there are.
pub fn symbol_count(table: &[u8; Limits::TABLE]) -> u8
    ensures { result ≡ length (agents_in table.now) }
{
    table[Layout::SYMBOLS_AT]
}

pub fn rule_count(table: &[u8; Limits::TABLE]) -> u16
    ensures { result ≡ rules_in table.now }
{
    u16::from_le_bytes([table[Layout::COUNT_AT], table[Layout::COUNT_AT + 1]])
}

// Byte j of the row of a symbol.
pub fn agent_byte(table: &[u8; Limits::TABLE], s: usize, j: usize) -> u8
    requires { (s < symbols_max) × (j < agent_size) }
    ensures { result ≡ get_or (agent_row table.now s) j 0 }
{
    table[Layout::AGENTS_AT + Limits::AGENT * s + j]
}

// The arity of a symbol; 0 of one that is not declared.
pub fn arity_of(table: &[u8; Limits::TABLE], s: SymbolNo) -> u8
    requires { length (agents_in table.now) ≤ symbols_max }
    ensures { result ≡ arity_at (agents_in table.now) s.0 }
{
    if u16::from(symbol_count(table)) <= s.0 {
        return 0;
    }
    agent_byte(table, usize::from(s.0), Limits::IDENTIFIER).saturating_sub(1)
}

// A bound on the number of a rule, a symbol or a byte stands in the clauses: each is one inequality on one argument, and a type for each would be
// built and taken apart at every call.
// The row of a rule.
pub fn rule_part(table: &[u8; Limits::TABLE], k: u16) -> &[u8; Limits::RULE]
    requires { k < rules_max }
    ensures { result.now ≡ rule_row table.now k }
{
    let at = Layout::RULES_AT + Limits::RULE * usize::from(k);
    // The part is as long as a row, so the refusal cannot come.
    let Ok(row) = <&[u8; Limits::RULE]>::try_from(&table[at..at + Limits::RULE]) else {
        unreachable!()
    };
    row
}

// Byte j of the row of a rule.
fn rule_byte(table: &[u8; Limits::TABLE], k: u16, j: usize) -> u8
    requires { (k < rules_max) × (j < rule_size) }
    ensures { result ≡ get_or (rule_row table.now k) j 0 }
{
    table[Layout::RULES_AT + Limits::RULE * usize::from(k) + j]
}

// How many equations, cells and new names a rule has. Three functions of one form: each has a name and a clause for the byte that
// it reads, so that no caller has to know the byte's place.
pub fn equation_count(table: &[u8; Limits::TABLE], k: u16) -> u8
    requires { k < rules_max }
    ensures { result ≡ get_or (rule_row table.now k) 2 0 }
{
    rule_byte(table, k, 2)
}

pub fn cell_count(table: &[u8; Limits::TABLE], k: u16) -> u8
    requires { k < rules_max }
    ensures { result ≡ get_or (rule_row table.now k) 3 0 }
{
    rule_byte(table, k, 3)
}

pub fn name_count(table: &[u8; Limits::TABLE], k: u16) -> u8
    requires { k < rules_max }
    ensures { result ≡ get_or (rule_row table.now k) 4 0 }
{
    rule_byte(table, k, 4)
}

// The code of side i of the equations of a rule: 2 e and 1 + 2 e are those of equation e.
pub fn side_code(table: &[u8; Limits::TABLE], k: u16, i: usize) -> u8
    requires { (k < rules_max) × (i < 2 * rule_equations_max) }
    ensures { result ≡ get_or (rule_row table.now k) (sides_in + i) 0 }
{
    rule_byte(table, k, Layout::SIDES_IN + i)
}

// The symbol of cell c of a rule.
pub fn node_symbol(table: &[u8; Limits::TABLE], k: u16, c: usize) -> SymbolNo
    requires { (k < rules_max) × (c < rule_cells_max) }
    ensures { result.0 ≡ symbol_of (rule_row table.now k) c }
{
    let head = rule_byte(table, k, Layout::NODES_IN + Limits::NODE * c);
    SymbolNo(u16::from(head.saturating_sub(1)))
}

// The code of argument j of cell c of a rule.
pub fn node_argument(table: &[u8; Limits::TABLE], k: u16, c: usize, j: usize) -> u8
    requires { (k < rules_max) × (c < rule_cells_max) × (j < arity_max) }
    ensures { result ≡ get_or (rule_row table.now k) (nodes_in + (node_size * c + (1 + j))) 0 }
{
    rule_byte(table, k, Layout::NODES_IN + (Limits::NODE * c + (1 + j)))
}

// The rule of a pair of symbols.
pub fn look_up(table: &[u8; Limits::TABLE], a: SymbolNo, b: SymbolNo) -> Option<Match>
    requires { (a.0 < symbols_max) × (b.0 < symbols_max) }
    ensures { (t : Table) → table.now ≡ bytes_of t → result ≡ matched (find t.rules 0 a.0 b.0) }
{
    let i = 2 * (Limits::SYMBOLS * usize::from(a.0) + usize::from(b.0));
    let number = u16::from(table[Layout::PAIRS_AT + (i + 0)]);
    match table[Layout::PAIRS_AT + (i + 1)] {
        0 => None,
        1 => Some(Match::Straight(number)),
        _ => Some(Match::Turned(number)),
    }
}

// Whether a pair of symbols has a rule, whichever is written first.
pub fn has_rule(table: &[u8; Limits::TABLE], a: u8, b: u8) -> bool
    requires { (a < symbols_max) × (b < symbols_max) }
    ensures { (t : Table) → table.now ≡ bytes_of t → result ≡ any (pair_test a b) t.rules }
{
    look_up(table, SymbolNo(u16::from(a)), SymbolNo(u16::from(b))).is_some()
}
