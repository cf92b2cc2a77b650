// The test of all rules, and of a whole table.
ghost use Rattle.std.specs.Prelude.{◌≡◌, true, false, [], ◌<◌, ◌≤◌, length, ◌↔◌};
ghost use Rattle.texts.specs.Coded.{Table};
ghost use Rattle.texts.specs.TableTest.{test_templates};
ghost use Rattle.table.specs.Layout.{agents_in, view, bytes_of};
ghost use Rattle.table.specs.Laws.Whole.{FitAgents};
ghost use Rattle.table.specs.Given.{Given};
ghost use Rattle.table_test.specs.Whole.{rule_new, RulesWait};

use crate::agents::{agents_ok, put_agents};
use parts::Limits;
use putting::put_numbers;
use row_test::rule::template_ok;
use table::reading::{has_rule, rule_count, rule_part, symbol_count};
use table::writing::empty_table;

// A rule after those that are written into the copy: its own test, and "one rule for each pair of symbols, whichever is written first".
fn rule_ok(
    table: &[u8; Limits::TABLE],
    copy: &[u8; Limits::TABLE],
    row: &[u8; Limits::RULE],
) -> bool
    requires { FitAgents (agents_in table.now) }
    ensures { (t : Table) → copy.now ≡ bytes_of t → result ≡ rule_new table.now row.now t.rules }
{
    template_ok(table, row) && !has_rule(copy, row[0], row[1])
}

// Each rule after those before it, written into the copy once it has passed.
fn rules_ok(table: &[u8; Limits::TABLE], copy: &mut [u8; Limits::TABLE]) -> bool
    requires { RulesWait table.now copy.old }
    ensures { (result ≡ test_templates (agents_in table.now) [] (view table.now).rules)
        × (result ≡ true → copy.new ≡ bytes_of (view table.now)) }
{
    for k in 0..rule_count(table) {
        let row = rule_part(table, k);
        if !rule_ok(table, copy, row) {
            return false;
        }
        put_numbers(copy, row);
    }
    true
}

// "A sound table is one that some rule text would give if its length had no limit."
pub fn table_sound(table: &[u8; Limits::TABLE]) -> bool
    ensures { (result ≡ true) ↔ Given table.now }
{
    if Limits::SYMBOLS < usize::from(symbol_count(table)) {
        return false;
    }
    if Limits::RULES < usize::from(rule_count(table)) {
        return false;
    }
    if !agents_ok(table) {
        return false;
    }
    let mut copy = empty_table();
    put_agents(table, &mut copy);
    rules_ok(table, &mut copy) && *table == copy
}
