// A rule that is well formed is refused by number 9 or 10, or it is put into the table.
ghost use Rattle.std.specs.Prelude.{◌≡◌, not, ◌&&◌, List, ◌≤◌, eqb};
ghost use Rattle.parts.specs.Faults.{number_told};
ghost use Rattle.parts.specs.Limits.{rule_equations_max};
ghost use Rattle.texts.specs.Books as Books;
ghost use Rattle.texts.specs.TableTest.{is_two_sided};
ghost use Rattle.table.specs.Rule.{stands};
ghost use Rattle.coding.specs.Settled.{Putable, Ready, Settled};

use parts::Limits;
use parts::faults::Fault;
use putting::{flat, put_rule};
use table::Rule;
use table::reading::has_rule;
use turning::two_sided;

// A symbol's rule with itself is one-sided.
fn one_sided(rule: Rule) -> bool
    requires { rule.equations ≤ rule_equations_max }
    ensures { (ags : List Books.Agent) → result ≡ (eqb rule.left rule.right && not (is_two_sided (stands ags rule))) }
{
    rule.left == rule.right && !two_sided(&flat(rule))
}

// 9 and 10; where neither is given, the table has the rule.
pub fn settle(table: &mut [u8; Limits::TABLE], rule: Rule) -> Result<(), Fault>
    requires { Putable table.old rule }
    ensures { (b : Books.Book) (r : Books.Rule) → Ready b r table.old rule → Settled b r (number_told result) table.old table.new }
{
    if has_rule(table, rule.left, rule.right) {
        return Err(Fault::PairTaken);
    }
    if one_sided(rule) {
        return Err(Fault::OneSided);
    }
    put_rule(table, rule);
    Ok(())
}
