// One `rule` line whose bytes, shape and spelling are judged: it is refused by 5, 7, 8, 9 or 10, or its rule is put into the table.
#![tactic(auto)]

ghost use Rattle.parts.specs.Faults.{number_told};
ghost use Rattle.texts.specs.Books.{Book, Rule};
ghost use Rattle.terms.specs.Agents.{agents_of};
ghost use Rattle.ruling.specs.Judged.{Meant, Judged};
ghost use Rattle.ruling.specs.Tested.{Stands, Tested};

use coding::settling::settle;
use line_terms::arguments::fields_argued;
use lines::fields::from_field;
use lines::words::agents_part;
use parts::Limits;
use parts::faults::Fault;
use rule_sheet::whole::coded;
use rule_tests::names::ill_formed;
use rule_tests::sizes::too_big;
use scan::cutting::field_count;
use table::reading::rule_count;
use terms::Source;

// The least of 5, 7 and 8 that is given, if any is. `rules` is how many rules there are before the line.
fn tested(rest: &[u8], agents: &[u8], rules: u16) -> Result<(), Fault>
    ensures { (b : Book) (r : Rule) → Stands b r rest.now (agents_of agents.now) rules → Tested b r (number_told result) }
{
    if too_big(rest, agents, rules) {
        return Err(Fault::TooBig);
    }
    let source = Source { text: rest, agents };
    if !fields_argued(source, 0, rest.len(), field_count(rest)) {
        return Err(Fault::WrongArguments);
    }
    if ill_formed(rest, agents) {
        return Err(Fault::WrongNames);
    }
    Ok(())
}

// The same of the whole line, with 9 and 10. Where nothing is wrong, the table has the rule; else it is as it was.
pub fn judge_rule(line: &[u8], table: &mut [u8; Limits::TABLE]) -> Result<(), Fault>
    requires { (b : Book) × (r : Rule) × Meant b r line.now table.old }
    ensures { (b : Book) (r : Rule) → Meant b r line.now table.old → Judged b r (number_told result) table.old table.new }
{
    let rest = from_field(line, 1);
    tested(rest, agents_part(table), rule_count(table))?;
    let rule = coded(Source {
        text: rest,
        agents: agents_part(table),
    });
    settle(table, rule)
}
