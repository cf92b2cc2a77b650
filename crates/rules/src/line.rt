// A line of a rule text after its header: 2 to 10 rising, each over the whole line before the next.
ghost use Rattle.parts.specs.Faults.{number_told};
ghost use Rattle.texts.specs.Bytes.{fields};
ghost use Rattle.texts.specs.Bytes.{ended_line};
ghost use Rattle.rule_lines.specs.Judged.{ShapeJudged};
ghost use Rattle.rules.specs.Lines.{Stands, rule_of, RuleStands, LineJudged};

use lines::fields::misspelt;
use parts::Limits;
use parts::faults::Fault;
use rule_lines::agent::agent_line;
use rule_lines::kinds::{Kind, kind_of};
use ruling::judge_rule;
use scan::bytes::first_bad;
use table::reading::rule_count;

// Number 4 of a rule, and what follows.
fn rule_line(line: &[u8], table: &mut [u8; Limits::TABLE]) -> Result<(), Fault>
    requires { RuleStands line.now table.old }
    ensures { ShapeJudged table.old table.new (fields line.now) (rule_of (fields line.now)) (number_told result) }
{
    if misspelt(line, 1) {
        return Err(Fault::Misspelt);
    }
    judge_rule(line, table)
}

// A line without its newline, over the book that the table is of.
pub fn judge_line(line: &[u8], table: &mut [u8; Limits::TABLE]) -> Result<(), Fault>
    requires { Stands line.now table.old }
    ensures { LineJudged table.old table.new (ended_line line.now) (number_told result) }
{
    if first_bad(line) < line.len() {
        return Err(Fault::BadByte);
    }
    match kind_of(line, rule_count(table) == 0) {
        None => Err(Fault::BadRecord),
        Some(Kind::Agent(arity)) => agent_line(line, arity, table),
        Some(Kind::Rule) => rule_line(line, table),
    }
}
