// Number 3: the record that a line is by its word, its field count, its number and its place; before its terms are read.
ghost use Rattle.std.specs.Prelude.{◌≡◌, ◌&&◌, [], drop, get_or};
ghost use Rattle.texts.specs.Bytes as Bytes;
ghost use Rattle.texts.specs.Books.{word_agent};
ghost use Rattle.texts.specs.RuleText.{agent_fields, rule_fields};
ghost use Rattle.rule_lines.specs.Kinds.{shape_by, shaped_of};

use scan::cutting::{field, field_count};
use scan::numbers::decimal;
use scan::words::same;

// An agent with its arity, which number 5 judges; or a rule.
#[derive(Clone, Copy)]
pub enum Kind {
    Agent(usize),
    Rule,
}

// Agents stand before all rules.
fn is_agent(line: &[u8], ruleless: bool) -> bool
    ensures { result ≡ (Bytes.same (get_or (Bytes.fields line.now) 0 []) word_agent && ruleless) }
{
    ruleless && same(field(line, 0), b"agent")
}

fn agent_kind(line: &[u8]) -> Option<Kind>
    ensures { shape_by result (Bytes.fields line.now) ≡ agent_fields (drop 1 (Bytes.fields line.now)) }
{
    if field_count(line) != 3 {
        return None;
    }
    Some(Kind::Agent(decimal(field(line, 2))?))
}

// After the word and the two left fields the right-hand fields stand in pairs.
fn rule_kind(line: &[u8]) -> Option<Kind>
    ensures { shape_by result (Bytes.fields line.now) ≡ rule_fields (drop 1 (Bytes.fields line.now)) }
{
    let n = field_count(line);
    if n < 3 || n % 2 == 0 {
        return None;
    }
    Some(Kind::Rule)
}

// The record of a line, where the lines before it have no rule or some. None where no record may stand there that is so
// begun.
pub fn kind_of(line: &[u8], ruleless: bool) -> Option<Kind>
    ensures { shape_by result (Bytes.fields line.now) ≡ shaped_of ruleless (Bytes.fields line.now) }
{
    if is_agent(line, ruleless) {
        return agent_kind(line);
    }
    if !same(field(line, 0), b"rule") {
        return None;
    }
    rule_kind(line)
}
