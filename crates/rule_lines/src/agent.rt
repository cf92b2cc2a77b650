// An agent line: numbers 4 to 6, and the table with one agent more.
ghost use Rattle.std.specs.Prelude.{◌≡◌, [], length, get_or};
ghost use Rattle.texts.specs.Bytes.{fields};
ghost use Rattle.texts.specs.RuleText.{agent_shape};
ghost use Rattle.table.specs.Layout.{agents_in};
ghost use Rattle.parts.specs.Faults.{number_told};
ghost use Rattle.rule_lines.specs.Agents.{big_agent};
ghost use Rattle.rule_lines.specs.Judged.{AgentJudged, ShapeJudged};

use field_tests::sizes::too_long;
use lines::words::{agents_part, declared};
use parts::Limits;
use parts::faults::Fault;
use putting::put_agent;
use scan::cutting::field;
use scan::words::symbol;
use table::reading::symbol_count;

// A header's count never gives number 5: what is counted are the agents in the table.
#[tactic(auto, unfolding(crate::specs::Agents::big_agent))]
fn too_big(table: &[u8; Limits::TABLE], word: &[u8], arity: usize) -> bool
    ensures { result ≡ big_agent word.now arity (length (agents_in table.now)) }
{
    too_long(word) || Limits::ARITY < arity || Limits::SYMBOLS <= usize::from(symbol_count(table))
}

// An agent whose spelling is judged.
fn judge_agent(table: &mut [u8; Limits::TABLE], word: &[u8], arity: usize) -> Result<(), Fault>
    ensures { AgentJudged table.old table.new word.now arity (number_told result) }
{
    if too_big(table, word, arity) {
        return Err(Fault::TooBig);
    }
    if declared(word, agents_part(table)) {
        return Err(Fault::DeclaredTwice);
    }
    put_agent(table, word, arity as u8);
    Ok(())
}

// Number 4 of an agent, and what follows.
pub fn agent_line(line: &[u8], arity: usize, table: &mut [u8; Limits::TABLE]) -> Result<(), Fault>
    ensures { ShapeJudged table.old table.new (fields line.now) (agent_shape (get_or (fields line.now) 1 []) arity) (number_told result) }
{
    let word = field(line, 1);
    if !symbol(word) {
        return Err(Fault::Misspelt);
    }
    judge_agent(table, word, arity)
}
