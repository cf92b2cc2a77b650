// Each public call, made in one line with the record of the review for its promise: were the promise of a call any weaker, its
// line here would not be proved.
#![tactic(auto)]

ghost use Rattle.review.specs.Promises.{RulesCall, NetCall, StepCall, RunCall, AnswerCall, EvaluateCall, TableTest, BothTest, EmptyState, EmptyTable};

use answer::{End, read_answer};
use evaluation::evaluate;
use evaluation::sizes::Output;
use lent::both_sound;
use machine::calls::{Ran, run, step};
use nets::read_net;
use parts::Limits;
use parts::faults::{Fault, Refusal};
use rules::read_rules;
use state::empty;
use table::writing::empty_table;
use table_test::whole::table_sound;

pub fn rules_call(text: &[u8], table: &mut [u8; Limits::TABLE]) -> Result<(), Refusal>
    ensures { RulesCall text.now table.old result table.new }
{
    read_rules(text, table)
}

pub fn net_call(
    text: &[u8],
    table: &[u8; Limits::TABLE],
    state: &mut [u16; Limits::STATE],
) -> Result<(), Refusal>
    ensures { NetCall text.now table.now state.old result state.new }
{
    read_net(text, table, state)
}

pub fn step_call(
    table: &[u8; Limits::TABLE],
    state: &mut [u16; Limits::STATE],
    pick: u16,
) -> Result<(), Fault>
    ensures { StepCall table.now state.old pick result state.new }
{
    step(table, state, pick)
}

pub fn run_call(
    table: &[u8; Limits::TABLE],
    state: &mut [u16; Limits::STATE],
    budget: u32,
) -> Result<Ran, Fault>
    ensures { RunCall table.now state.old budget result state.new }
{
    run(table, state, budget)
}

pub fn answer_call(
    table: &[u8; Limits::TABLE],
    state: &[u16; Limits::STATE],
    out: &mut [u8],
) -> Result<End, Fault>
    ensures { AnswerCall table.now state.now out.old result out.new }
{
    read_answer(table, state, out)
}

pub fn evaluate_call(rules: &[u8], net: &[u8], out: &mut [u8; Output::SIZE]) -> usize
    ensures { EvaluateCall rules.now net.now out.old result out.new }
{
    evaluate(rules, net, out)
}

pub fn table_test_call(table: &[u8; Limits::TABLE]) -> bool
    ensures { TableTest table.now result }
{
    table_sound(table)
}

pub fn both_test_call(table: &[u8; Limits::TABLE], state: &[u16; Limits::STATE]) -> bool
    ensures { BothTest table.now state.now result }
{
    both_sound(table, state)
}

pub fn empty_state_call() -> [u16; Limits::STATE]
    ensures { EmptyState result }
{
    empty()
}

pub fn empty_table_call() -> [u8; Limits::TABLE]
    ensures { EmptyTable result }
{
    empty_table()
}
