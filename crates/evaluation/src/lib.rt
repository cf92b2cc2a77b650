// The evaluator: a rule text and a net text in, the printed lines out.
#![tactic(auto)]

ghost use Rattle.std.specs.Prelude.{◌≡◌, ◌≤◌, length};
ghost use Rattle.std.proofs.lemmas.List.Edits.{sets};
ghost use Rattle.texts.specs.NetText.{read_net};
ghost use Rattle.table.specs.Layout.{agents_in};
ghost use Rattle.table.specs.Given.{Given};
ghost use Rattle.sound.specs.Lent.{under};
ghost use Rattle.evaluation.specs.Evaluated.{output_size, net_printed, evaluated};
ghost use Rattle.evaluation.specs.Printed.{Printed};

use ending::print_run;
use nets::read_net;
use parts::Limits;
use report::firsts::put_refusal;
use rules::read_rules;
use sizes::Output;
use state::empty;
use table::writing::empty_table;

pub mod sizes; // sizes.rt: the budget and the size of the output
mod ending; // ending.rt: the run of a loaded net, and what is printed of it

// What is printed of a net text, over the table of a rule text that was accepted.
fn print_net(table: &[u8; Limits::TABLE], net: &[u8], out: &mut [u8]) -> usize
    requires { Given table.now }
    ensures { Printed (net_printed (agents_in table.now) (under table.now) (read_net (agents_in table.now) net.now))
        out.old result out.new }
{
    let mut state = empty();
    match read_net(net, table, &mut state) {
        Ok(()) => print_run(table, &mut state, out),
        Err(r) => put_refusal(out, b"net", usize::from(u8::from(r.fault)), r.line),
    }
}

// What is printed of both texts. If the rules are refused, the net text is not looked at.
// Of the form of `print_net`: each goes on where a reader of its own accepts, so they differ in more than a word.
fn print_both(rules: &[u8], net: &[u8], out: &mut [u8]) -> usize
    ensures { Printed (evaluated rules.now net.now) out.old result out.new }
{
    let mut table = empty_table();
    match read_rules(rules, &mut table) {
        Ok(()) => print_net(&table, net, out),
        Err(r) => put_refusal(out, b"rules", usize::from(u8::from(r.fault)), r.line),
    }
}

// The bytes that `netrun` prints stand at the start of the output, its other bytes are as they were, and the answer is how many they are.
pub fn evaluate(rules: &[u8], net: &[u8], out: &mut [u8; Output::SIZE]) -> usize
    ensures out_after { out.new ≡ sets out.old 0 (evaluated rules.now net.now) }
    ensures value { result ≡ length (evaluated rules.now net.now) }
    ensures upper_bound { result ≤ output_size }
{
    print_both(rules, net, out)
}
