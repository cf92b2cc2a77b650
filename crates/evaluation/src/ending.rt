// The run of a loaded net, and what is printed of it.
ghost use Rattle.std.specs.Prelude.{◌≡◌, ◌++◌, ◌≤◌, length, take};
ghost use Rattle.model.specs.Run.{ran};
ghost use Rattle.answers.specs.Printer.{state_answer};
ghost use Rattle.table.specs.Layout.{agents_in};
ghost use Rattle.state.specs.Layout.{view};
ghost use Rattle.sound.specs.Lent.{under};
ghost use Rattle.lent.specs.Both.{BothSound};
ghost use Rattle.report.specs.Firsts.{ended};
ghost use Rattle.evaluation.specs.Evaluated.{budget, output_max, ending, running};
ghost use Rattle.evaluation.specs.Printed.{Printed, Endable};

use crate::sizes::Output;
use answer::{End, read_answer};
use machine::calls::run;
use machine::outcome::Stop;
use parts::Limits;
use printing::leaves::put_bytes;
use report::firsts::{put_ended, put_refusal, put_stopped};
use state::loops;
use terms::words::part;

fn no_lines() -> [u8; Output::LINES]
    ensures { length result ≡ output_max }
{
    [0u8; Output::LINES]
}

// What is printed of an answer that was read: the first line, and the lines after it.
fn print_read(out: &mut [u8], lines: &[u8], made: u32, end: End) -> usize
    requires { length lines.now ≤ output_max }
    ensures { Printed (ended made end.loops end.stuck end.knot ++ take end.length lines.now) out.old result out.new }
{
    let at = put_ended(
        out,
        made as usize,
        end.loops as usize,
        usize::from(end.stuck),
        usize::from(end.knot),
    );
    put_bytes(out, at, part(lines, 0, end.length))
}

// What is printed of a state in which nothing waits, after so many interactions. Of the refusals only that for a long answer can occur here.
fn print_end(
    table: &[u8; Limits::TABLE],
    state: &[u16; Limits::STATE],
    out: &mut [u8],
    made: u32,
) -> usize
    requires { Endable table.now state.now }
    ensures { Printed (ending (agents_in table.now) made (state_answer (under table.now) (view state.now)))
        out.old result out.new }
{
    let mut lines = no_lines();
    match read_answer(table, state, &mut lines) {
        Ok(end) => print_read(out, &lines, made, end),
        Err(fault) => put_refusal(out, b"answer", usize::from(u8::from(fault)), 0),
    }
}

// What is printed of the run of a sound state. The refusals for an unsound state and for a budget too large can't occur here.
pub fn print_run(
    table: &[u8; Limits::TABLE],
    state: &mut [u16; Limits::STATE],
    out: &mut [u8],
) -> usize
    requires { BothSound table.now state.old }
    ensures { Printed (running (agents_in table.now) (under table.now) (ran (under table.now) budget (view state.old)))
        out.old result out.new }
{
    match run(table, state, Output::BUDGET) {
        Ok(ran) => match ran.stop {
            Stop::Ended => print_end(table, state, out, ran.made),
            Stop::Paused => put_stopped(out, b"paused", ran.made as usize, loops(state) as usize),
            Stop::NoRoom => put_stopped(out, b"noroom", ran.made as usize, loops(state) as usize),
        },
        Err(_) => 0,
    }
}
