// The first line of what is printed. It goes to the start of the output, and the place after it is handed back.
ghost use Rattle.std.specs.Prelude.{◌≤◌, length};
ghost use Rattle.report.specs.Begun.{Begun, line_of_four};
ghost use Rattle.report.specs.Firsts.{refusal, stopped, ended, word_max};

use crate::fields::{put_field, put_number_field};
use printing::leaves::{put, put_bytes};

// The room that a first line may take: words of at most 8 bytes and numbers of at most 20 digits.
#[derive(Clone, Copy)]
pub struct First;

impl First {
    pub const SIZE: usize = 128;
}

// A line of two words and two numbers, parted by tabs.
fn put_line(out: &mut [u8], first: &[u8], second: &[u8], m: usize, n: usize) -> usize
    requires { (length first.now ≤ word_max) × (length second.now ≤ word_max) }
    ensures { Begun (line_of_four first.now second.now m n) out.old result out.new }
{
    let a = put_bytes(out, 0, first);
    let b = put_field(out, a, second);
    let c = put_number_field(out, b, m);
    let d = put_number_field(out, c, n);
    put(out, d, b'\n')
}

// "A refusal prints `refused`, `rules` or `net` or `answer`, number, line".
#[tactic(auto, unfolding(crate::specs::Firsts::refusal))]
pub fn put_refusal(out: &mut [u8], of: &[u8], number: usize, line: usize) -> usize
    requires { length of.now ≤ word_max }
    ensures { Begun (refusal of.now number line) out.old result out.new }
{
    put_line(out, b"refused", of, number, line)
}

// "For paused and noroom only the first line, with its first four fields."
// It and `put_refusal` both stand over `put_line`: each names its first word and promises a line of its own.
#[tactic(auto, unfolding(crate::specs::Firsts::stopped))]
pub fn put_stopped(out: &mut [u8], word: &[u8], made: usize, loops: usize) -> usize
    requires { length word.now ≤ word_max }
    ensures { Begun (stopped word.now made loops) out.old result out.new }
{
    put_line(out, b"ran", word, made, loops)
}

// "First line: `ran`, word, interactions, loops, stuck pairs, knot cells."
pub fn put_ended(out: &mut [u8], made: usize, loops: usize, stuck: usize, knot: usize) -> usize
    ensures { Begun (ended made loops stuck knot) out.old result out.new }
{
    let a = put_bytes(out, 0, b"ran");
    let b = put_field(out, a, b"ended");
    let c = put_number_field(out, b, made);
    let d = put_number_field(out, c, loops);
    let e = put_number_field(out, d, stuck);
    let f = put_number_field(out, e, knot);
    put(out, f, b'\n')
}
