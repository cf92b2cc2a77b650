// Reading the end: the answer of a state in which nothing waits.
#![tactic(auto)]

ghost use Rattle.std.specs.Prelude.{◌≡◌};
ghost use Rattle.answer.specs.Called.{end_told, given, called};

use crate::lines::print_answer;
use lent::both_sound;
use parts::Limits;
use parts::faults::Fault;
use printing::states::SoundState;
use state::{Pile, count, loops};

mod lines; // lines.rt: the lines of an answer

// What is read of an end: the length of the lines, the loops, the stuck pairs and the knot.
#[derive(Clone, Copy)]
pub struct End {
    pub length: usize,
    pub loops: u32,
    pub stuck: u16,
    pub knot: u16,
}

// The lines of the answer in the first bytes of the output, its other bytes as they were. A first run measures them.
pub fn read_answer(
    table: &[u8; Limits::TABLE],
    state: &[u16; Limits::STATE],
    out: &mut [u8],
) -> Result<End, Fault>
    ensures { given (end_told result) out.new ≡ called table.now state.now out.old }
{
    if !both_sound(table, state) {
        return Err(Fault::Unsound);
    }
    let lent = SoundState { table, state };
    if count(state, Pile::Waits) != 0 {
        return Err(Fault::Waits);
    }
    let mut none = [0u8; 1];
    let need = print_answer(lent, &mut none);
    if out.len() < need.at {
        return Err(Fault::LongAnswer);
    }
    let done = print_answer(lent, out);
    Ok(End {
        length: done.at,
        loops: loops(state),
        stuck: count(state, Pile::Stucks),
        knot: done.left,
    })
}
