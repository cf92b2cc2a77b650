// A frame holds, by number, the codes that the names and cells of a right side stand for.
ghost use Rattle.std.specs.Prelude.{◌≡◌, ◌<◌, ◌≤◌};
ghost use Rattle.std.proofs.lemmas.List.Edits.{sets};
ghost use Rattle.parts.specs.Limits.{arity_max, rule_cells_max, cells_max};
ghost use Rattle.parts.specs.Sides.{side};
ghost use Rattle.state.specs.Layout.{view};
ghost use Rattle.firing.specs.Frames.{frame_size, place, worth, cell_in, four};

use crate::Frame;
use parts::{CellNo, Limits, Side};

// The arguments of a cell, entered from a place on.
pub fn enter_arguments(
    frame: &mut [u16; Frame::SIZE],
    at: usize,
    state: &[u16; Limits::STATE],
    c: CellNo,
)
    requires { (at ≤ arity_max) × (c.0 < cells_max) }
    ensures { frame.new ≡ sets frame.old at (four c.0 (view state.now).arguments) }
{
    frame[at] = state::argument_word(state, c, 0);
    frame[at + 1] = state::argument_word(state, c, 1);
    frame[at + 2] = state::argument_word(state, c, 2);
    frame[at + 3] = state::argument_word(state, c, 3);
}

// What a code of a right side stands for.
pub fn stands_for(frame: &[u16; Frame::SIZE], code: u8) -> u16
    requires { place (side code) < frame_size }
    ensures { result ≡ worth frame.now code }
{
    match Side::from(u16::from(code)) {
        Side::Name(x) => frame[usize::from(x.0)],
        Side::Cell(c) => frame[Frame::CELLS_AT + usize::from(c.0)],
    }
}

// The number that cell m of a right side has taken.
pub fn cell_at(frame: &[u16; Frame::SIZE], m: usize) -> CellNo
    requires { m < rule_cells_max }
    ensures { result.0 ≡ cell_in frame.now m }
{
    CellNo(frame[Frame::CELLS_AT + m] / 2)
}
