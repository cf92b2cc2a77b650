// What a run keeps beside a lent state, so that no step counts cells and names again.
#![tactic(auto)]

ghost use Rattle.state.specs.Layout.{view};
ghost use Rattle.kept.specs.Right.{Right};

use parts::Limits;
use state::Part;

// How many cells and names are in use, and a number below which no cell is free, and no name.
#[derive(Clone, Copy)]
pub struct Kept {
    pub cells: u16,
    pub names: u16,
    pub low_cell: u16,
    pub low_name: u16,
}

// Both counted once.
pub fn keep(state: &[u16; Limits::STATE]) -> Kept
    ensures { Right result (view state.now) }
{
    Kept {
        cells: state::in_use(state, Part::Symbols) as u16,
        names: state::in_use(state, Part::Names) as u16,
        low_cell: 0,
        low_name: 0,
    }
}
