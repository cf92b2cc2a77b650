// What a step came to, and why a run stops.
use kept::Kept;

// A step that was made: what is kept after it, and whether it was an interaction.
#[derive(Clone, Copy)]
pub struct Made {
    pub kept: Kept,
    pub interacted: bool,
}

// Why no step was made, with nothing changed. The budget is asked before the room.
#[derive(Clone, Copy)]
pub enum Stop {
    // nothing waits
    Ended,
    // the head is an interaction and the budget is spent
    Paused,
    // there is no room for the step on the head
    NoRoom,
}
