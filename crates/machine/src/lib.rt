// The machine: a step on a picked equation, and a run, on a lent table and a lent state.
#![tactic(auto)]

pub mod outcome; // outcome.rt: what a step came to
pub mod meeting; // meeting.rt: two cells: stuck, or an interaction
pub mod picking; // picking.rt: a picked equation wired, or its cells met
pub mod turns; // turns.rt: one turn of a run
pub mod calls; // calls.rt: the public calls `step` and `run`
