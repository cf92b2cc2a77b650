// An interaction on a lent state, in place: two cells freed, and the right side of their rule built from the lowest free numbers.
#![tactic(auto)]

use parts::Limits;

pub mod lent_rule; // lent_rule.rt: a rule of a lent table that its test has passed
pub mod frames; // frames.rt: what the names and cells of a right side stand for
pub mod taking; // taking.rt: new names and new cells
pub mod building; // building.rt: the arguments of the new cells, and the equations
pub mod pairs; // pairs.rt: the interaction

// Where each part of a frame begins: the arguments of the two cells stand first.
#[derive(Clone, Copy)]
pub struct Frame;

impl Frame {
    pub const NAMES_AT: usize = 2 * Limits::ARITY;

    pub const CELLS_AT: usize = Frame::NAMES_AT + Limits::RULE_NAMES;

    pub const SIZE: usize = Frame::CELLS_AT + Limits::RULE_CELLS;
}
