// The test of the row of a rule in a lent table.
#![tactic(auto)]

pub mod fitting; // fitting.rt: a row that passed by its sizes and its cells
pub mod codes; // codes.rt: the codes of a rule, gathered and counted
pub mod walking; // walking.rt: cells and new names in reading order
pub mod rule; // rule.rt: the whole test of a rule
