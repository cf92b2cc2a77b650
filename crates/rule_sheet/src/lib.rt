// A well-formed rule is read onto a sheet, the arguments of its left agents first, and coded.
#![tactic(auto)]

pub mod lefts; // lefts.rt: the left arguments entered
pub mod whole; // whole.rt: the coded rule
