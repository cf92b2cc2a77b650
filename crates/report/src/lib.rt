// The lines that are printed first, stored at the start of an output.
#![tactic(auto)]

pub mod fields; // fields.rt: numbers and fields at a place of the output
pub mod firsts; // firsts.rt: the first line of a refusal, of a stopped run and of an ended one
