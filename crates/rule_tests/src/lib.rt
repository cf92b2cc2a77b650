// The numbers 5 and 8 on a `rule` line, asked of the part of the line after its first tab.
#![tactic(auto)]

pub mod words; // words.rt: the word at a place, and the place after it
pub mod sizes; // sizes.rt: number 5
pub mod names; // names.rt: number 8
