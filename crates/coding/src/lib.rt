// A rule made of what a sheet holds and of the codes of its sides; judged by the numbers 9 and 10, and put into the table.
#![tactic(auto)]

pub mod making; // making.rt: the rule by value
pub mod settling; // settling.rt: 9, 10, and the table with the rule
