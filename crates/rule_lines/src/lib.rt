// Lines of a rule text: which record a line is, and the judge of an agent over the book that the lines before it mean.
#![tactic(auto)]

pub mod kinds; // kinds.rt: number 3
pub mod agent; // agent.rt: numbers 4 to 6 of an agent
