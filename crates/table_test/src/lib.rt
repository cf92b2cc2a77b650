// The test of a lent rule table: its agents, its rules one after the other, and every byte of it.
#![tactic(auto)]

pub mod agents; // agents.rt: the test of the agents, and the agents written once more
pub mod whole; // whole.rt: the test of all rules, and of a table
