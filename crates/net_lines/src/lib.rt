// One line of a net text after those before it: its fault, or what it adds to the net.
#![tactic(auto)]

pub mod terms_of; // terms_of.rt: numbers 5 and 7 on the terms of a line
pub mod records; // records.rt: the `face` line and an `eq` line
