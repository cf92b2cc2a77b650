// The clauses of a sound state that a pass over an array decides. The stuck pairs are in the crate stuck_pairs, how often
// names stand in name_counts, the walk over cells in cell_walk, and all clauses together in lent.
#![tactic(auto)]

pub mod usable; // usable.rt: a lent table that is fit for the tests, and a state with it
pub mod passes; // passes.rt: a function for each of these clauses
