// The flat tests of one field: whether it spells a term, and whether its identifiers and levels keep to their sizes.
#![tactic(auto)]

pub mod spelling; // spelling.rt: whether a field spells a term
pub mod sizes; // sizes.rt: identifiers that are too long or too deep
