// The answer printer: it stores a byte only where the output has a place for it, so that a run on any output measures the answer.
#![tactic(auto)]

pub mod leaves; // leaves.rt: bytes, words, letters of a symbol, and the number of a name
pub mod states; // states.rt: the table and the state that are printed from
pub mod terms; // terms.rt: sides and cells
