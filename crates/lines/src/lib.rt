// Flat tests over the fields of one line: what the reader of rule texts and that of net texts share.
#![tactic(auto)]

pub mod fields; // fields.rt: a header; fields misspelt or too big
pub mod words; // words.rt: the words of a part of a line, held against the agents and against one word
pub mod names; // names.rt: the new names of a part, entered on a sheet

// The two counts of a header.
#[derive(Clone, Copy, PartialEq, Eq)]
pub struct Counts {
    pub upper: usize,
    pub lower: usize,
}
