// Scanning leaves for the two texts: byte classes, lines, fields, words and numbers.
// A leaf is lent a part of a text and reads no byte that is not there. It answers with a place, a part or a yes or no.
#![tactic(auto)]

pub mod places; // places.rt: the first byte of some kind
pub mod bytes; // bytes.rt: letters, digits, word bytes, allowed bytes
pub mod cutting; // cutting.rt: lines of a text, fields of a line
pub mod words; // words.rt: words compared; where words begin and end; identifiers and symbols
pub mod numbers; // numbers.rt: decimal numbers
