// The terms of a line: read onto a sheet one after the other, and the test of number 7 where there is no sheet.
#![tactic(auto)]

pub mod arguments; // arguments.rt: number 7 asked of a field, with no sheet
pub mod fields; // fields.rt: the fields of a line read onto the sheet
