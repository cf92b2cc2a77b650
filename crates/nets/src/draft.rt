// What is read so far of a net text.
use loading::Codes;
use terms::sheet::Sheet;
use twice::Marks;

// The sheet of its terms, their codes, and for each line how many names stood on the sheet after it.
#[derive(Drop)]
pub struct Draft {
    pub sheet: [u16; Sheet::SIZE],
    pub codes: [u16; Codes::SIZE],
    pub marks: [u16; Marks::SIZE],
}
