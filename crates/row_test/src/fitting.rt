// A row whose sizes and cells have passed, with the table that it stands in: from there on the two go together.
ghost use Rattle.row_test.specs.Row.{RowFits};

use parts::Limits;

#[derive(Clone, Copy)]
pub struct FittingRow<'a> {
    pub table: &'a [u8; Limits::TABLE],
    pub row: &'a [u8; Limits::RULE],
    pub ghost fits: { RowFits table.now row.now },
}
