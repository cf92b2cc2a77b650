// The table that a text is read into.
ghost use Rattle.std.specs.Prelude.{◌≡◌};
ghost use Rattle.table.specs.Layout.{bytes_of};
ghost use Rattle.table.specs.Put.{no_table};

use parts::Limits;

// A table with no agents and no rules: every byte is zero.
pub fn empty_table() -> [u8; Limits::TABLE]
    ensures { result ≡ bytes_of no_table }
{
    [0u8; Limits::TABLE]
}
