// The test of what a caller lends: a rule table and a state under it.
#![tactic(auto)]

ghost use Rattle.std.specs.Prelude.{◌≡◌, true, ◌↔◌};
ghost use Rattle.lent.specs.Both.{BothSound};

use crate::whole::state_sound;
use parts::Limits;
use sound::usable::{Lent, UsableTable};
use table_test::whole::table_sound;

pub mod whole; // whole.rt: all clauses of a sound state together

// Whether some rule text would give the table, if its length had no limit, and the state is sound under it.
pub fn both_sound(table: &[u8; Limits::TABLE], state: &[u16; Limits::STATE]) -> bool
    ensures { (result ≡ true) ↔ BothSound table.now state.now }
{
    table_sound(table)
        && state_sound(Lent {
            table: UsableTable { bytes: table },
            state,
        })
}
