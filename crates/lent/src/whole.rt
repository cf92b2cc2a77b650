// All clauses of a sound state together.
ghost use Rattle.std.specs.Prelude.{◌≡◌};
ghost use Rattle.model.specs.Test.{tested};
ghost use Rattle.state.specs.Layout.{view};
ghost use Rattle.sound.specs.Lent.{under};

use cell_walk::reached;
use name_counts::twice;
use parts::Limits;
use sound::passes::{both_ways, declared, sized, zeroed};
use sound::usable::Lent;
use stuck_pairs::unruled;

// The sizes come first, since the other clauses ask for them, and the costly clauses last.
pub fn state_sound(lent: Lent) -> bool
    ensures { result ≡ tested (under lent.entry.table.bytes.now) (view lent.entry.state.now) }
{
    sized(lent.state)
        && declared(lent.table.bytes, lent.state)
        && zeroed(lent)
        && both_ways(lent.state)
        && unruled(lent)
        && reached(lent)
        && twice(lent)
}
