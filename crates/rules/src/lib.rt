// The reader of rule texts: one public call.
#![tactic(auto)]

ghost use Rattle.std.specs.Prelude.{◌≡◌};
ghost use Rattle.rules.specs.Answer.{leaves, rules_read};

use parts::Limits;
use parts::faults::{Fault, Refusal};
use table::writing::empty_table;
use text::read_lines;

mod line; // line.rt: one line, over the book so far
mod text; // text.rt: the lines of a text, and the table that they make

// Reads a rule text. What the lent table holds is overwritten and not tested. Each line is judged over the book so far, and
// the table under construction is that book; so it is made beside the lent one, which a refusal never touches.
pub fn read_rules(text: &[u8], table: &mut [u8; Limits::TABLE]) -> Result<(), Refusal>
    ensures { leaves result table.new ≡ rules_read text.now table.old }
{
    if Limits::TEXT < text.len() {
        return Err(Refusal {
            fault: Fault::LongText,
            line: 0,
        });
    }
    let mut made = empty_table();
    read_lines(text, &mut made)?;
    *table = made;
    Ok(())
}
