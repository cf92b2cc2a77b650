// The reader of net texts: it decides first and writes last, and what it fills is overwritten, not tested.
#![tactic(auto)]

mod draft; // draft.rt: what is read so far
mod rest; // rest.rt: the `eq` lines
mod front; // front.rt: the header and the `face` line
mod whole; // whole.rt: all lines, number 11, number 8

ghost use Rattle.std.specs.Prelude.{◌≡◌, ◌≤◌, length};
ghost use Rattle.parts.specs.Limits.{text_max};
ghost use Rattle.table.specs.Given.{Given};
ghost use Rattle.state.specs.Layout.{view};
ghost use Rattle.nets.specs.Answer.{told, net_call};

use draft::Draft;
use lines::words::agents_part;
use loading::{Codes, LentTable, fill};
use parts::Limits;
use parts::faults::{Fault, Refusal};
use table_test::whole::table_sound;
use terms::Source;
use terms::sheet::Sheet;
use twice::Marks;
use whole::read_lines;

// A text that is not too long, over a sound table.
fn read_sound(
    text: &[u8],
    table: &[u8; Limits::TABLE],
    state: &mut [u16; Limits::STATE],
) -> Result<(), Refusal>
    requires { Given table.now × (length text.now ≤ text_max) }
    ensures { told result (view state.new) ≡ net_call text.now table.now (view state.old) }
{
    let source = Source {
        text,
        agents: agents_part(table),
    };
    let mut draft = Draft {
        sheet: [0u16; Sheet::SIZE],
        codes: [0u16; Codes::SIZE],
        marks: [0u16; Marks::SIZE],
    };
    let lent = LentTable { bytes: table };
    let lengths = read_lines(source, lent, &mut draft)?;
    fill(
        lent,
        &draft.sheet,
        &draft.codes,
        lengths.faces,
        lengths.equations,
        state,
    );
    Ok(())
}

// Reads a net text over a rule table into the state; a refusal leaves the state as it was. "A net reader lent an unsound table answers 16, line 0, before all else."
pub fn read_net(
    text: &[u8],
    table: &[u8; Limits::TABLE],
    state: &mut [u16; Limits::STATE],
) -> Result<(), Refusal>
    ensures { told result (view state.new) ≡ net_call text.now table.now (view state.old) }
{
    if !table_sound(table) {
        return Err(Refusal {
            fault: Fault::Unsound,
            line: 0,
        });
    }
    if Limits::TEXT < text.len() {
        return Err(Refusal {
            fault: Fault::LongText,
            line: 0,
        });
    }
    read_sound(text, table, state)
}
