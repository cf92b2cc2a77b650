// The first two lines of a net text: its header and its `face`.
ghost use Rattle.std.specs.Prelude.{◌≡◌, [], suc, length};
ghost use Rattle.parts.specs.Limits.{net_equations_max};
ghost use Rattle.terms.specs.Agents.{agents_of};
ghost use Rattle.terms.specs.Sheet.{view};
ghost use Rattle.net_lines.specs.Draft as Drafts;
ghost use Rattle.net_lines.specs.Judging.{Fit};
ghost use Rattle.nets.specs.Heading.{Headed};
ghost use Rattle.nets.specs.Reading.{FirstRead, SecondRead, Within};

use crate::draft::Draft;
use lines::Counts;
use lines::fields::header;
use net_lines::records::face_line;
use net_lines::terms_of::terms_in;
use parts::faults::Fault;
use scan::bytes::first_bad;
use scan::cutting::next_line;
use terms::{Source, sheet};

// The header's counts, and where the next line begins.
#[derive(Clone, Copy)]
pub struct First {
    pub counts: Counts,
    pub next: usize,
}

// How many terms the `face` line has, and where the next line begins.
#[derive(Clone, Copy)]
pub struct Second {
    pub terms: usize,
    pub next: usize,
}

// A header's counts.
fn header_line(line: &[u8]) -> Result<Counts, Fault>
    ensures { Headed line.now result }
{
    if first_bad(line) < line.len() {
        return Err(Fault::BadByte);
    }
    header(line, b"net").ok_or(Fault::BadRecord)
}

pub fn first_line(text: &[u8]) -> Result<First, Fault>
    ensures { FirstRead text.now result }
{
    let Some(end) = next_line(text, 0)? else {
        return Err(Fault::BadRecord);
    };
    let counts = header_line(&text[..end])?;
    Ok(First {
        counts: counts,
        next: end + 1,
    })
}

// The line that begins at `at` is to be the `face`.
pub fn second_line(source: Source<'_>, at: usize, draft: &mut Draft) -> Result<Second, Fault>
    ensures second_read { Fit source.entry.text.now (agents_of source.entry.agents.now)
        → Drafts.Draft source.entry.text.now (agents_of source.entry.agents.now) (view draft.old.sheet) draft.old.codes []
        → length draft.old.marks ≡ suc net_equations_max
        → SecondRead source.entry.text.now (agents_of source.entry.agents.now) at result (view draft.new.sheet) draft.new.codes draft.new.marks }
    ensures within { Within source.entry.text.now result }
{
    let Some(end) = next_line(source.text, at)? else {
        return Err(Fault::BadRecord);
    };
    face_line(source, at, end, &mut draft.sheet, &mut draft.codes)?;
    draft.marks[0] = sheet::names(&draft.sheet);
    Ok(Second {
        terms: terms_in(&source.text[at..end]),
        next: end + 1,
    })
}
