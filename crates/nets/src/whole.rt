// A whole net text: its lines, then number 11, then number 8.
ghost use Rattle.std.specs.Prelude.{◌≡◌, ◌+◌, ◌*◌, ◌≤◌, length, drop};
ghost use Rattle.parts.specs.Limits.{face_max, net_equations_max, net_cells_max};
ghost use Rattle.texts.specs.Bytes.{lines};
ghost use Rattle.texts.specs.Books.{Net};
ghost use Rattle.texts.specs.Answers.{read_lines, after};
ghost use Rattle.texts.specs.NetText.{eq_line, net_counted, net_of_lines};
ghost use Rattle.table.specs.Layout.{agents_in};
ghost use Rattle.terms.specs.Agents.{agents_of};
ghost use Rattle.terms.specs.Sheet.{view};
ghost use Rattle.nets.specs.Heading.{plain};
ghost use Rattle.nets.specs.Reading.{Start, Begun, loose_at, TextRead};

use crate::draft::Draft;
use crate::front::{first_line, second_line};
use crate::rest::read_eqs;
use lines::Counts;
use loading::LentTable;
use parts::faults::{Fault, Refusal};
use terms::Source;
use twice::{first_loose, lines_before};

// How many interface terms and equations a net has.
#[derive(Clone, Copy)]
pub struct Lengths {
    pub faces: usize,
    pub equations: usize,
}

// "the line where the earliest offending name first occurs": None where each name occurs exactly twice.
fn loose_line(table: LentTable<'_>, draft: &Draft, f: usize, k: usize) -> Option<usize>
    requires { ((view draft.now.sheet).cells ≤ net_cells_max) × (f ≤ face_max) × (k ≤ net_equations_max) }
    ensures { result ≡ loose_at (agents_in table.entry.bytes.now) (view draft.now.sheet) draft.now.codes draft.now.marks f k }
{
    let x = first_loose(table, &draft.sheet, &draft.codes, f + 2 * k);
    let j = lines_before(&draft.marks, k + 1, x);
    if j <= k {
        return Some(2 + j);
    }
    None
}

// From the first `eq` line on, after a header with these counts and a `face` of f terms.
fn after_face(
    source: Source<'_>,
    at: usize,
    table: LentTable<'_>,
    counts: Counts,
    f: usize,
    draft: &mut Draft,
) -> Result<Lengths, Refusal>
    requires { (f ≤ face_max) × (at ≤ length source.text.now)
        × ((m : Net) × Begun source.text.now (agents_of source.agents.now) table.bytes.now f m (view draft.old.sheet) draft.old.codes draft.old.marks) }
    ensures { (m : Net) → Begun source.entry.text.now (agents_of source.entry.agents.now) table.entry.bytes.now f m (view draft.old.sheet) draft.old.codes draft.old.marks
        → TextRead source.entry.text.now (agents_of source.entry.agents.now)
        (after (read_lines (eq_line (agents_of source.entry.agents.now)) 3 m (lines (drop at source.entry.text.now))) (net_counted (agents_of source.entry.agents.now) (plain counts)))
        result (view draft.new.sheet) draft.new.codes draft.new.marks }
{
    let k = read_eqs(source, at, f, draft)?;
    if counts.upper != f || counts.lower != k {
        return Err(Refusal {
            fault: Fault::CountsDiffer,
            line: 1,
        });
    }
    if let Some(line) = loose_line(table, draft, f, k) {
        return Err(Refusal {
            fault: Fault::WrongNames,
            line: line,
        });
    }
    Ok(Lengths {
        faces: f,
        equations: k,
    })
}

// All lines of a text.
pub fn read_lines(
    source: Source<'_>,
    table: LentTable<'_>,
    draft: &mut Draft,
) -> Result<Lengths, Refusal>
    requires { Start source.text.now (agents_of source.agents.now) table.bytes.now (view draft.old.sheet) draft.old.codes draft.old.marks }
    ensures { TextRead source.entry.text.now (agents_of source.entry.agents.now) (net_of_lines (agents_of source.entry.agents.now) (lines source.entry.text.now))
        result (view draft.new.sheet) draft.new.codes draft.new.marks }
{
    // With `map_err` in place of these two the proof did not close: what its closure gives was out of the tactics' reach.
    let first = match first_line(source.text) {
        Ok(first) => first,
        Err(fault) => return Err(Refusal { fault, line: 1 }),
    };
    let second = match second_line(source, first.next, draft) {
        Ok(second) => second,
        Err(fault) => return Err(Refusal { fault, line: 2 }),
    };
    after_face(
        source,
        second.next,
        table,
        first.counts,
        second.terms,
        draft,
    )
}
