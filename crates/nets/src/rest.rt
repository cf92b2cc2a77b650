// The `eq` lines of a net text, one after the other.
ghost use Rattle.std.specs.Prelude.{◌≡◌, [], ◌≤◌, length, MatchResult, ◌+◌};
ghost use Rattle.parts.specs.Limits.{face_max, net_equations_max};
ghost use Rattle.texts.specs.Books.{Net};
ghost use Rattle.terms.specs.Agents.{agents_of};
ghost use Rattle.terms.specs.Sheet.{view};
ghost use Rattle.net_lines.specs.Judging.{Fit};
ghost use Rattle.nets.specs.Drafted.{Drafted};
ghost use Rattle.nets.specs.Reading.{Stepped, Moved, EqsRead};

use crate::draft::Draft;
use net_lines::records::eq_line;
use parts::faults::{Fault, Refusal};
use scan::cutting::next_line;
use terms::{Source, sheet};

// The line that begins at `at`, after f interface terms and k equations: where the one after it begins, or None where no line is left.
// That the interface is small enough stays a clause here and in crates/net_lines: it bounds one number, from which the place of the next code is told.
fn one_eq(
    source: Source<'_>,
    at: usize,
    f: usize,
    k: usize,
    draft: &mut Draft,
) -> Result<Option<usize>, Fault>
    requires { f ≤ face_max }
    ensures stepped { (m : Net) → Fit source.entry.text.now (agents_of source.entry.agents.now)
        → Drafted source.entry.text.now (agents_of source.entry.agents.now) (view draft.old.sheet) draft.old.codes draft.old.marks m
        → f ≡ length m.face → k ≡ length m.equations
        → Stepped source.entry.text.now (agents_of source.entry.agents.now) at m result (view draft.new.sheet) draft.new.codes draft.new.marks }
    ensures moved { Moved source.entry.text.now at k result }
{
    let Some(end) = next_line(source.text, at)? else {
        return Ok(None);
    };
    eq_line(source, at, end, &mut draft.sheet, &mut draft.codes, f, k)?;
    draft.marks[k + 1] = sheet::names(&draft.sheet);
    Ok(Some(end + 1))
}

// How many there are from `from` on. The first is line 3.
pub fn read_eqs(
    source: Source<'_>,
    from: usize,
    f: usize,
    draft: &mut Draft,
) -> Result<usize, Refusal>
    requires { (f ≤ face_max) × (from ≤ length source.text.now) }
    ensures eqs_read { (m : Net) → Fit source.entry.text.now (agents_of source.entry.agents.now)
        → Drafted source.entry.text.now (agents_of source.entry.agents.now) (view draft.old.sheet) draft.old.codes draft.old.marks m
        → f ≡ length m.face → m.equations ≡ []
        → EqsRead source.entry.text.now (agents_of source.entry.agents.now) from m result (view draft.new.sheet) draft.new.codes draft.new.marks }
    ensures equations_le_net_equations_max { MatchResult result (λ k. k ≤ net_equations_max) (λ r. r.line ≤ 3 + net_equations_max) }
{
    let mut at = from;
    let mut k: usize = 0;
    // The end of a line says where the next one begins, so this is no `for`.
    loop {
        match one_eq(source, at, f, k, draft) {
            Ok(Some(next)) => {
                at = next;
                k += 1;
            }
            Ok(None) => return Ok(k),
            Err(fault) => {
                return Err(Refusal {
                    fault: fault,
                    line: 3 + k,
                });
            }
        }
    }
}
