// The `face` line and an `eq` line of a net text.
ghost use Rattle.std.proofs.Math.Option.{Option, none, some};
ghost use Rattle.std.specs.Prelude.{◌≡◌, OnOk, IsTrue, cond, List, [], suc, ◌+◌, ◌*◌, ◌<◌, ◌≤◌, length, drop};
ghost use Rattle.parts.specs.Limits.{face_max, net_equations_max};
ghost use Rattle.texts.specs.Bytes.{Word, fields};
ghost use Rattle.texts.specs.Books.{Net, net_terms};
ghost use Rattle.texts.specs.NetText.{face_fields, eq_fields};
ghost use Rattle.terms.specs.Agents.{agents_of};
ghost use Rattle.terms.specs.Sheet.{view};
ghost use Rattle.lines.specs.Names.{between};
ghost use Rattle.net_lines.specs.Draft.{Draft};
ghost use Rattle.net_lines.specs.Judging.{Stands, Fit};
ghost use Rattle.net_lines.specs.Records.{Shaped, FaceRead, EqRead};

use crate::terms_of::{judge, terms_in};
use lines::fields::misspelt;
use loading::Codes;
use parts::Limits;
use parts::faults::Fault;
use scan::bytes::first_bad;
use scan::cutting::{field, field_count};
use scan::words::same;
use terms::Source;
use terms::sheet::Sheet;

// Faults 2, 3 and 4 of a line: its bytes, whether it has its record's form, and its terms.
fn shape(line: &[u8], formed: bool) -> Result<(), Fault>
    ensures shaped { (form : List Word → Option (List Word)) → form (fields line.now) ≡ cond formed (some (drop 1 (fields line.now))) none
        → Shaped form line.now result }
    ensures fine_formed { OnOk result (IsTrue formed) }
{
    if first_bad(line) < line.len() {
        return Err(Fault::BadByte);
    }
    if !formed {
        return Err(Fault::BadRecord);
    }
    if misspelt(line, 1) {
        return Err(Fault::Misspelt);
    }
    Ok(())
}

// Those of a `face` line.
fn face_shape(line: &[u8]) -> Result<(), Fault>
    ensures { Shaped face_fields line.now result }
{
    shape(line, same(field(line, 0), b"face"))
}

// Those of an `eq` line, which has two terms.
fn eq_shape(line: &[u8]) -> Result<(), Fault>
    ensures shaped { Shaped eq_fields line.now result }
    ensures three { OnOk result (length (fields line.now) ≡ 3) }
{
    shape(line, field_count(line) == 3 && same(field(line, 0), b"eq"))
}

// The `face` line from `at` to `end`: its terms go on the sheet, their codes to the start of the codes.
// `at` and `end` are two places of the text; each call goes on with others, so a struct of both would be taken apart at once.
pub fn face_line(
    source: Source<'_>,
    at: usize,
    end: usize,
    sheet: &mut [u16; Sheet::SIZE],
    codes: &mut [u16; Codes::SIZE],
) -> Result<(), Fault>
    requires { (at ≤ end) × (end ≤ length source.text.now) }
    ensures face_read { Stands source.entry.text.now at end → Fit source.entry.text.now (agents_of source.entry.agents.now)
        → Draft source.entry.text.now (agents_of source.entry.agents.now) (view sheet.old) codes.old []
        → FaceRead source.entry.text.now (agents_of source.entry.agents.now) (between source.entry.text.now at end) result (view sheet.new) codes.new }
    ensures end_len_bound { OnOk result (length (fields (between source.entry.text.now at end)) ≤ suc face_max) }
{
    let line = &source.text[at..end];
    face_shape(line)?;
    if Limits::FACE < terms_in(line) {
        return Err(Fault::TooBig);
    }
    judge(source, at, end, sheet, codes, 0)
}

// The `eq` line from `at` to `end`, after f interface terms and k equations: its codes go behind theirs.
pub fn eq_line(
    source: Source<'_>,
    at: usize,
    end: usize,
    sheet: &mut [u16; Sheet::SIZE],
    codes: &mut [u16; Codes::SIZE],
    f: usize,
    k: usize,
) -> Result<(), Fault>
    requires { (at ≤ end) × (end ≤ length source.text.now) × (f ≤ face_max) }
    ensures eq_read { (m : Net) → Stands source.entry.text.now at end → Fit source.entry.text.now (agents_of source.entry.agents.now)
        → Draft source.entry.text.now (agents_of source.entry.agents.now) (view sheet.old) codes.old (net_terms m)
        → f ≡ length m.face → k ≡ length m.equations
        → EqRead source.entry.text.now (agents_of source.entry.agents.now) m (between source.entry.text.now at end) result (view sheet.new) codes.new }
    ensures k_lt_net_equations_max { OnOk result (k < net_equations_max) }
{
    eq_shape(&source.text[at..end])?;
    if Limits::NET_EQUATIONS <= k {
        return Err(Fault::TooBig);
    }
    judge(source, at, end, sheet, codes, f + 2 * k)
}
