// The fields of a line are cut and read onto the sheet one after the other.
ghost use Rattle.std.specs.Prelude.{◌≡◌, ◌*◌, ◌≤◌, length};
ghost use Rattle.parts.specs.Limits.{rule_equations_max};
ghost use Rattle.terms.specs.Sheet.{view};
ghost use Rattle.terms.specs.Agents.{agents_of};
ghost use Rattle.line_terms.specs.Fields.{field_end, ran, fields_by};

use parts::Limits;
use scan::cutting::find;
use terms::sheet::Sheet;
use terms::{Source, read_field};

// Where the field that begins at `at` ends: at the next tab, or where the line does.
pub fn field_end(text: &[u8], at: usize, to: usize) -> usize
    requires { (at ≤ to) × (to ≤ length text.now) }
    ensures { (result ≡ field_end text.now at to) × (result ≤ to) }
{
    at + find(&text[at..to], b'\t')
}

// Whether n fields that stand from `from` to `to` are terms whose identifiers have as many arguments as they take: the
// code of field i goes to place i, and its cells and new names go on the sheet.
#[tactic(auto, using(crate::proofs::Fielding::reading_laws))]
pub fn read_fields(
    source: Source<'_>,
    from: usize,
    to: usize,
    n: usize,
    sheet: &mut [u16; Sheet::SIZE],
    codes: &mut [u16; 2 * Limits::RULE_EQUATIONS],
) -> bool
    requires { (to ≤ length source.text.now) × (n ≤ 2 * rule_equations_max) }
    ensures { ran result (view sheet.new) codes.new ≡ fields_by source.entry.text.now (agents_of source.entry.agents.now) to n 0 from (view sheet.old) codes.old }
{
    let mut at = from;
    for i in 0..n {
        if to < at {
            return false;
        }
        let end = field_end(source.text, at, to);
        let Some(code) = read_field(source, at, end, sheet) else {
            return false;
        };
        codes[i] = code;
        at = end + 1;
    }
    true
}
