// Numbers 5 and 7 on a line of a net text whose fields spell terms: the terms go on the sheet.
ghost use Rattle.std.specs.Prelude.{◌≡◌, false, List, suc, ◌+◌, ◌*◌, ◌<◌, ◌≤◌, ltb, length, drop};
ghost use Rattle.parts.specs.Limits.{net_cells_max, net_equations_max, face_max, rule_equations_max};
ghost use Rattle.texts.specs.Bytes.{keep, fields};
ghost use Rattle.texts.specs.Books.{Net, declared};
ghost use Rattle.texts.specs.Terms.{Term};
ghost use Rattle.scan.specs.Cutting.{field_start};
ghost use Rattle.scan.specs.Words.{words_in};
ghost use Rattle.terms.specs.Agents.{agents_of};
ghost use Rattle.terms.specs.Sheet.{view};
ghost use Rattle.lines.specs.Names.{between};
ghost use Rattle.net_lines.specs.Taking.{Numbered};
ghost use Rattle.net_lines.specs.Judging.{Asked, Judged};

use line_terms::fields::read_fields;
use lines::fields::{from_field, oversized};
use lines::names::enter_names;
use lines::words::cells_in;
use loading::Codes;
use parts::Limits;
use parts::faults::Fault;
use scan::cutting::{field_count, field_start};
use terms::sheet::Sheet;
use terms::{Source, sheet};

// n fields that stand from `from` to `to`, read onto the sheet, and their codes put behind those that stand. Fault 7 where an argument count is not right.
// The codes go whole, with how many stand there: what is put goes behind them in the same array.
fn take_terms(
    source: Source<'_>,
    from: usize,
    to: usize,
    n: usize,
    sheet: &mut [u16; Sheet::SIZE],
    codes: &mut [u16; Codes::SIZE],
    used: usize,
) -> Result<(), Fault>
    requires { (to ≤ length source.text.now) × (n ≤ 2 * rule_equations_max) × (used + n ≤ face_max + 2 * net_equations_max) }
    ensures { Numbered source.entry.text.now (agents_of source.entry.agents.now) from to n (view sheet.old) codes.old used result (view sheet.new) codes.new }
{
    let mut line = [0u16; 2 * Limits::RULE_EQUATIONS];
    if !read_fields(source, from, to, n, sheet, &mut line) {
        return Err(Fault::WrongArguments);
    }
    codes[used..used + n].copy_from_slice(&line[..n]);
    Ok(())
}

// How many fields stand after the first.
pub fn terms_in(line: &[u8]) -> usize
    ensures { suc result ≡ length (fields line.now) }
{
    field_count(line) - 1
}

// Whether the cells so far, with those of the line, pass their size.
fn many_cells(line: &[u8], agents: &[u8], sheet: &[u16; Sheet::SIZE]) -> bool
    ensures { result ≡ ltb net_cells_max ((view sheet.now).cells + length (keep (declared (agents_of agents.now)) (words_in (drop (field_start line.now 1) line.now)))) }
{
    let used = usize::from(sheet::cells(sheet));
    Limits::NET_CELLS < used || Limits::NET_CELLS - used < cells_in(from_field(line, 1), agents)
}

// What is wrong with the line's terms, of a net that has with them not too many interface terms or equations.
// `at` and `end` are two places of the text; each call goes on with others, so a struct of both would be taken apart at once.
pub fn judge(
    source: Source<'_>,
    at: usize,
    end: usize,
    sheet: &mut [u16; Sheet::SIZE],
    codes: &mut [u16; Codes::SIZE],
    used: usize,
) -> Result<(), Fault>
    requires { (at ≤ end) × (end ≤ length source.text.now) × (length (fields (between source.text.now at end)) ≤ suc (2 * rule_equations_max))
        × (used + length (fields (between source.text.now at end)) ≤ suc (face_max + 2 * net_equations_max)) }
    ensures { (ts us : List Term) (m : Net)
        → Asked source.entry.text.now (agents_of source.entry.agents.now) at end false (view sheet.old) codes.old used ts us m
        → Judged source.entry.text.now (agents_of source.entry.agents.now) ts us m result (view sheet.new) codes.new }
{
    let line = &source.text[at..end];
    if oversized(line, 1) || many_cells(line, source.agents, sheet) {
        return Err(Fault::TooBig);
    }
    let from = at + field_start(line, 1);
    if !enter_names(source, from, end, Limits::NET_NAMES as u16, sheet) {
        return Err(Fault::TooBig);
    }
    take_terms(source, from, end, terms_in(line), sheet, codes, used)
}
