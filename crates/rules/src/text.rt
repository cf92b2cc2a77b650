// The lines of a rule text, each over the book so far, which is the table under construction: a line is judged by what is
// looked up in it.
ghost use Rattle.std.specs.Prelude.{◌≡◌, ◌≤◌, length, drop};
ghost use Rattle.parts.specs.Limits.{text_max};
ghost use Rattle.texts.specs.Bytes.{lines};
ghost use Rattle.texts.specs.Books.{no_book};
ghost use Rattle.texts.specs.Answers.{read_lines, after};
ghost use Rattle.texts.specs.RuleText.{rule_line, counted, rules_of_lines};
ghost use Rattle.scan.specs.Laws.Cutting.{EndedAt};
ghost use Rattle.table.specs.Layout.{bytes_of};
ghost use Rattle.table.specs.Put.{no_table};
ghost use Rattle.rules.specs.Told.{first, Told, counts, Compared};

use crate::line::judge_line;
use lines::Counts;
use lines::fields::header;
use parts::Limits;
use parts::faults::{Fault, Refusal};
use scan::bytes::first_bad;
use scan::cutting::next_line;
use table::reading::{rule_count, symbol_count};
use terms::words::part;

// That the text is not too long and the table empty is asked of `text` and of what is lent for writing: one clause each, and no type for both.
// The lines from the second on, up to the earliest bad one or to the end of the text: no header says where that is.
fn read_records(text: &[u8], from: usize, table: &mut [u8; Limits::TABLE]) -> Result<(), Refusal>
    requires { (length text.now ≤ text_max) × (from ≤ length text.now) × (table.old ≡ bytes_of no_table) }
    ensures { Told (read_lines rule_line 2 no_book (lines (drop from text.now))) result table.new }
{
    let mut at = from;
    let mut k: usize = 2;
    // A step is a whole line, and its number goes into the refusal.
    'lines: loop {
        match next_line(text, at) {
            Ok(None) => return Ok(()),
            Err(fault) => return Err(Refusal { fault, line: k }),
            Ok(Some(end)) => {
                if let Err(fault) = judge_line(part(text, at, end - at), table) {
                    return Err(Refusal { fault, line: k });
                }
                at = end + 1;
                k += 1;
            }
        }
    }
}

// What is wrong with the first line of a text, or with its counts, which stand there.
fn on_first(fault: Fault) -> Refusal
    ensures { result ≡ first fault }
{
    Refusal { fault, line: 1 }
}

// Number 11, after all lines: a header's counts are compared with the records found, and nothing else.
fn compare(told: Counts, table: &[u8; Limits::TABLE]) -> Result<(), Refusal>
    ensures { Compared (counts told) result table.now }
{
    let agents = usize::from(symbol_count(table));
    let rules = usize::from(rule_count(table));
    if told.upper != agents || told.lower != rules {
        return Err(on_first(Fault::CountsDiffer));
    }
    Ok(())
}

// The records after a good header, and number 11.
fn read_counted(
    text: &[u8],
    from: usize,
    told: Counts,
    table: &mut [u8; Limits::TABLE],
) -> Result<(), Refusal>
    requires { (length text.now ≤ text_max) × (from ≤ length text.now) × (table.old ≡ bytes_of no_table) }
    ensures { Told (after (read_lines rule_line 2 no_book (lines (drop from text.now))) (counted (counts told))) result table.new }
{
    read_records(text, from, table)?;
    compare(told, table)
}

// A first line that has ended, and what follows.
fn read_header(text: &[u8], end: usize, table: &mut [u8; Limits::TABLE]) -> Result<(), Refusal>
    requires { (length text.now ≤ text_max) × EndedAt text.now 0 end × (table.old ≡ bytes_of no_table) }
    ensures { Told (rules_of_lines (lines text.now)) result table.new }
{
    let line = part(text, 0, end);
    if first_bad(line) < line.len() {
        return Err(on_first(Fault::BadByte));
    }
    match header(line, b"rules") {
        None => Err(on_first(Fault::BadRecord)),
        Some(told) => read_counted(text, end + 1, told, table),
    }
}

// All lines of a text. An absent first record is number 3 on the line after the last.
pub fn read_lines(text: &[u8], table: &mut [u8; Limits::TABLE]) -> Result<(), Refusal>
    requires { (length text.now ≤ text_max) × (table.old ≡ bytes_of no_table) }
    ensures { Told (rules_of_lines (lines text.now)) result table.new }
{
    match next_line(text, 0) {
        Ok(None) => Err(on_first(Fault::BadRecord)),
        Err(fault) => Err(on_first(fault)),
        Ok(Some(end)) => read_header(text, end, table),
    }
}
