// Whole fields of a line: a header's counts, and numbers 4 and 5 on the fields from some number on.
ghost use Rattle.std.specs.Prelude.{◌≡◌, List, drop};
ghost use Rattle.std.proofs.Math.Option.{some};
ghost use Rattle.texts.specs.Bytes.{any, fields};
ghost use Rattle.texts.specs.Terms.{Term, nodes};
ghost use Rattle.texts.specs.Answers.{absent};
ghost use Rattle.texts.specs.RuleText.{header_of, terms_of, big_node};
ghost use Rattle.texts.specs.Passes as Passes;
ghost use Rattle.scan.specs.Cutting.{field_start};
ghost use Rattle.lines.specs.Fields.{counts_of, both_counts, too_big};

use crate::Counts;
use field_tests::sizes::first_big;
use field_tests::spelling::spelled;
use scan::cutting::{field, field_count, field_start};
use scan::numbers::decimal;
use scan::words::same;
use terms::words::part;

// The counts that two fields spell.
fn both_counts(first: &[u8], second: &[u8]) -> Option<Counts>
    ensures { counts_of result ≡ both_counts first.now second.now }
{
    Some(Counts {
        upper: decimal(first)?,
        lower: decimal(second)?,
    })
}

// A line of three fields: the word, and two numbers. None where the line is no header of that word.
pub fn header(line: &[u8], word: &[u8]) -> Option<Counts>
    ensures { counts_of result ≡ header_of word.now (fields line.now) }
{
    if field_count(line) == 3 && same(field(line, 0), word) {
        return both_counts(field(line, 1), field(line, 2));
    }
    None
}

// The part of a line from field k on; the empty part at the end where there are not so many.
pub fn from_field(line: &[u8], k: usize) -> &[u8]
    ensures { result.now ≡ drop (field_start line.now k) line.now }
{
    let at = field_start(line, k);
    part(line, at, line.len())
}

// Whether a field spells no term.
fn misspelt_field(f: &[u8]) -> bool
    ensures { result ≡ Passes.misspelt f.now }
{
    spelled(f).is_err()
}

// Whether some field of a part spells no term.
fn misspelt_in(part: &[u8]) -> bool
    ensures { result ≡ any Passes.misspelt (fields part.now) }
{
    part.split(|b| *b == b'\t').any(|f| misspelt_field(f))
}

// Number 4 on the fields from number k on.
pub fn misspelt(line: &[u8], k: usize) -> bool
    ensures { result ≡ absent (terms_of (drop k (fields line.now))) }
{
    k < field_count(line) && misspelt_in(from_field(line, k))
}

// Whether an identifier of a field is too long or inside too many brackets.
fn big_field(f: &[u8]) -> bool
    ensures { result ≡ too_big f.now }
{
    first_big(f) < f.len()
}

// Whether some field of a part has such an identifier. A chain of its own beside `misspelt_in`: a chain proves where the clause
// mirrors it with the test by name.
fn big_in(part: &[u8]) -> bool
    ensures { result ≡ any too_big (fields part.now) }
{
    part.split(|b| *b == b'\t').any(|f| big_field(f))
}

// Number 5 on the terms of the fields from number k on: an identifier that is too long, or a level that is too high. Its own function
// beside `misspelt`: the clauses differ, since this one speaks only of fields that all spell terms.
pub fn oversized(line: &[u8], k: usize) -> bool
    ensures { (ts : List Term) → terms_of (drop k (fields line.now)) ≡ some ts → result ≡ any big_node (nodes ts) }
{
    k < field_count(line) && big_in(from_field(line, k))
}
