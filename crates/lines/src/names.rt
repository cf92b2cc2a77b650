// The new names of a part of a text, entered on a sheet by first occurrence.
ghost use Rattle.std.specs.Prelude.{◌≡◌, ◌≤◌};
ghost use Rattle.parts.specs.Limits.{net_names_max};
ghost use Rattle.terms.specs.Agents.{agents_of};
ghost use Rattle.terms.specs.Reader.{done};
ghost use Rattle.terms.specs.Sheet.{view};
ghost use Rattle.lines.specs.Names.{between, room_for, new_by, word_by, Entered};

use crate::words::declared;
use parts::{Limits, NameNo};
use scan::words::{word_end, word_start};
use terms::sheet::Sheet;
use terms::words::{find_name, part};
use terms::{Source, sheet};

// Whether a name can be entered after n others: they are fewer than the limit, and its place and its length are in bounds.
// `name_fits` of crates/terms is the same at the limit of a net: three tests in a line are shorter than a call across crates with a limit.
#[tactic(auto, unfolding(crate::specs::Names::room_for))]
fn room(limit: u16, n: u16, at: usize, long: usize) -> bool
    ensures { result ≡ room_for limit n at long }
{
    n < limit && at < Limits::TEXT && long <= Limits::IDENTIFIER
}

// The name that stands from `at` to `end`, entered if it is not on the sheet. False where there is no room for it.
fn enter_new(text: &[u8], at: usize, end: usize, limit: u16, sheet: &mut [u16; Sheet::SIZE]) -> bool
    requires { (at ≤ end) × (limit ≤ net_names_max) }
    ensures { done result (view sheet.new) ≡ new_by text.now limit at end (view sheet.old) }
{
    let n = sheet::names(sheet);
    if limit < n {
        return false;
    }
    let long = end - at;
    let word = part(text, at, long);
    if find_name(text, sheet, n, word) < n {
        return true;
    }
    let free = room(limit, n, at, long);
    if free {
        sheet::enter_name(sheet, NameNo(n), at as u16, long as u16);
    }
    free
}

// The word that stands from `at` to `end`: an agent's is left out, another is a name.
fn enter_word(
    source: Source<'_>,
    at: usize,
    end: usize,
    limit: u16,
    sheet: &mut [u16; Sheet::SIZE],
) -> bool
    requires { (at ≤ end) × (limit ≤ net_names_max) }
    ensures { done result (view sheet.new) ≡ word_by source.entry.text.now (agents_of source.entry.agents.now) limit at end (view sheet.old) }
{
    let word = part(source.text, at, end - at);
    declared(word, source.agents) || enter_new(source.text, at, end, limit, sheet)
}

// Enters the names among the words of a text from `from` to `to`. True where the names on the sheet are then at most as
// many as the limit.
pub fn enter_names(
    source: Source<'_>,
    from: usize,
    to: usize,
    limit: u16,
    sheet: &mut [u16; Sheet::SIZE],
) -> bool
    requires { (from ≤ to) × (limit ≤ net_names_max) }
    ensures { Entered source.entry.text.now (agents_of source.entry.agents.now) limit (between source.entry.text.now from to) result (view sheet.old) (view sheet.new) }
{
    if limit < sheet::names(sheet) {
        return false;
    }
    let words = part(source.text, 0, to);
    let mut at = from;
    // A step is a whole word, and where it stands in the text is written on the sheet: pieces of a split have no place.
    while at < words.len() {
        let s = word_start(words, at);
        if words.len() <= s {
            return true;
        }
        let e = word_end(words, s);
        if !enter_word(source, s, e, limit, sheet) {
            return false;
        }
        at = e;
    }
    true
}
