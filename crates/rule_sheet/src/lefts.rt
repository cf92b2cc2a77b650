// The arguments of a left agent are entered on the sheet: as many places as an agent may have arguments, free ones past its arity.
ghost use Rattle.std.specs.Prelude.{◌≡◌, ◌+◌, ◌%◌, ◌<◌, ◌≤◌, length};
ghost use Rattle.parts.specs.Limits.{text_max, arity_max, net_names_max};
ghost use Rattle.terms.specs.Sheet.{view};
ghost use Rattle.rule_sheet.specs.Lefts.{next_place, next_sheet, Entered};

use parts::{Limits, NameNo};
use scan::words::{word_end, word_start};
use terms::sheet::{Sheet, enter_name, names};

// A cast alone asks for a proof that the number fits.
// A place or a length of a text that has at most as many bytes as a text may have.
fn low(n: usize) -> u16
    ensures { result ≡ n % text_max }
{
    (n % Limits::TEXT) as u16
}

// The next name: the word from a place on where there is one more argument; else a free place, which no word is. The place after it.
fn enter_next(text: &[u8], at: usize, more: bool, sheet: &mut [u16; Sheet::SIZE]) -> usize
    requires { (view sheet.old).names < net_names_max }
    ensures value { result ≡ next_place text.now at more }
    ensures sheet_after { view sheet.new ≡ next_sheet text.now at more (view sheet.old) }
{
    let k = names(sheet);
    if more {
        let from = word_start(text, at);
        let to = word_end(text, from);
        enter_name(sheet, NameNo(k), low(from), low(to - from));
        return to;
    }
    enter_name(sheet, NameNo(k), 0, 0);
    at
}

// The n words from a place on, and free places behind them.
pub fn enter_left(text: &[u8], at: usize, n: usize, sheet: &mut [u16; Sheet::SIZE])
    requires { (view sheet.old).names + arity_max ≤ net_names_max }
    ensures { Entered text.now at n (view sheet.old) (view sheet.new) }
{
    let mut from = at;
    for i in 0..Limits::ARITY {
        from = enter_next(text, from, i < n, sheet);
    }
}
