// New names and new cells take the lowest free numbers.
ghost use Rattle.std.specs.Prelude.{◌≡◌, ◌+◌, ◌<◌, set};
ghost use Rattle.parts.specs.Limits.{rule_names_max};
ghost use Rattle.state.specs.Layout.{view};
ghost use Rattle.state.specs.Places.{stored};
ghost use Rattle.state.specs.Moves.{free_from};
ghost use Rattle.state.specs.declared.Part.{Part};
ghost use Rattle.firing.specs.Frames.{names_at, cells_at};
ghost use Rattle.firing.specs.Built.{names_of, cells_of, symbol_word};
ghost use Rattle.firing.specs.Taken.{Takeable, Passed, taken_on, entered, name_code, cell_code};

use crate::Frame;
use crate::lent_rule::LentRule;
use parts::{CellNo, Limits, NameNo};
use state::Part;
use table::reading::{cell_count, name_count, node_symbol};

// One name more, set bare and entered as new name i.
fn take_name(
    state: &mut [u16; Limits::STATE],
    frame: &mut [u16; Frame::SIZE],
    i: usize,
    low: u16,
) -> u16
    requires { Takeable Part.Names 1 low (view state.old) × (i < rule_names_max) }
    ensures value { result ≡ free_from low (view state.old).names + 1 }
    ensures state_after { view state.new
        ≡ stored Part.Names (free_from low (view state.old).names) 1 (view state.old) }
    ensures frame_after { frame.new
        ≡ set frame.old (names_at + i) (name_code (free_from low (view state.old).names)) }
{
    let x = state::lowest_free(state, Part::Names, usize::from(low)) as u16;
    state::set_name_word(state, NameNo(x), 1);
    frame[Frame::NAMES_AT + i] = 2 * x;
    x + 1
}

// One cell more, with its symbol, entered as cell m.
// Beside `take_name`: a cell takes its symbol too, in another part of the state and of the frame.
fn take_cell(
    rule: LentRule<'_>,
    state: &mut [u16; Limits::STATE],
    frame: &mut [u16; Frame::SIZE],
    m: usize,
    low: u16,
) -> u16
    requires { Takeable Part.Symbols 1 low (view state.old) × (m < cells_of rule.table.now rule.number) }
    ensures value { result ≡ free_from low (view state.old).symbols + 1 }
    ensures state_after { view state.new
        ≡ stored Part.Symbols (free_from low (view state.old).symbols)
        (symbol_word rule.entry.table.now rule.entry.number m) (view state.old) }
    ensures frame_after { frame.new
        ≡ set frame.old (cells_at + m) (cell_code (free_from low (view state.old).symbols)) }
{
    let c = state::lowest_free(state, Part::Symbols, usize::from(low)) as u16;
    let s = node_symbol(rule.table, rule.number, m);
    state::set_symbol_word(state, CellNo(c), s.0 + 1);
    frame[Frame::CELLS_AT + m] = 1 + 2 * c;
    c + 1
}

// The new names of a rule. The answer is a number below which no name is free.
pub fn take_names(
    rule: LentRule<'_>,
    state: &mut [u16; Limits::STATE],
    frame: &mut [u16; Frame::SIZE],
    low: u16,
) -> u16
    requires { Takeable Part.Names (names_of rule.table.now rule.number) low (view state.old) }
    ensures state_after { view state.new
        ≡ taken_on Part.Names (λ i. 1) (names_of rule.entry.table.now rule.entry.number) (view state.old) }
    ensures frame_after { frame.new
        ≡ entered Part.Names names_at name_code (names_of rule.entry.table.now rule.entry.number) (view state.old)
        frame.old }
    ensures passed { Passed Part.Names (names_of rule.entry.table.now rule.entry.number) result (view state.old) (view state.new) }
{
    let n = usize::from(name_count(rule.table, rule.number));
    let mut from = low;
    for i in 0..n {
        from = take_name(state, frame, i, from);
    }
    from
}

// The cells of a rule, with their symbols.
pub fn take_cells(
    rule: LentRule<'_>,
    state: &mut [u16; Limits::STATE],
    frame: &mut [u16; Frame::SIZE],
    low: u16,
) -> u16
    requires { Takeable Part.Symbols (cells_of rule.table.now rule.number) low (view state.old) }
    ensures state_after { view state.new
        ≡ taken_on Part.Symbols (symbol_word rule.entry.table.now rule.entry.number) (cells_of rule.entry.table.now rule.entry.number)
        (view state.old) }
    ensures frame_after { frame.new
        ≡ entered Part.Symbols cells_at cell_code (cells_of rule.entry.table.now rule.entry.number) (view state.old)
        frame.old }
    ensures passed { Passed Part.Symbols (cells_of rule.entry.table.now rule.entry.number) result (view state.old) (view state.new) }
{
    let mut from = low;
    for m in 0..usize::from(cell_count(rule.table, rule.number)) {
        from = take_cell(rule, state, frame, m, from);
    }
    from
}
