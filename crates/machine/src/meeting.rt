// Two cells of a picked equation: their rule, the room that it takes, and the interaction; or they are stuck.
ghost use Rattle.std.specs.Prelude.{◌≡◌, ◌+◌, ◌-◌, ◌<◌};
ghost use Rattle.parts.specs.Limits.{rules_max};
ghost use Rattle.model.specs.Step.{symbol_of, rule_of};
ghost use Rattle.state.specs.Layout.{view};
ghost use Rattle.table.specs.Rule.{matched};
ghost use Rattle.table.specs.Layout.{entry_at};
ghost use Rattle.sound.specs.Lent.{under};
ghost use Rattle.kept.specs.Right.{Right};
ghost use Rattle.machine.specs.Meets.{InUse, Symbolled, Countable, room_test, Stickable, stuck_on, Interactable, Interacting, Meetable, Meeting};

use crate::outcome::{Made, Stop};
use firing::lent_rule::LentRule;
use firing::pairs::fire;
use kept::Kept;
use parts::{CellNo, Equation, Limits, Side, SymbolNo};
use state::Pile;
use table::Match;
use table::reading::{cell_count, equation_count, look_up, name_count};

// The symbol of a cell in use.
// Of a cell in use, so with none of the cases of `symbol_on` (crates/loading) and `symbol_of` (crates/stuck_pairs).
fn symbol_at(state: &[u16; Limits::STATE], c: CellNo) -> SymbolNo
    requires { InUse c.0 (view state.now) }
    ensures { result.0 ≡ symbol_of c.0 (view state.now) }
{
    SymbolNo(state::symbol_word(state, c) - 1)
}

// The rule of two cells.
fn rule_for(
    table: &[u8; Limits::TABLE],
    state: &[u16; Limits::STATE],
    a: CellNo,
    b: CellNo,
) -> Option<Match>
    requires { Symbolled table.now a.0 b.0 (view state.now) }
    ensures { result ≡ matched (rule_of (under table.now) a.0 b.0 (view state.now)) }
{
    let left = symbol_at(state, a);
    let right = symbol_at(state, b);
    look_up(table, left, right)
}

// Whether there is room for an interaction by a rule, where so many equations wait beside the picked one.
fn room(table: &[u8; Limits::TABLE], rule: u16, waits: u16, k: Kept) -> bool
    requires { (rule < rules_max) × Countable waits k }
    ensures { result ≡ room_test table.now rule waits k }
{
    let cells = k.cells - 2 + u16::from(cell_count(table, rule));
    let names = k.names + u16::from(name_count(table, rule));
    let equations = waits + u16::from(equation_count(table, rule));
    cells <= (Limits::CELLS as u16)
        && names <= (Limits::NAMES as u16)
        && equations <= (Limits::WAITING as u16)
}

// "pair goes to the head of the stuck list"
fn stick(state: &mut [u16; Limits::STATE], place: u16, a: CellNo, b: CellNo)
    requires { Stickable a.0 b.0 place (view state.old) }
    ensures { view state.new ≡ stuck_on a.0 b.0 place (view state.old) }
{
    let e = Equation {
        left: Side::Cell(a),
        right: Side::Cell(b),
    };
    state::take_out(state, place);
    state::put_at_head(state, Pile::Stucks, e);
}

// The two cells, the place of their equation and what is kept are of one state behind a `&mut`, so the facts on them stand in the clauses.
// An interaction, if it may be made and there is room.
fn interact(
    table: &[u8; Limits::TABLE],
    state: &mut [u16; Limits::STATE],
    place: u16,
    rule: u16,
    a: CellNo,
    b: CellNo,
    may: bool,
    k: Kept,
) -> Result<Made, Stop>
    requires { Interactable table.now rule a.0 b.0 place (view state.old) × Right k (view state.old) }
    ensures { Interacting (entry_at table.now rule) may a.0 b.0 place (view state.old) result (view state.new) }
{
    if !may {
        return Err(Stop::Paused);
    }
    let waits = state::count(state, Pile::Waits) - 1;
    if !room(table, rule, waits, k) {
        return Err(Stop::NoRoom);
    }
    state::take_out(state, place);
    let lent = LentRule {
        table,
        number: rule,
    };
    Ok(Made {
        kept: fire(lent, state, a, b, k),
        interacted: true,
    })
}

// "A pair is matched whichever side is which".
pub fn meet_picked(
    table: &[u8; Limits::TABLE],
    state: &mut [u16; Limits::STATE],
    place: u16,
    a: CellNo,
    b: CellNo,
    may: bool,
    k: Kept,
) -> Result<Made, Stop>
    requires { Meetable table.now a.0 b.0 place (view state.old) × Right k (view state.old) }
    ensures { Meeting (under table.now) may a.0 b.0 place (view state.old) result (view state.new) }
{
    match rule_for(table, state, a, b) {
        None => {
            stick(state, place, a, b);
            Ok(Made {
                kept: k,
                interacted: false,
            })
        }
        Some(Match::Straight(i)) => interact(table, state, place, i, a, b, may, k),
        Some(Match::Turned(i)) => interact(table, state, place, i, b, a, may, k),
    }
}
