// The test of the stuck pairs: each is of two cells with no rule.
#![tactic(auto)]

ghost use Rattle.std.specs.Prelude.{◌≡◌, ◌<◌, pred, get_or};
ghost use Rattle.parts.specs.Limits.{symbols_max, stuck_max};
ghost use Rattle.model.specs.State.{listed};
ghost use Rattle.model.specs.Sound.{Sizes, mem_of};
ghost use Rattle.model.specs.Test.{is_none, unruled};
ghost use Rattle.model.specs.Table.{find};
ghost use Rattle.state.specs.Layout.{view};
ghost use Rattle.sound.specs.Lent.{under, Symbols};
ghost use Rattle.stuck_pairs.specs.Pairs.{held};

use parts::{CellNo, Limits, Side, SymbolNo};
use sound::usable::{Lent, UsableTable};
use state::{Part, Pile, count, equation_at, read};
use table::reading::look_up;

// The symbol of a cell; 0 for one that is not in use.
// Beside `symbol_on` of crates/loading and `symbol_at` of crates/machine: a state that is tested has codes out of range too.
fn symbol_of(state: &[u16; Limits::STATE], c: CellNo) -> SymbolNo
    requires { Symbols (view state.now) }
    ensures { (result.0 ≡ pred (get_or (view state.now).symbols c.0 0)) × (result.0 < symbols_max) }
{
    let i = usize::from(c.0);
    if i < Limits::CELLS {
        SymbolNo(read(state, Part::Symbols, i).saturating_sub(1))
    } else {
        SymbolNo(0)
    }
}

fn no_rule(table: UsableTable, a: SymbolNo, b: SymbolNo) -> bool
    requires { (a.0 < symbols_max) × (b.0 < symbols_max) }
    ensures { result ≡ is_none (find (under table.entry.bytes.now).rules 0 a.0 b.0) }
{
    look_up(table.bytes, a, b).is_none()
}

// Stuck pair number k from the start is of two cells with no rule.
fn held(lent: Lent, k: u16) -> bool
    requires { Symbols (view lent.state.now) × (k < stuck_max) }
    ensures { result ≡ held (under lent.entry.table.bytes.now) (view lent.entry.state.now) k }
{
    let e = equation_at(lent.state, Pile::Stucks, k);
    let Side::Cell(a) = e.left else {
        return false;
    };
    let Side::Cell(b) = e.right else {
        return false;
    };
    no_rule(
        lent.table,
        symbol_of(lent.state, a),
        symbol_of(lent.state, b),
    )
}

// "no stuck pair has a rule"
// `Sizes` stays a clause: it is what a test before this one found of the same state.
pub fn unruled(lent: Lent) -> bool
    requires { Symbols (view lent.state.now) × Sizes (view lent.state.now) }
    ensures { result ≡ unruled (under lent.entry.table.bytes.now).rules (mem_of (under lent.entry.table.bytes.now) (view lent.entry.state.now)) (listed (view lent.entry.state.now).stuck) }
{
    (0..count(lent.state, Pile::Stucks)).all(|k| held(lent, k))
}
