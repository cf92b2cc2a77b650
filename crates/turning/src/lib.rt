// A rule of a symbol with itself reads the same from both sides.
#![tactic(auto)]

ghost use Rattle.std.specs.Prelude.{◌≡◌, ◌&&◌, ◌+◌, ◌*◌, ◌-◌, ◌<◌, ◌≤◌, get_or, eqb, List};
ghost use Rattle.texts.specs.Books.{Agent};
ghost use Rattle.parts.specs.Limits.{rule_equations_max};
ghost use Rattle.parts.specs.Sides.{code, side};
ghost use Rattle.texts.specs.Bytes.{any};
ghost use Rattle.texts.specs.TableTest.{turned_side, turns_to, is_two_sided};
ghost use Rattle.table.specs.Lists.{tab};
ghost use Rattle.table.specs.Layout.{equation_of, entry_of};

use parts::Limits;
use table::Layout;

// The code of the argument with the same number in the other list; a cell stays.
fn turned_code(x: u8) -> u8
    ensures { result ≡ code (turned_side (side x)) }
{
    if x % 2 == 1 {
        return x;
    }
    // A code is twice the number, and the second list begins with number Limits::ARITY.
    let step = (2 * Limits::ARITY) as u8;
    if x < step {
        return x + step;
    }
    x - step
}

// Equation i, turned, is equation j.
fn turns(row: &[u8; Limits::RULE], i: usize, j: usize) -> bool
    requires { (i < rule_equations_max) × (j < rule_equations_max) }
    ensures { result ≡ turns_to (equation_of row.now i) (equation_of row.now j) }
{
    let a = turned_code(row[Layout::SIDES_IN + 2 * i]);
    let b = turned_code(row[Layout::SIDES_IN + (1 + 2 * i)]);
    let c = row[Layout::SIDES_IN + 2 * j];
    let d = row[Layout::SIDES_IN + (1 + 2 * j)];
    (a == c && b == d) || (a == d && b == c)
}

// Some equation is equation i, turned.
fn any_turn(row: &[u8; Limits::RULE], i: usize) -> bool
    requires { (get_or row.now 2 0 ≤ rule_equations_max) × (i < rule_equations_max) }
    ensures { result ≡ any (turns_to (equation_of row.now i)) (tab (get_or row.now 2 0) (equation_of row.now)) }
{
    (0..usize::from(row[2])).any(|j| turns(row, i, j))
}

// The whole test: no cells, no new names, and each equation, turned, is one of them.
// The bound on the equations stays a requires: a struct for it, built by each caller, would be no plainer.
pub fn two_sided(row: &[u8; Limits::RULE]) -> bool
    requires { get_or row.now 2 0 ≤ rule_equations_max }
    ensures { (ags : List Agent) → result ≡ is_two_sided (entry_of ags row.now) }
{
    row[3] == 0 && row[4] == 0 && (0..usize::from(row[2])).all(|i| any_turn(row, i))
}
