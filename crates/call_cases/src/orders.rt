// The same wires in every order of picks.
ghost use Rattle.std.specs.Prelude.{◌<◌};

use crate::fields::{count, number, word};
use machine::calls::step;
use parts::{Limits, NameNo};
use state::{Layout, Part, Pile};
use std::io;

// Equation k that waits, its sides exchanged.
fn turn(state: &mut [u16; Limits::STATE], k: usize)
    requires { k < 8 }
{
    let at = Layout::WAITING_AT + 2 * k;
    state.swap(at, at + 1);
}

// Bit k of a mask says whether equation k is written with its sides exchanged.
fn turned(first: &[u16; Limits::STATE], mask: u16) -> [u16; Limits::STATE] {
    let mut s = *first;
    let mut m = mask;
    for k in 0..8 {
        if m % 2 == 1 {
            turn(&mut s, k);
        }
        m /= 2;
    }
    s
}

// Makes the picks that a number stands for, at most eight of them, and answers whether nothing waits then.
fn walk(table: &[u8; Limits::TABLE], state: &mut [u16; Limits::STATE], order: u16) -> bool {
    let mut q = order;
    for _ in 0..8 {
        let w = state::count(state, Pile::Waits);
        if w == 0 {
            return true;
        }
        if step(table, state, q % w).is_err() {
            return false;
        }
        q /= w;
    }
    false
}

// Whether a state has so many loops, names and stuck pairs, and its first name such a word.
fn left_over(line: &[u8], state: &[u16; Limits::STATE]) -> bool {
    state::loops(state) == number(line, 3)
        && state::in_use(state, Part::Names) == count(line, 4)
        && state::count(state, Pile::Stucks) == word(line, 5)
        && state::name_word(state, NameNo(0)) == word(line, 6)
}

// Whether an order leaves what it should.
fn one_order(
    line: &[u8],
    table: &[u8; Limits::TABLE],
    first: &[u16; Limits::STATE],
    order: u16,
) -> bool {
    let mut s = turned(first, word(line, 1));
    walk(table, &mut s, order) && left_over(line, &s)
}

// `orders`, a mask, a number of orders, and what each should leave: of that many orders, how many do.
pub fn orders(
    rt: &impl Print,
    line: &[u8],
    table: &[u8; Limits::TABLE],
    first: &[u16; Limits::STATE],
) -> io::Result<()> {
    let good = (0..word(line, 2))
        .filter(|order| one_order(line, table, first, *order))
        .count();
    print!(rt; " {good}")
}
