// A state on one line: what waits and what is stuck from the head, the interface, the loops, the cells and the names in use.
ghost use Rattle.std.specs.Prelude.{◌<◌};
ghost use Rattle.parts.specs.Limits.{cells_max, names_max};

use crate::fields::letter;
use parts::{CellNo, Limits, NameNo, Side};
use scan::cutting::field_start;
use state::{Layout, Part, Pile};
use std::io;
use terms::words::part;

// A side by its code: `x` and a name's number, or `c` and a cell's.
fn side(rt: &impl Print, code: u16) -> io::Result<()> {
    match Side::from(code) {
        Side::Name(NameNo(n)) => print!(rt; " x{n}"),
        Side::Cell(CellNo(n)) => print!(rt; " c{n}"),
    }
}

// The word at a place of a part, or 0 past the last.
fn word(state: &[u16; Limits::STATE], from: usize, i: usize) -> u16 {
    if from < Limits::STATE && i < Limits::STATE - from {
        state[from + i]
    } else {
        0
    }
}

// Sides, the first first.
fn sides(rt: &impl Print, state: &[u16; Limits::STATE], from: usize, n: u16) -> io::Result<()> {
    for i in 0..n {
        side(rt, word(state, from, usize::from(i)))?;
    }
    Ok(())
}

fn pair_at(rt: &impl Print, state: &[u16; Limits::STATE], from: usize, k: u16) -> io::Result<()> {
    let i = 2 * usize::from(k);
    side(rt, word(state, from, i))?;
    side(rt, word(state, from, i + 1))?;
    print!(rt; ",")
}

// Pairs of sides, the last first.
fn pairs(rt: &impl Print, state: &[u16; Limits::STATE], from: usize, n: u16) -> io::Result<()> {
    for k in (0..n).rev() {
        pair_at(rt, state, from, k)?;
    }
    Ok(())
}

// A cell in use: its number, its symbol and its four codes.
fn cell(rt: &impl Print, state: &[u16; Limits::STATE], c: u16) -> io::Result<()>
    requires { c < cells_max }
{
    let w = state::symbol_word(state, CellNo(c));
    if 0 < w {
        let symbol = w - 1;
        print!(rt; " c{c}:{symbol}")?;
        sides(
            rt,
            state,
            Layout::ARGUMENTS_AT + Limits::ARITY * usize::from(c),
            4,
        )?;
        print!(rt; ",")?;
    }
    Ok(())
}

// A name in use: its number, and what it is tied or joined to.
fn name(rt: &impl Print, state: &[u16; Limits::STATE], x: u16) -> io::Result<()>
    requires { x < names_max }
{
    let w = state::name_word(state, NameNo(x));
    if 0 < w {
        print!(rt; " x{x}")?;
        if 1 < w {
            print!(rt; ":")?;
            side(rt, w - 2)?;
        }
        print!(rt; ",")?;
    }
    Ok(())
}

// The lists of a state.
fn lists(rt: &impl Print, state: &[u16; Limits::STATE]) -> io::Result<()> {
    print!(rt; "\twaits")?;
    pairs(
        rt,
        state,
        Layout::WAITING_AT,
        state::count(state, Pile::Waits),
    )?;
    print!(rt; "\tstuck")?;
    pairs(
        rt,
        state,
        Layout::STUCK_AT,
        state::count(state, Pile::Stucks),
    )?;
    print!(rt; "\tface")?;
    sides(rt, state, Layout::FACE_AT, state::count(state, Pile::Faces))
}

// `view`: the whole state.
fn view(rt: &impl Print, state: &[u16; Limits::STATE]) -> io::Result<()> {
    lists(rt, state)?;
    let loops = state::loops(state);
    print!(rt; "\tloops {loops}\tcells")?;
    for c in 0..Limits::CELLS {
        cell(rt, state, c as u16)?;
    }
    print!(rt; "\tnames")?;
    for x in 0..Limits::NAMES {
        name(rt, state, x as u16)?;
    }
    println!(rt)
}

// `counts`: how many there are of each, where a whole state is too long for a line.
fn counts(rt: &impl Print, state: &[u16; Limits::STATE]) -> io::Result<()> {
    let waits = state::count(state, Pile::Waits);
    let stuck = state::count(state, Pile::Stucks);
    let loops = state::loops(state);
    let cells = state::in_use(state, Part::Symbols);
    let names = state::in_use(state, Part::Names);
    println!(rt; "\twaits {waits}\tstuck {stuck}\tloops {loops}\tcells {cells}\tnames {names}")
}

// `print` and what is printed, tabs too.
fn print(rt: &impl Print, line: &[u8]) -> io::Result<()> {
    rt.write_all(part(line, field_start(line, 1), Limits::TEXT))
}

pub fn show(rt: &impl Print, line: &[u8], state: &[u16; Limits::STATE]) -> io::Result<()> {
    match letter(line) {
        b'p' => print(rt, line),
        b'v' => view(rt, state),
        b'c' => counts(rt, state),
        _ => println!(rt),
    }
}
