// Plays the scripts of data/: calls of the library on tables and states made by hand, damaged ones among them. A line of a script
// says what to do by its first letter; data/README.txt has them all.
#![tactic(auto)]

use files::read_file;
use parts::Limits;
use std::io;
use std::rt::Files;

mod fields; // fields.rt: what the fields of a line say
mod making; // making.rt: tables and states
mod judging; // judging.rt: the two soundness tests
mod calling; // calling.rt: steps, runs and answers
mod orders; // orders.rt: the same wires in every order of picks
mod showing; // showing.rt: a state on one line

// A line is told by a byte of a script: a match on it is plainer than a table of closures.
// What one line says. A line with any other letter says nothing.
fn obey<R: Files + Print>(
    rt: &R,
    line: &[u8],
    table: &mut [u8; Limits::TABLE],
    state: &mut [u16; Limits::STATE],
) -> io::Result<()> {
    match fields::letter(line) {
        b't' | b'n' | b'b' | b'w' | b'f' => making::make(rt, line, table, state),
        b'g' | b'l' | b'h' | b'd' => judging::judge(rt, line, table, state)?,
        b's' | b'r' | b'a' | b'o' => calling::call(rt, line, table, state)?,
        b'p' | b'v' | b'c' | b'e' => showing::show(rt, line, state)?,
        _ => {}
    }
    Ok(())
}

// A line that fills the whole script is not played.
fn play_lines<R: Files + Print>(
    rt: &R,
    script: &[u8],
    table: &mut [u8; Limits::TABLE],
    state: &mut [u16; Limits::STATE],
) -> io::Result<()> {
    for line in script.split(|b| *b == b'\n') {
        if line.len() < Limits::TEXT {
            obey(rt, line, table, state)?;
        }
    }
    Ok(())
}

// A script begins with an empty table and an empty state.
fn play<R: Files + Print>(rt: &R, name: &[u8]) -> io::Result<()> {
    let mut table = table::writing::empty_table();
    let mut state = state::empty();
    let mut script = [0u8; Limits::TEXT];
    let n = read_file(rt, name, &mut script);
    play_lines(rt, &script[..n], &mut table, &mut state)
}

fn main(rt: HostRuntime) -> io::Result<()> {
    play(&rt, b"sound.txt")?;
    play(&rt, b"steps.txt")?;
    play(&rt, b"wires.txt")?;
    play(&rt, b"rooms.txt")?;
    play(&rt, b"answers.txt")
}
