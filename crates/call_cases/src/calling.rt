// Steps, runs and answers, and what each call says.
use crate::fields::{letter, number, word};
use crate::orders::orders;
use answer::{End, read_answer};
use machine::calls::{Ran, run, step};
use machine::outcome::Stop;
use parts::Limits;
use parts::faults::Fault;
use std::io;

fn stepped(rt: &impl Print, a: Result<(), Fault>) -> io::Result<()> {
    match a {
        Ok(()) => print!(rt; "\tmoved"),
        Err(fault) => print!(rt; "\t{}", u8::from(fault)),
    }
}

fn ran(rt: &impl Print, a: Result<Ran, Fault>) -> io::Result<()> {
    match a {
        Ok(Ran { stop, made }) => stopped(rt, stop, made),
        Err(fault) => print!(rt; "\t{}", u8::from(fault)),
    }
}

fn stopped(rt: &impl Print, stop: Stop, made: u32) -> io::Result<()> {
    match stop {
        Stop::Ended => print!(rt; "\tended {made}"),
        Stop::Paused => print!(rt; "\tpaused {made}"),
        Stop::NoRoom => print!(rt; "\tnoroom {made}"),
    }
}

fn given(rt: &impl Print, a: Result<End, Fault>) -> io::Result<()> {
    match a {
        Ok(
            End {
                length,
                loops,
                stuck,
                knot,
            },
        ) => print!(rt; "read {length} {loops} {stuck} {knot}"),
        Err(fault) => print!(rt; "{}", u8::from(fault)),
    }
}

// All bytes of the output are printed, also those after the answer.
fn answered(
    rt: &impl Print,
    table: &[u8; Limits::TABLE],
    state: &[u16; Limits::STATE],
    bytes: &mut [u8],
) -> io::Result<()> {
    given(rt, read_answer(table, state, bytes))?;
    println!(rt)?;
    rt.write_all(bytes)?;
    println!(rt)
}

// `answer` and the length of an output, which is full of one byte before.
fn answer(
    rt: &impl Print,
    line: &[u8],
    table: &[u8; Limits::TABLE],
    state: &[u16; Limits::STATE],
) -> io::Result<()> {
    let mut bytes = [b'.'; 64];
    let n = usize::from(word(line, 1)).min(bytes.len());
    answered(rt, table, state, &mut bytes[..n])
}

// `step` and a pick, `run` and a budget, or another call.
pub fn call(
    rt: &impl Print,
    line: &[u8],
    table: &[u8; Limits::TABLE],
    state: &mut [u16; Limits::STATE],
) -> io::Result<()> {
    match letter(line) {
        b's' => stepped(rt, step(table, state, word(line, 1))),
        b'r' => ran(rt, run(table, state, number(line, 1))),
        b'a' => answer(rt, line, table, state),
        _ => orders(rt, line, table, state),
    }
}
