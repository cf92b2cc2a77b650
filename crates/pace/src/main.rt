// Runs one net as often as the first argument says, with the budget that the second gives, and prints the interactions of each run: a
// program to be timed from outside.
#![tactic(auto)]

use files::read_file;
use parts::Limits;
use std::io;
use std::rt::{Env, Files};

// As many bytes as the longest argument that is looked at.
const WORD: usize = 4096;

// An argument of up to four digits; 0 for any other.
fn argument(rt: &impl Env, i: usize) -> usize {
    let mut word = [0u8; WORD];
    let Ok(n) = rt.arg(i, &mut word) else {
        return 0;
    };
    scan::numbers::decimal(&word[..n]).unwrap_or(0)
}

// A text that is refused leaves the empty table, and the empty state.
fn table(rt: &impl Files) -> [u8; Limits::TABLE] {
    let mut made = table::writing::empty_table();
    let mut text = [0u8; Limits::TEXT];
    let n = read_file(rt, b"rules.txt", &mut text);
    let _ = rules::read_rules(&text[..n], &mut made);
    made
}

fn net(rt: &impl Files, table: &[u8; Limits::TABLE]) -> [u16; Limits::STATE] {
    let mut made = state::empty();
    let mut text = [0u8; Limits::TEXT];
    let n = read_file(rt, b"net.txt", &mut text);
    let _ = nets::read_net(&text[..n], table, &mut made);
    made
}

// The interactions of one run of a copy of the state; 0 where it is refused.
fn once(table: &[u8; Limits::TABLE], first: &[u16; Limits::STATE], budget: u32) -> u32 {
    let mut state = *first;
    machine::calls::run(table, &mut state, budget).map_or(0, |ran| ran.made)
}

// The budget is given in thousands.
fn budget(rt: &impl Env) -> u32 {
    let k = argument(rt, 2);
    if k <= 1000 { 1000 * (k as u32) } else { 0 }
}

fn repeat(
    rt: &impl Print,
    table: &[u8; Limits::TABLE],
    first: &[u16; Limits::STATE],
    times: usize,
    budget: u32,
) -> io::Result<()> {
    for _ in 0..times {
        println!(rt; "{}", once(table, first, budget))?;
    }
    Ok(())
}

fn main(rt: HostRuntime) -> io::Result<()> {
    let table = table(&rt);
    let first = net(&rt, &table);
    repeat(&rt, &table, &first, argument(&rt, 1), budget(&rt))
}
