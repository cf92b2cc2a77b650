// Runs each case that `index.txt` names: through the two readers, whose answers are printed, and through the evaluator, whose output
// is held to the expected one.
#![tactic(auto)]

ghost use Rattle.std.specs.Counts.{IsPrefixLen};

use evaluation::evaluate;
use evaluation::sizes::Output;
use files::read_file;
use parts::Limits;
use printing::leaves::put_bytes;
use std::io;
use std::rt::Files;

mod readers; // readers.rt: what the two readers answer

const NAME: usize = 60;

const PATH: usize = 80;

// One byte more than a text may have, and than an output, is looked for.
const LOOKED_FOR: usize = Limits::TEXT + 1;

const EXPECTED: usize = Output::SIZE + 1;

// The file of a case: its name, and an ending of at most 16 bytes.
fn read_part<R: Files>(rt: &R, name: &[u8], ending: &[u8], text: &mut [u8]) -> usize
    ensures { IsPrefixLen result text.new }
{
    let mut path = [0u8; PATH];
    if NAME < name.len() || 16 < ending.len() {
        return 0;
    }
    let a = put_bytes(&mut path, 0, name);
    let b = put_bytes(&mut path, a, ending);
    read_file(rt, &path[..b], text)
}

// The answers to a case, and whether its output is as expected. An output is never empty, so a case without an expected one differs.
fn agrees<R: Files + Print>(rt: &R, name: &[u8]) -> io::Result<bool> {
    let mut rules = [0u8; LOOKED_FOR];
    let mut net = [0u8; LOOKED_FOR];
    let mut expected = [0u8; EXPECTED];
    let r = read_part(rt, name, b".rules", &mut rules);
    let n = read_part(rt, name, b".net", &mut net);
    let e = read_part(rt, name, b".expected", &mut expected);
    readers::read_both(rt, &rules[..r], &net[..n])?;
    let mut out = [0u8; Output::SIZE];
    let k = evaluate(&rules[..r], &net[..n], &mut out);
    Ok(out[..k] == expected[..e])
}

// One case, and whether it differs.
fn try_case<R: Files + Print>(rt: &R, name: &[u8]) -> io::Result<bool> {
    rt.write_all(name)?;
    let differs = !agrees(rt, name)?;
    if differs {
        println!(rt; ", differs")?;
    } else {
        println!(rt; ", as expected")?;
    }
    Ok(differs)
}

// Each newline ends the name of a case.
fn try_all<R: Files + Print>(rt: &R, index: &[u8]) -> io::Result<()> {
    let cases = index.iter().filter(|b| **b == b'\n').count();
    let mut differ: usize = 0;
    for name in index.split(|b| *b == b'\n').take(cases) {
        differ = differ.saturating_add(usize::from(try_case(rt, name)?));
    }
    match index.last() {
        None | Some(b'\n') => println!(rt; "{cases} cases, {differ} differ"),
        Some(_) => println!(rt; "index unended"),
    }
}

fn main(rt: HostRuntime) -> io::Result<()> {
    let mut index = [0u8; Limits::TEXT];
    let n = read_file(&rt, b"index.txt", &mut index);
    try_all(&rt, &index[..n])?;
    readers::read_damaged(&rt)
}
