// Reads `rules.txt` and `net.txt`, and prints what the evaluator makes of them.
#![tactic(auto)]

use evaluation::evaluate;
use evaluation::sizes::Output;
use files::read_file;
use parts::Limits;
use std::io;

// One byte more than a text may have is looked for.
const LOOKED_FOR: usize = Limits::TEXT + 1;

fn main(rt: HostRuntime) -> io::Result<()> {
    let mut rules = [0u8; LOOKED_FOR];
    let mut net = [0u8; LOOKED_FOR];
    let r = read_file(&rt, b"rules.txt", &mut rules);
    let n = read_file(&rt, b"net.txt", &mut net);
    let mut out = [0u8; Output::SIZE];
    let k = evaluate(&rules[..r], &net[..n], &mut out);
    rt.write_all(&out[..k])
}
