// Runs the scanning leaves on hostile lines and texts, and prints what each answers. The short lines come from standard
// input, a name and the bytes after a bar; the long ones are made here.
#![tactic(auto)]

ghost use Rattle.std.specs.Prelude.{◌≤◌, IfOk, length};
ghost use Rattle.scan_cases.specs.Within.{Within};

mod made;
mod print;

use files::read_full;
use std::io;

// Room for the text read, and for a field made.
const SPACE: usize = 65536;

fn spelled(rt: &impl Print, field: &[u8]) -> io::Result<()> {
    match field_tests::spelling::spelled(field) {
        Ok(()) => print::word(rt, b"right"),
        Err(at) => print::named(rt, b"wrong", at),
    }
}

fn numbered(rt: &impl Print, field: &[u8]) -> io::Result<()> {
    match scan::numbers::decimal(field) {
        Some(n) => print::named(rt, b"number", n),
        None => print::word(rt, b"number none"),
    }
}

// One line: what every leaf says of the bytes, taken as a line and as a field.
fn case(rt: &impl Print, name: &[u8], bytes: &[u8]) -> io::Result<()> {
    print::start(rt, name)?;
    print::named(rt, b"bytes", bytes.len())?;
    print::named(rt, b"bad", scan::bytes::first_bad(bytes))?;
    print::named(rt, b"fields", scan::cutting::field_count(bytes))?;
    spelled(rt, bytes)?;
    print::named(rt, b"big", field_tests::sizes::first_big(bytes))?;
    numbered(rt, bytes)?;
    print::told(rt, b"identifier", scan::words::identifier(bytes))?;
    print::told(rt, b"symbol", scan::words::symbol(bytes))?;
    print::end(rt)
}

// What the cutters say of a line: where it begins and ends, its fields, the second, whether the first is `agent`.
fn cut(rt: &impl Print, line: &[u8], at: usize, end: usize) -> io::Result<()> {
    print::start(rt, b"line")?;
    print::named(rt, b"at", at)?;
    print::named(rt, b"newline", end)?;
    print::named(rt, b"fields", scan::cutting::field_count(line))?;
    print::named(rt, b"second at", scan::cutting::field_start(line, 1))?;
    print::word(rt, scan::cutting::field(line, 1))?;
    print::told(
        rt,
        b"agent",
        scan::words::same(scan::cutting::field(line, 0), b"agent"),
    )?;
    print::end(rt)
}

// A line of a text: a case where it has a bar, after its name.
fn ended(rt: &impl Print, line: &[u8], at: usize, end: usize) -> io::Result<()> {
    let bar = scan::cutting::find(line, b'|');
    if bar < line.len() {
        case(rt, made::part(line, bar), made::rest(line, bar))
    } else {
        cut(rt, line, at, end)
    }
}

// No further line, or one that is unended.
fn last(rt: &impl Print, word: &[u8], at: usize) -> io::Result<()> {
    print::start(rt, b"line")?;
    print::named(rt, b"at", at)?;
    print::word(rt, word)?;
    print::end(rt)
}

// One line of a text. Answers where it ends.
fn line(rt: &impl Print, text: &[u8], at: usize) -> io::Result<usize>
    requires { at ≤ length text.now }
    ensures { IfOk result (λ end. Within at end text.now) }
{
    match scan::cutting::next_line(text, at) {
        Ok(None) => {
            last(rt, b"nothing", at)?;
            Ok(text.len())
        }
        Err(_) => {
            last(rt, b"unended", at)?;
            Ok(text.len())
        }
        Ok(Some(end)) => {
            ended(rt, scan::cutting::line(text, at), at, end)?;
            Ok(end)
        }
    }
}

// Each line of a text, and what stands after its last newline. The loop stays a `while`: what is tried here is `next_line`, which
// goes on from one line to the next, so a `split` would try something else.
fn lines(rt: &impl Print, text: &[u8]) -> io::Result<()> {
    let mut at: usize = 0;
    while at <= text.len() {
        at = line(rt, text, at)? + 1;
    }
    Ok(())
}

// One byte k times.
fn filled(rt: &impl Print, name: &[u8], b: u8, k: usize) -> io::Result<()> {
    let mut space = [0u8; SPACE];
    let n = made::filled(&mut space, b, k);
    case(rt, name, made::part(&space, n))
}

// A byte inside k brackets, closed or not.
fn nested(rt: &impl Print, name: &[u8], k: usize, b: u8, shut: bool) -> io::Result<()> {
    let mut space = [0u8; SPACE];
    let n = made::nested(k, b, shut, &mut space);
    case(rt, name, made::part(&space, n))
}

fn all_bytes(rt: &impl Print) -> io::Result<()> {
    let mut space = [0u8; SPACE];
    let n = made::all_bytes(&mut space);
    case(rt, b"256 bytes", made::part(&space, n))
}

fn read(rt: &(impl Input + Print)) -> io::Result<()> {
    let mut space = [0u8; SPACE];
    let n = read_full(&mut rt.reader(), &mut space);
    lines(rt, &space[..n])
}

fn main(rt: HostRuntime) -> io::Result<()> {
    read(&rt)?;
    lines(&rt, b"")?;
    lines(&rt, b"rules\t1\t0\nagent\tZ\t0\n")?;
    lines(&rt, b"eq\tZ\t\n\n\t\n")?;
    filled(&rt, b"65536 letters", b'a', 65536)?;
    filled(&rt, b"5000 open brackets", b'(', 5000)?;
    all_bytes(&rt)?;
    nested(&rt, b"64 levels", 63, b'a', true)?;
    nested(&rt, b"65 levels", 64, b'a', true)?;
    nested(&rt, b"5001 levels unclosed", 5000, b'a', false)?;
    nested(&rt, b"5000 levels around a digit", 5000, b'9', true)
}
