// What the two soundness tests say: of what is lent as it is, and with one place changed.
use crate::fields::letter;
use crate::making::{put_byte, put_first};
use parts::Limits;
use scan::cutting::field;
use std::io;

fn told(rt: &impl Print, name: &[u8], sound: bool) -> io::Result<()> {
    rt.write_all(name)?;
    if sound {
        return println!(rt; ": sound");
    }
    println!(rt; ": not sound")
}

// `good` and the name of a case: the table.
fn good(rt: &impl Print, line: &[u8], table: &[u8; Limits::TABLE]) -> io::Result<()> {
    told(rt, field(line, 1), table_test::whole::table_sound(table))
}

// `harmed`, what `byte` says, and the name of a case: the table with one byte changed.
fn harmed(rt: &impl Print, line: &[u8], table: &[u8; Limits::TABLE]) -> io::Result<()> {
    let mut t = *table;
    put_byte(line, &mut t);
    told(rt, field(line, 5), table_test::whole::table_sound(&t))
}

// `lent` and the name of a case: the table and the state.
fn lent(
    rt: &impl Print,
    line: &[u8],
    table: &[u8; Limits::TABLE],
    state: &[u16; Limits::STATE],
) -> io::Result<()> {
    told(rt, field(line, 1), lent::both_sound(table, state))
}

// `damaged`, what `word` says of one word, and the name of a case: the table, and the state with that word changed.
fn damaged(
    rt: &impl Print,
    line: &[u8],
    table: &[u8; Limits::TABLE],
    state: &[u16; Limits::STATE],
) -> io::Result<()> {
    let mut s = *state;
    put_first(line, &mut s);
    told(rt, field(line, 5), lent::both_sound(table, &s))
}

pub fn judge(
    rt: &impl Print,
    line: &[u8],
    table: &[u8; Limits::TABLE],
    state: &[u16; Limits::STATE],
) -> io::Result<()> {
    match letter(line) {
        b'g' => good(rt, line, table),
        b'h' => harmed(rt, line, table),
        b'l' => lent(rt, line, table, state),
        _ => damaged(rt, line, table, state),
    }
}
