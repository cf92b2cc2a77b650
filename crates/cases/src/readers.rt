// What the two readers answer to the texts of a case. The table and the state lent to them are full of what means nothing. After a
// refusal they must hold it still; after an acceptance their counts are printed, and whether they are sound.
use crate::LOOKED_FOR;
use parts::Limits;
use parts::faults::Refusal;
use state::{Part, Pile};
use std::io;

const BYTE: u8 = 167;

const WORD: u16 = 40001;

// Whether a table or a state is as it was lent: each place of it holds the same.
fn kept<T: PartialEq + Copy>(lent: &[T], full: T) -> bool {
    lent.iter().all(|x| *x == full)
}

fn sound(rt: &impl Print, is_sound: bool) -> io::Result<()> {
    if is_sound {
        return print!(rt; " sound");
    }
    print!(rt; " not sound")
}

fn refused(rt: &impl Print, r: Refusal, kept: bool) -> io::Result<()> {
    print!(rt; " refused {} {}", u8::from(r.fault), r.line)?;
    if kept {
        return print!(rt; " kept");
    }
    print!(rt; " changed")
}

// The symbols and the rules.
fn rules_accepted(rt: &impl Print, table: &[u8; Limits::TABLE]) -> io::Result<()> {
    let symbols = table::reading::symbol_count(table);
    let rules = table::reading::rule_count(table);
    print!(rt; " accepted {symbols} {rules}")?;
    sound(rt, table_test::whole::table_sound(table))
}

// The interface, the equations, the cells and the names.
fn net_accepted(
    rt: &impl Print,
    table: &[u8; Limits::TABLE],
    state: &[u16; Limits::STATE],
) -> io::Result<()> {
    let faces = state::count(state, Pile::Faces);
    let waits = state::count(state, Pile::Waits);
    let cells = state::in_use(state, Part::Symbols);
    let names = state::in_use(state, Part::Names);
    print!(rt; " accepted {faces} {waits} {cells} {names}")?;
    sound(rt, lent::both_sound(table, state))
}

fn net_told(
    rt: &impl Print,
    answer: Result<(), Refusal>,
    table: &[u8; Limits::TABLE],
    state: &[u16; Limits::STATE],
) -> io::Result<()> {
    match answer {
        Ok(()) => net_accepted(rt, table, state),
        Err(r) => refused(rt, r, kept(state, WORD)),
    }
}

fn read_net(rt: &impl Print, text: &[u8], table: &[u8; Limits::TABLE]) -> io::Result<()> {
    let mut state = [WORD; Limits::STATE];
    print!(rt; ", net")?;
    let answer = nets::read_net(text, table, &mut state);
    net_told(rt, answer, table, &state)
}

fn rules_told(
    rt: &impl Print,
    answer: Result<(), Refusal>,
    table: &[u8; Limits::TABLE],
    net: &[u8],
) -> io::Result<()> {
    match answer {
        Ok(()) => {
            rules_accepted(rt, table)?;
            read_net(rt, net, table)
        }
        Err(r) => refused(rt, r, kept(table, BYTE)),
    }
}

// Where the rules are refused, the net text is not looked at.
pub fn read_both(rt: &impl Print, rules: &[u8], net: &[u8]) -> io::Result<()> {
    let mut table = [BYTE; Limits::TABLE];
    print!(rt; ": rules")?;
    let answer = rules::read_rules(rules, &mut table);
    rules_told(rt, answer, &table, net)
}

// A table with one byte changed that no rule text gives: 16 on line 0, before the length of the text is looked at.
pub fn read_damaged(rt: &impl Print) -> io::Result<()> {
    let mut table = table::writing::empty_table();
    table[Limits::TABLE - 1] = 1;
    print!(rt; "damaged table, short text")?;
    read_net(rt, b"net\t0\t0\nface\n", &table)?;
    print!(rt; "\ndamaged table, long text")?;
    read_net(rt, &[0u8; LOOKED_FOR], &table)?;
    println!(rt)
}
