// Tables and states made: read from texts, and stored word by word. What has no place is left out.
use crate::fields::{byte, letter, word};
use files::read_file;
use parts::Limits;
use scan::cutting::{field, field_count};
use state::Layout as Words;
use std::rt::Files;
use table::Layout as Bytes;

// `table` and the file of a rule text. One that is refused leaves the table as it is.
fn take_rules(text: &[u8], table: &mut [u8; Limits::TABLE]) {
    let _ = rules::read_rules(text, table);
}

fn read_table(rt: &impl Files, line: &[u8], table: &mut [u8; Limits::TABLE]) {
    let mut text = [0u8; Limits::TEXT];
    let n = read_file(rt, field(line, 1), &mut text);
    take_rules(&text[..n], table);
}

// `net` and the file of a net text. One that is refused leaves the state as it is.
fn take_net(text: &[u8], table: &[u8; Limits::TABLE], state: &mut [u16; Limits::STATE]) {
    let _ = nets::read_net(text, table, state);
}

fn read_state(
    rt: &impl Files,
    line: &[u8],
    table: &[u8; Limits::TABLE],
    state: &mut [u16; Limits::STATE],
) {
    let mut text = [0u8; Limits::TEXT];
    let n = read_file(rt, field(line, 1), &mut text);
    take_net(&text[..n], table, state);
}

// Where a row of a part of the state begins: the numbers used, the symbols of cells and their arguments, names, equations
// that wait and stuck pairs, and the interface.
fn words_at(kind: u8, row: u16) -> usize {
    let r = usize::from(row);
    match kind {
        b'u' => r,
        b'c' => Words::SYMBOLS_AT + r,
        b'a' => Words::ARGUMENTS_AT + Limits::ARITY * r,
        b'n' => Words::NAMES_AT + r,
        b'w' => Words::WAITING_AT + 2 * r,
        b's' => Words::STUCK_AT + 2 * r,
        b'f' => Words::FACE_AT + r,
        _ => Limits::STATE,
    }
}

// The same for the table: the numbers used, agents, pairs of symbols, rules, and in a rule its equations and its cells.
fn bytes_at(kind: u8, row: u16) -> usize {
    let r = usize::from(row);
    match kind {
        b'u' => r,
        b'a' => Bytes::AGENTS_AT + Limits::AGENT * r,
        b'p' => Bytes::PAIRS_AT + 2 * Limits::SYMBOLS * r,
        b'r' => Bytes::RULES_AT + Limits::RULE * r,
        b'e' => Bytes::RULES_AT + Bytes::SIDES_IN + Limits::RULE * r,
        b'c' => Bytes::RULES_AT + Bytes::NODES_IN + Limits::RULE * r,
        _ => Limits::TABLE,
    }
}

fn put_word(state: &mut [u16; Limits::STATE], row: usize, i: usize, v: u16) {
    if row < Limits::STATE && i < Limits::STATE - row {
        state[row + i] = v;
    }
}

// `byte`, a part, a row, a place in it, and what is stored there.
pub fn put_byte(line: &[u8], table: &mut [u8; Limits::TABLE]) {
    let row = bytes_at(letter(field(line, 1)), word(line, 2));
    let i = usize::from(word(line, 3));
    if row < Limits::TABLE && i < Limits::TABLE - row {
        table[row + i] = byte(line, 4);
    }
}

// Field k of a line that stores words.
fn put_field(line: &[u8], k: usize, state: &mut [u16; Limits::STATE]) {
    let row = words_at(letter(field(line, 1)), word(line, 2));
    let i = usize::from(word(line, 3));
    if 4 <= k && k < Limits::TEXT {
        put_word(state, row, i + (k - 4), word(line, k));
    }
}

// `word`, a part, a row, a place in it, and the words stored from there on.
fn put_words(line: &[u8], state: &mut [u16; Limits::STATE]) {
    for k in 4..field_count(line) {
        put_field(line, k, state);
    }
}

// The first of them alone.
pub fn put_first(line: &[u8], state: &mut [u16; Limits::STATE]) {
    put_field(line, 4, state);
}

// Their sum, where it fits a word; else the first.
fn plus(a: u16, b: u16) -> u16 {
    a.checked_add(b).unwrap_or(a)
}

fn put_row(line: &[u8], k: u16, v: u16, state: &mut [u16; Limits::STATE]) {
    let row = words_at(letter(field(line, 1)), plus(word(line, 2), k));
    put_word(state, row, usize::from(word(line, 3)), v);
}

// `fill`, a part, its first row, a place in it, how many rows, what is stored in the first, and how much more in each next one.
fn fill(line: &[u8], state: &mut [u16; Limits::STATE]) {
    let more = word(line, 6);
    let mut v = word(line, 5);
    for k in 0..word(line, 4) {
        put_row(line, k, v, state);
        v = plus(v, more);
    }
}

pub fn make(
    rt: &impl Files,
    line: &[u8],
    table: &mut [u8; Limits::TABLE],
    state: &mut [u16; Limits::STATE],
) {
    match letter(line) {
        b't' => read_table(rt, line, table),
        b'n' => read_state(rt, line, table, state),
        b'b' => put_byte(line, table),
        b'w' => put_words(line, state),
        _ => fill(line, state),
    }
}
