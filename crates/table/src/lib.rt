// The lent rule table: one array of bytes, its places, what stands in it, and the rule of a pair of symbols.
#![tactic(auto)]

use parts::Limits;

pub mod reading; // reading.rt: what stands in a table
pub mod writing; // writing.rt: an empty table

// Where each part begins. The counts stand first.
#[derive(Clone, Copy)]
pub struct Layout;

impl Layout {
    pub const SYMBOLS_AT: usize = 0;

    pub const COUNT_AT: usize = 1;

    pub const AGENTS_AT: usize = 3;

    pub const PAIRS_AT: usize = Layout::AGENTS_AT + Limits::AGENT * Limits::SYMBOLS;

    pub const RULES_AT: usize = Layout::PAIRS_AT + 2 * Limits::SYMBOLS * Limits::SYMBOLS;

    // In the row of a rule: where the sides of its equations begin, and where its cells.
    pub const SIDES_IN: usize = 5;

    pub const NODES_IN: usize = Layout::SIDES_IN + 2 * Limits::RULE_EQUATIONS;

    // How many sides a rule has at most: those of its equations, and the arguments of its cells.
    pub const SIDES: usize = 2 * Limits::RULE_EQUATIONS + Limits::ARITY * Limits::RULE_CELLS;
}

// A rule: the symbols of its left side, how many equations, cells and new names its right side has, the codes of the equations' sides, and of
// each cell the symbol + 1 and the codes of its arguments. Document 01 names this form: flat arrays with used lengths.
#[derive(Clone, Copy)]
pub struct Rule {
    pub left: u8,
    pub right: u8,
    pub equations: u8,
    pub cells: u8,
    pub names: u8,
    pub sides: [u8; 2 * Limits::RULE_EQUATIONS],
    pub nodes: [u8; Limits::NODE * Limits::RULE_CELLS],
}

// The number of the rule of a pair of symbols, which is written in the pair's order or with its sides exchanged.
#[derive(Clone, Copy)]
pub enum Match {
    Straight(u16),
    Turned(u16),
}
