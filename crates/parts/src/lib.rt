// The parts that every other crate speaks of: the sizes, typed numbers, sides, equations, and the codes of sides.
#![tactic(auto)]

ghost use Rattle.std.specs.Prelude.{◌≡◌, ℕ, ◌+◌, ◌*◌, ◌<◌};
ghost use Rattle.parts.specs.Limits.{text_max, identifier_max, symbols_max, arity_max, rules_max, rule_equations_max, rule_cells_max, rule_names_max, face_max, net_equations_max, net_cells_max, net_names_max, level_max, cells_max, names_max, waiting_max, stuck_max, loops_max, budget_max, agent_size, node_size, rule_size, table_size};
ghost use Rattle.parts.specs.Sides.{code, side};
ghost use Rattle.parts.specs.Typed.{plain, number, typed, equation};

pub mod faults; // faults.rt: why a text or a call is refused

// The sizes of document 01. A size that the code cites is written here and in no other place.
#[derive(Clone, Copy)]
pub struct Limits;

impl Limits {
    pub const TEXT: usize = 65536;

    pub const IDENTIFIER: usize = 16;

    pub const SYMBOLS: usize = 64;

    pub const ARITY: usize = 4;

    pub const RULES: usize = 256;

    pub const RULE_EQUATIONS: usize = 16;

    pub const RULE_CELLS: usize = 32;

    pub const RULE_NAMES: usize = 32;

    pub const FACE: usize = 16;

    pub const NET_EQUATIONS: usize = 256;

    pub const NET_CELLS: usize = 2048;

    pub const NET_NAMES: usize = 2048;

    pub const LEVEL: usize = 64;

    pub const CELLS: usize = 2048;

    pub const NAMES: usize = 2048;

    pub const WAITING: usize = 1024;

    pub const STUCK: usize = 1024;

    pub const LOOPS: u32 = 4294967295;

    pub const BUDGET: u32 = 1000000;

    // The words of a lent state: three counts and the two words of a fourth, then its arrays.
    pub const STATE: usize = 5
        + Limits::CELLS
        + Limits::ARITY * Limits::CELLS
        + Limits::NAMES
        + 2 * Limits::WAITING
        + 2 * Limits::STUCK
        + Limits::FACE;

    // The bytes of an agent in a lent table: its letters, and its arity + 1.
    pub const AGENT: usize = Limits::IDENTIFIER + 1;

    // The bytes of a cell of a rule: its symbol + 1, and its arguments.
    pub const NODE: usize = 1 + Limits::ARITY;

    // The bytes of a rule: five numbers, the sides of its equations, and its cells.
    pub const RULE: usize = 5 + 2 * Limits::RULE_EQUATIONS + Limits::NODE * Limits::RULE_CELLS;

    // The bytes of a lent table: three for the counts, the agents, two for each pair of symbols, and the rules.
    pub const TABLE: usize = 3
        + Limits::AGENT * Limits::SYMBOLS
        + 2 * Limits::SYMBOLS * Limits::SYMBOLS
        + Limits::RULE * Limits::RULES;
}

// The figures of the code are those of the specs page.
pub fn figures()
    ensures text { Limits.TEXT ≡ text_max }
    ensures identifier { Limits.IDENTIFIER ≡ identifier_max }
    ensures symbols { Limits.SYMBOLS ≡ symbols_max }
    ensures arity { Limits.ARITY ≡ arity_max }
    ensures rules { Limits.RULES ≡ rules_max }
    ensures rule_equations { Limits.RULE_EQUATIONS ≡ rule_equations_max }
    ensures rule_cells { Limits.RULE_CELLS ≡ rule_cells_max }
    ensures rule_names { Limits.RULE_NAMES ≡ rule_names_max }
    ensures face { Limits.FACE ≡ face_max }
    ensures net_equations { Limits.NET_EQUATIONS ≡ net_equations_max }
    ensures net_cells { Limits.NET_CELLS ≡ net_cells_max }
    ensures net_names { Limits.NET_NAMES ≡ net_names_max }
    ensures level { Limits.LEVEL ≡ level_max }
    ensures cells { Limits.CELLS ≡ cells_max }
    ensures names { Limits.NAMES ≡ names_max }
    ensures waiting { Limits.WAITING ≡ waiting_max }
    ensures stuck { Limits.STUCK ≡ stuck_max }
    ensures loops { Limits.LOOPS ≡ loops_max }
    ensures budget { Limits.BUDGET ≡ budget_max }
    ensures agent { Limits.AGENT ≡ agent_size }
    ensures node { Limits.NODE ≡ node_size }
    ensures rule { Limits.RULE ≡ rule_size }
    ensures table { Limits.TABLE ≡ table_size }
{}

// The number of a name, of a cell and of a symbol: three types, so that none stands in for another.
#[derive(Clone, Copy, PartialEq, Eq)]
pub struct NameNo(pub u16);

#[derive(Clone, Copy, PartialEq, Eq)]
pub struct CellNo(pub u16);

#[derive(Clone, Copy, PartialEq, Eq)]
pub struct SymbolNo(pub u16);

#[derive(Clone, Copy, PartialEq, Eq)]
pub enum Side {
    Name(NameNo),
    Cell(CellNo),
}

#[derive(Clone, Copy, PartialEq, Eq)]
pub struct Equation {
    pub left: Side,
    pub right: Side,
}

// The side that a code stands for.
impl From<u16> for Side {
    ghost from_gives = { λ word s. s ≡ typed (side word) };

    fn from(word: u16) -> Side {
        let half = word / 2;
        if word % 2 == 0 {
            Side::Name(NameNo(half))
        } else {
            Side::Cell(CellNo(half))
        }
    }
}

// The code of a side. A word has 65,536 values, half of them for names and half for cells: it is no `From`, since that takes every side.
pub fn encode(s: Side) -> u16
    requires { number s < 32768 }
    ensures { result ≡ code (plain s) }
{
    match s {
        Side::Name(x) => 2 * x.0,
        Side::Cell(c) => 2 * c.0 + 1,
    }
}

// The equation that two codes stand for.
impl From<(u16, u16)> for Equation {
    ghost from_gives = { λ codes e. e ≡ equation codes.0 codes.1 };

    fn from(codes: (u16, u16)) -> Equation {
        Equation {
            left: Side::from(codes.0),
            right: Side::from(codes.1),
        }
    }
}
