// Why a text or a call is refused: the seventeen rows of document 01's table of refusals, and the line of a text.
ghost use Rattle.std.specs.Prelude.{◌≡◌};
ghost use Rattle.parts.specs.Faults.{fault_number};

#[derive(Clone, Copy, PartialEq, Eq)]
pub enum Fault {
    // 1: a text is longer than its size
    LongText,
    // 2: a byte is not allowed, or the last line is unended
    BadByte,
    // 3: a record is wrong, missing or misplaced, has another field count, or a bad number
    BadRecord,
    // 4: an identifier or a term is misspelt
    Misspelt,
    // 5: a size is passed
    TooBig,
    // 6: a symbol is declared twice
    DeclaredTwice,
    // 7: an argument count is not the arity, or brackets stand after a name
    WrongArguments,
    // 8: a left field is not an agent over different names, or a name occurs the wrong number of times
    WrongNames,
    // 9: the pair already has a rule
    PairTaken,
    // 10: a symbol's rule with itself is one-sided
    OneSided,
    // 11: a header's count is not that of the records found
    CountsDiffer,
    // 12: the pick is at or past the number waiting
    NoPick,
    // 13: there is no room
    NoRoom,
    // 14: the answer is asked for while equations wait
    Waits,
    // 15: the answer is longer than the output
    LongAnswer,
    // 16: the table or the state that is lent is not sound
    Unsound,
    // 17: the budget is too large
    LargeBudget,
}

// The number that document 01 gives it.
impl From<Fault> for u8 {
    ghost from_gives = { λ f n. n ≡ fault_number f };

    fn from(f: Fault) -> u8 {
        match f {
            Fault::LongText => 1,
            Fault::BadByte => 2,
            Fault::BadRecord => 3,
            Fault::Misspelt => 4,
            Fault::TooBig => 5,
            Fault::DeclaredTwice => 6,
            Fault::WrongArguments => 7,
            Fault::WrongNames => 8,
            Fault::PairTaken => 9,
            Fault::OneSided => 10,
            Fault::CountsDiffer => 11,
            Fault::NoPick => 12,
            Fault::NoRoom => 13,
            Fault::Waits => 14,
            Fault::LongAnswer => 15,
            Fault::Unsound => 16,
            Fault::LargeBudget => 17,
        }
    }
}

// What is wrong with a text, and the line, from 1; 0 where no line is at fault.
#[derive(Clone, Copy, PartialEq, Eq)]
pub struct Refusal {
    pub fault: Fault,
    pub line: usize,
}
