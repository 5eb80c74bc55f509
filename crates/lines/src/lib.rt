#![tactic(auto)]

// The lines of a tape: what a line asks for, and the text of an answer, as definitions and laws; their code is in codec. It has the acts by name and knows
// nothing of what they do.
ghost use Rattle.std.specs.Prelude.{◌≡◌};
ghost use Rattle.lines.specs.Request.{fault_number, fault_column};

use record::Act;

// The name of a line: `part`, or an act's.
#[derive(Clone, Copy)]
pub enum Name {
    Part,
    Act(Act),
}

// What a line asks for: a part, or an act with its number.
#[derive(Clone, Copy)]
pub enum Request {
    Part(u64),
    Act(Act, u64),
}

// Why a line is bad, with the column of what is, where that is not always the same.
#[derive(Clone, Copy)]
pub enum Fault {
    TooLong,
    NotInForm(u64),
    UnknownName,
    BadDigits(u64),
}

impl Fault {
    // T12 to T15. The number of the answer. No From, since a fault has a second number, its column.
    pub fn number(self) -> u8
        ensures { result ≡ fault_number self }
    {
        match self {
            Fault::TooLong => 71,
            Fault::NotInForm(_) => 72,
            Fault::UnknownName => 73,
            Fault::BadDigits(_) => 75,
        }
    }

    // And the column that it shows.
    pub fn column(self) -> u64
        ensures { result ≡ fault_column self }
    {
        match self {
            Fault::TooLong => 65,
            Fault::UnknownName => 4,
            Fault::NotInForm(column) | Fault::BadDigits(column) => column,
        }
    }
}
