// The numbers that documents 01 and 02 fix, named once for all crates: their refusals and their limits. The definitions have the same names in
// specs/.
#![tactic(auto)]

ghost use Rattle.std.specs.Prelude.{◌≡◌};
ghost use Rattle.scope.specs.Machine.{refusal_number, answer_number};

use std::error::Error;
use std::fmt;

// Document 01's table of refusals, and document 02's from 13 on, by their numbers. 0 is the number of an accepted call.
#[derive(Clone, Copy, Debug, PartialEq, Eq)]
pub enum Refusal {
    KeyLength = 1,
    IvLength = 2,
    TooLong = 3,
    ShortOutput = 4,
    BadTag = 5,
    NoOrigin = 6,
    OutOfPhase = 7,
    BadBlock = 8,
    CountTooHigh = 9,
    TagLength = 10,
    Malformed = 11,
    DayRange = 12,
    BadFile = 13,
    BadStay = 14,
    BeforeStart = 15,
    NumberTaken = 16,
    NoKey = 17,
    RangeOrder = 18,
    SchedulerFull = 19,
}

impl Refusal {
    pub fn number(self) -> u64
        ensures { result ≡ refusal_number self }
    {
        self as u64
    }
}

impl fmt::Display for Refusal {
    fn fmt<W: fmt::Write>(&self, f: &mut fmt::Formatter<W>) -> fmt::Result {
        write!(f, "refused {}", self.number())
    }
}

impl Error for Refusal {}

// The number of a call's answer: 0 where it is accepted.
pub fn number(answer: Result<(), Refusal>) -> u64
    ensures { result ≡ answer_number answer }
{
    match answer {
        Ok(()) => 0,
        Err(e) => e.number(),
    }
}

// Limits: bytes of data and of text in a session, and blocks drawn.
pub const MOST_DATA: u64 = 65535;

pub const MOST_TEXT: u64 = 1048576;

pub const MOST_BLOCKS: u64 = 65538;

// Bytes of text in a page of a page file.
pub const MOST_PAGE_TEXT: usize = 474;

// The last day that days count to, the first and the last year of a date that has a day, and for how many months after its departure a page is kept.
pub const LAST_DAY: u64 = 73048;

pub const FIRST_YEAR: u64 = 2000;

pub const LAST_YEAR: u64 = 2199;

pub const KEPT_MONTHS: u64 = 18;

// Hex digits in a line of the program's input.
pub const MOST_DIGITS: usize = 8192;

// Stays at a scheduler, bytes of a turn's piece unless less is left, and turns.
pub const MOST_STAYS: usize = 32;

pub const MOST_PIECE: u64 = 4096;

pub const MOST_TURNS: u64 = 4611686018427387904;
