// What every coder says: why a call is refused, and how a coder answers where it is not. The definitions that all of them are held to are in specs/:
// document 01's numbers, and the reader of elements.
#![tactic(auto)]

ghost use Rattle.std.specs.Prelude.{◌≡◌};
ghost use Rattle.answers.specs.Refusals.{number_of};
ghost use Rattle.answers.specs.declared.EncodeRefusal.TheVariants.{Refused};

use std::error::Error;
use std::fmt;

// Why a call is refused: document 01's table, with its numbers. Every layer hands these up by `?`. (3, no room, reports the needed bytes as well, so
// the encoders have a refusal of their own, EncodeRefusal.)
#[derive(Clone, Copy, Debug, PartialEq, Eq)]
pub enum Refusal {
    Limit = 1, // a count or a payload's length is outside the limits
    Length = 2, // a coefficient list is not exactly 64 x its blocks
    Value = 4, // a value to encode is out of range
    Short = 5, // the bits run out before an element that is due is complete
    Codeword = 6, // a bad codeword
    Overrun = 7, // a run passes the last coefficient
    Range = 8, // a decoded coefficient is out of range
    LongRun = 9, // an alpha long run field is below 16
    AlphaOverrun = 10, // an alpha run passes the last sample
    Tail = 11, // more than 7 bits are left after alpha
    Padding = 12, // at most 7 bits are left after alpha, and one of them is a 1
    Selector = 13, // a selector is unknown
}

impl Refusal {
    pub fn number(self) -> u32
        ensures { result ≡ number_of self }
    {
        self as u32
    }
}

impl fmt::Display for Refusal {
    fn fmt<W: fmt::Write>(&self, f: &mut fmt::Formatter<W>) -> fmt::Result {
        f.write_str(match self {
            Refusal::Limit => "a count or a payload's length is outside the limits",
            Refusal::Length => "a coefficient list is not exactly 64 times its blocks",
            Refusal::Value => "a value to encode is out of range",
            Refusal::Short => "the bits run out before an element that is due is complete",
            Refusal::Codeword => "a bad codeword",
            Refusal::Overrun => "a run passes the last coefficient",
            Refusal::Range => "a decoded coefficient is out of range",
            Refusal::LongRun => "an alpha long run field is below 16",
            Refusal::AlphaOverrun => "an alpha run passes the last sample",
            Refusal::Tail => "more than 7 bits are left after alpha",
            Refusal::Padding => "a bit that is left after alpha is a 1",
            Refusal::Selector => "a selector is unknown",
        })
    }
}

impl Error for Refusal {}

// A code: its bytes, and its bits before the padding.
#[derive(Clone, Copy, Debug, PartialEq, Eq)]
pub struct Code {
    pub bytes: usize,
    pub bits: usize,
}

// Why an encode is refused.
#[derive(Clone, Copy, Debug, PartialEq, Eq)]
pub enum EncodeRefusal {
    Room { needed: usize }, // 3: the buffer is shorter than the code's bytes
    Refused(Refusal),
}

impl From<Refusal> for EncodeRefusal {
    ghost from_gives = { λ why r. r ≡ Refused why };

    fn from(why: Refusal) -> EncodeRefusal {
        EncodeRefusal::Refused(why)
    }
}

impl fmt::Display for EncodeRefusal {
    fn fmt<W: fmt::Write>(&self, f: &mut fmt::Formatter<W>) -> fmt::Result {
        match self {
            EncodeRefusal::Room { needed } => write!(f, "the code needs {needed} bytes"),
            EncodeRefusal::Refused(why) => write!(f, "{why}"),
        }
    }
}

impl Error for EncodeRefusal {}
