// Answers as numbers: 0 for done or document 01's refusal number, and what comes back beside it, which is 0 where there is none.
#![tactic(auto)]

ghost use Rattle.std.specs.Prelude.{◌≡◌};
ghost use Rattle.answers.specs.Told.{told_decoded, told_encoded};
ghost use Rattle.cart_numbers.specs.Numbers.{decode_numbers, encode_numbers};

use answers::{Code, EncodeRefusal, Refusal};

pub mod slices; // the slice coder's answers

// The C interface, of a payload: a result with values beside it.
#[derive(Clone, Copy)]
pub struct DecodeNumbers {
    pub result: u32,
    pub bits: usize,
}

impl From<Result<usize, Refusal>> for DecodeNumbers {
    ghost from_gives = { λ answer n. n ≡ decode_numbers (told_decoded answer) };

    fn from(answer: Result<usize, Refusal>) -> DecodeNumbers {
        match answer {
            Ok(bits) => DecodeNumbers { result: 0, bits },
            Err(why) => DecodeNumbers {
                result: why.number(),
                bits: 0,
            },
        }
    }
}

// The C interface, of a code.
#[derive(Clone, Copy)]
pub struct EncodeNumbers {
    pub result: u32,
    pub bytes: usize,
    pub bits: usize,
}

impl From<Result<Code, EncodeRefusal>> for EncodeNumbers {
    ghost from_gives = { λ answer n. n ≡ encode_numbers (told_encoded answer) };

    fn from(answer: Result<Code, EncodeRefusal>) -> EncodeNumbers {
        match answer {
            Ok(Code { bytes, bits }) => EncodeNumbers {
                result: 0,
                bytes,
                bits,
            },
            Err(EncodeRefusal::Room { needed }) => EncodeNumbers {
                result: 3,
                bytes: needed,
                bits: 0,
            },
            Err(EncodeRefusal::Refused(why)) => EncodeNumbers {
                result: why.number(),
                bytes: 0,
                bits: 0,
            },
        }
    }
}
