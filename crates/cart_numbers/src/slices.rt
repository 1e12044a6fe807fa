// The slice coder's answers as numbers.
ghost use Rattle.std.specs.Prelude.{◌≡◌};
ghost use Rattle.slice_shape.specs.Told.{told_encoded_slice, told_decoded_slice};
ghost use Rattle.answers.specs.Refusals.{number_of};
ghost use Rattle.cart_numbers.specs.Slices as S;
ghost use Rattle.cart_numbers.specs.Slices.{encode_slice_numbers, decode_slice_numbers};

use answers::{Code, EncodeRefusal, Refusal};
use slice_scan::Components;
use slice_shape::SliceRefusal;

// The C interface, of three codes.
#[derive(Clone, Copy)]
pub struct SliceEncodeNumbers {
    pub result: u32,
    pub y: Code,
    pub cb: Code,
    pub cr: Code,
    pub needed: usize,
}

fn no_codes(res: u32, needed: usize) -> SliceEncodeNumbers
    ensures { result ≡ S.no_codes res needed }
{
    let none = Code { bytes: 0, bits: 0 };
    SliceEncodeNumbers {
        result: res,
        y: none,
        cb: none,
        cr: none,
        needed,
    }
}

impl From<Result<Components<Code>, EncodeRefusal>> for SliceEncodeNumbers {
    ghost from_gives = { λ answer n. n ≡ encode_slice_numbers (told_encoded_slice answer) };

    fn from(answer: Result<Components<Code>, EncodeRefusal>) -> SliceEncodeNumbers {
        match answer {
            Ok(Components { y, cb, cr }) => SliceEncodeNumbers {
                result: 0,
                y,
                cb,
                cr,
                needed: 0,
            },
            Err(EncodeRefusal::Room { needed }) => no_codes(3, needed),
            Err(EncodeRefusal::Refused(why)) => no_codes(why.number(), 0),
        }
    }
}

// The C interface, of three payloads.
#[derive(Clone, Copy)]
pub struct SliceDecodeNumbers {
    pub result: u32,
    pub component: usize,
    pub y: usize,
    pub cb: usize,
    pub cr: usize,
}

fn refused(component: usize, why: Refusal) -> SliceDecodeNumbers
    ensures { result ≡ S.refused_in component (number_of why) }
{
    SliceDecodeNumbers {
        result: why.number(),
        component,
        y: 0,
        cb: 0,
        cr: 0,
    }
}

impl From<Result<Components<usize>, SliceRefusal>> for SliceDecodeNumbers {
    ghost from_gives = { λ answer n. n ≡ decode_slice_numbers (told_decoded_slice answer) };

    fn from(answer: Result<Components<usize>, SliceRefusal>) -> SliceDecodeNumbers {
        match answer {
            Ok(Components { y, cb, cr }) => SliceDecodeNumbers {
                result: 0,
                component: 0,
                y,
                cb,
                cr,
            },
            Err(SliceRefusal::Arguments(why)) => refused(0, why),
            Err(SliceRefusal::Y(why)) => refused(1, why),
            Err(SliceRefusal::Cb(why)) => refused(2, why),
            Err(SliceRefusal::Cr(why)) => refused(3, why),
        }
    }
}
