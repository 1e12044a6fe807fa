// What C gets of an answer: its result, and the numbers beside it where C points.
ghost use Rattle.std.specs.Prelude.{◌≡◌};
ghost use Rattle.answers.specs.Told.{told_decoded, told_encoded};
ghost use Rattle.cart_numbers.specs.Numbers.{decode_numbers, encode_numbers};

use answers::{Code, EncodeRefusal, Refusal};
use cart_numbers::{DecodeNumbers, EncodeNumbers};

pub fn encoded(answer: Result<Code, EncodeRefusal>, bytes: &mut u64, bits: &mut u64) -> u32
    ensures { record { result = result; bytes = bytes.new; bits = bits.new } ≡ encode_numbers (told_encoded answer) }
{
    let told = EncodeNumbers::from(answer);
    *bytes = told.bytes as u64;
    *bits = told.bits as u64;
    told.result
}

pub fn decoded(answer: Result<usize, Refusal>, bits: &mut u64) -> u32
    ensures { record { result = result; bits = bits.new } ≡ decode_numbers (told_decoded answer) }
{
    let got = DecodeNumbers::from(answer);
    *bits = got.bits as u64;
    got.result
}
