// The scanned coefficient coder.
ghost use Rattle.std.specs.Prelude.{◌≡◌};
ghost use Rattle.answers.specs.Answers.{decoding, encoding};
ghost use Rattle.answers.specs.Told.{told_decoded, told_encoded};
ghost use Rattle.cart_numbers.specs.Numbers.{decode_numbers, encode_numbers};
ghost use Rattle.cart.specs.Coefficients.{decode_bytes_of, encode_bytes_of};

use crate::given;
use answers::{Code, EncodeRefusal, Refusal};
use entropy_elements::arguments;

#[tactic(auto, using(crate::proofs::CoefficientLaws::encodes), unfolding(crate::specs::Coefficients::encode_bytes_of))]
fn encode_bytes(coeffs: &[u8], blocks: usize, out: &mut [u8]) -> Result<Code, EncodeRefusal>
    ensures { encoding (told_encoded result) out.new ≡ encode_bytes_of coeffs.now blocks out.old }
{
    arguments::test(256, 0, blocks, coeffs.len())?;
    let mut list = [0i32; arguments::LIST_LIMIT];
    let list = &mut list[..64 * blocks];
    cart_bytes::load(coeffs, list);
    entropy::encode_scanned_coefficients(list, blocks, out)
}

// Writes the code of 64 x blocks scanned coefficients at the start of out, and tells its bytes and bits. A refusal (1, 2, 4, 3) leaves out as it was.
#[unsafe(no_mangle)]
pub extern "C" fn cart_encode(
    blocks: u64,
    coeffs: &[u8],
    out: &mut [u8],
    bytes: &mut u64,
    bits: &mut u64,
) -> u32
    ensures buffer { out.new ≡ (encode_bytes_of coeffs.now blocks out.old).buffer }
    ensures numbers { record { result = result; bytes = bytes.new; bits = bits.new } ≡ encode_numbers (encode_bytes_of coeffs.now blocks out.old).answer }
{
    given::encoded(encode_bytes(coeffs, blocks as usize, out), bytes, bits)
}

// A refused payload has left the list all zero, and then so are the bytes.
#[tactic(auto, using(crate::proofs::CoefficientLaws::decodes), unfolding(crate::specs::Coefficients::decode_bytes_of))]
fn decode_bytes(payload: &[u8], blocks: usize, coeffs: &mut [u8]) -> Result<usize, Refusal>
    ensures { decoding (told_decoded result) coeffs.new ≡ decode_bytes_of payload.now blocks coeffs.old }
{
    arguments::test(256, payload.len(), blocks, coeffs.len())?;
    let mut list = [0i32; arguments::LIST_LIMIT];
    let list = &mut list[..64 * blocks];
    let read = entropy::decode_scanned_coefficients(payload, blocks, list);
    cart_bytes::store(list, coeffs);
    read
}

// Reads 64 x blocks scanned coefficients into coeffs, and tells the bits read. A refusal of the arguments (1, 2) leaves coeffs as it was; one of the
// payload (5 to 8) makes it all zero.
#[unsafe(no_mangle)]
pub extern "C" fn cart_decode(blocks: u64, payload: &[u8], coeffs: &mut [u8], bits: &mut u64) -> u32
    ensures list { coeffs.new ≡ (decode_bytes_of payload.now blocks coeffs.old).list }
    ensures numbers { record { result = result; bits = bits.new } ≡ decode_numbers (decode_bytes_of payload.now blocks coeffs.old).answer }
{
    given::decoded(decode_bytes(payload, blocks as usize, coeffs), bits)
}
