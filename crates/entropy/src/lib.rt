// The scanned coefficient coder: document 01; the second half of entropy.rs.
#![tactic(auto)]

ghost use Rattle.std.specs.Prelude.{◌≡◌, ◌*◌, ◌≤◌, length};
ghost use Rattle.answers.specs.Answers.{decoding, encoding};
ghost use Rattle.answers.specs.Told.{told_decoded, told_encoded};
ghost use Rattle.bitstream.specs.Told.{payload_limit};
ghost use Rattle.entropy_elements.specs.Answers.{reading_of, decode_of, writing_of, encode_of};
ghost use Rattle.entropy_elements.specs.Limits.{block_limit};

use answers::{Code, EncodeRefusal, Refusal};
use bitstream_writer::codes;
use entropy_elements::{arguments, range, zero};
use entropy_writing::Coefficients;

// A decode whose arguments were tested.
fn decode_tested(payload: &[u8], blocks: usize, out: &mut [i32]) -> Result<usize, Refusal>
    requires { (length payload.now ≤ payload_limit) × (blocks ≤ block_limit) × (length out.old ≡ 64 * blocks) }
    ensures { decoding (told_decoded result) out.new ≡ reading_of payload.now blocks }
{
    zero::zero(out);
    let read = entropy_reading::read_all(payload, blocks, out);
    if read.is_err() {
        zero::zero(out);
    }
    read
}

// Reads 64 x blocks scanned coefficients into out. A refusal of the arguments (1, 2) leaves out as it was; one of the payload (5 to 8) makes it
// all zero.
pub fn decode_scanned_coefficients(
    payload: &[u8],
    blocks: usize,
    out: &mut [i32],
) -> Result<usize, Refusal>
    ensures { decoding (told_decoded result) out.new ≡ decode_of payload.now blocks out.old }
{
    arguments::test(64, payload.len(), blocks, out.len())?;
    decode_tested(payload, blocks, out)
}

// An encode whose arguments were tested, but for the range of the coefficients.
#[tactic(auto, unfolding(entropy_elements::specs::Answers::writing_of))]
fn encode_tested(coeffs: &[i32], blocks: usize, out: &mut [u8]) -> Result<Code, EncodeRefusal>
    requires { (blocks ≤ block_limit) × (length coeffs.now ≡ 64 * blocks) }
    ensures { encoding (told_encoded result) out.new ≡ writing_of coeffs.now blocks out.old }
{
    if range::out_of_range(coeffs) {
        return Err(EncodeRefusal::Refused(Refusal::Value));
    }
    let coefficients = Coefficients {
        list: coeffs,
        blocks,
    };
    codes::encode(&coefficients, out)
}

// Writes the code of 64 x blocks scanned coefficients at the start of out. Nothing is written unless there is room for all of it.
pub fn encode_scanned_coefficients(
    coeffs: &[i32],
    blocks: usize,
    out: &mut [u8],
) -> Result<Code, EncodeRefusal>
    ensures { encoding (told_encoded result) out.new ≡ encode_of coeffs.now blocks out.old }
{
    arguments::test(64, 0, blocks, coeffs.len())?;
    encode_tested(coeffs, blocks, out)
}
