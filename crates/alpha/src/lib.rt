// The alpha coder: document 01, section Alpha; alpha.rs. A kind is a number here, since any number has an answer (`decode_alpha_of`, `encode_alpha_of`).
#![tactic(auto)]

ghost use Rattle.std.specs.Prelude.{◌≡◌, ◌≤◌, true, length};
ghost use Rattle.answers.specs.Answers.{decoding, encoding};
ghost use Rattle.answers.specs.Told.{told_decoded, told_encoded};
ghost use Rattle.bitstream.specs.Told.{payload_limit};
ghost use Rattle.alpha_elements.specs.Elements.{encode_alpha};
ghost use Rattle.alpha_elements.specs.Limits.{sample_limit, samples_in_range};
ghost use Rattle.alpha_elements.specs.Answers.{alpha_reading_of, decode_alpha_of, alpha_writing_of, encode_alpha_of};

use alpha_elements::{AlphaChannelType, arguments};
use answers::{Code, EncodeRefusal, Refusal};
use bitstream_writer::codes;
use bitstream_writer::codes::Coded;

// A decode whose arguments were tested.
fn decode_tested(
    payload: &[u8],
    kind: AlphaChannelType,
    samples: &mut [u16],
) -> Result<usize, Refusal>
    requires { (length payload.now ≤ payload_limit) × (length samples.old ≤ sample_limit) }
    ensures { decoding (told_decoded result) samples.new ≡ alpha_reading_of kind payload.now (length samples.old) }
{
    let reached = alpha_reading::read_all(payload, kind, samples);
    if reached.is_err() {
        alpha_reading::fill(samples, 0);
    }
    reached
}

// Reads as many samples as the list has places. A refusal of the arguments (13, 1) leaves the list as it was; one of the payload (5, 9 to 12) makes
// it all zero.
#[tactic(auto, using(alpha_elements::proofs::ArgumentLaws::taken_of), unfolding(alpha_elements::specs::Answers::decode_alpha_of))]
pub fn decode_scanned_alpha(
    payload: &[u8],
    kind: usize,
    samples: &mut [u16],
) -> Result<usize, Refusal>
    ensures { decoding (told_decoded result) samples.new ≡ decode_alpha_of payload.now kind samples.old }
{
    let kind = arguments::test(kind, samples.len(), payload.len())?;
    decode_tested(payload, kind, samples)
}

// Samples in range, of a kind.
#[derive(Clone, Copy)]
struct SamplesInRange<'a> {
    samples: &'a [u16],
    kind: AlphaChannelType,
    ghost few: { length samples.now ≤ sample_limit },
    ghost small: { samples_in_range kind samples.now ≡ true },
}

impl<'a> Coded for SamplesInRange<'a> {
    ghost code = { λ s. encode_alpha s.kind s.samples.now };

    fn most_bytes(&self) -> usize {
        (self.kind.most_bits() as usize * self.samples.len()).div_ceil(8)
    }

    fn count(&self) -> usize {
        alpha_writing::count(self.samples, self.kind)
    }

    fn write(&self, out: &mut [u8]) -> usize {
        alpha_writing::write(self.samples, self.kind, out)
    }
}

// An encode whose arguments were tested, but for the range of the samples.
#[tactic(auto, unfolding(alpha_elements::specs::Answers::alpha_writing_of))]
fn encode_tested(
    samples: &[u16],
    kind: AlphaChannelType,
    out: &mut [u8],
) -> Result<Code, EncodeRefusal>
    requires { length samples.now ≤ sample_limit }
    ensures { encoding (told_encoded result) out.new ≡ alpha_writing_of kind samples.now out.old }
{
    if alpha_writing::out_of_range(samples, kind) {
        return Err(EncodeRefusal::Refused(Refusal::Value));
    }
    codes::encode(&SamplesInRange { samples, kind }, out)
}

// Writes the code of the samples at the start of out. Nothing is written unless there is room for all of it.
#[tactic(auto, using(alpha_elements::proofs::ArgumentLaws::taken_of), unfolding(alpha_elements::specs::Answers::encode_alpha_of))]
pub fn encode_scanned_alpha(
    samples: &[u16],
    kind: usize,
    out: &mut [u8],
) -> Result<Code, EncodeRefusal>
    ensures { encoding (told_encoded result) out.new ≡ encode_alpha_of samples.now kind out.old }
{
    let kind = arguments::test(kind, samples.len(), 0)?;
    encode_tested(samples, kind, out)
}
