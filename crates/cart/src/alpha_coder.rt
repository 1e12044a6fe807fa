// Alpha.
ghost use Rattle.std.specs.Prelude.{◌≡◌};
ghost use Rattle.alpha_elements.specs.Answers.{decode_alpha_of, encode_alpha_of};
ghost use Rattle.cart_numbers.specs.Numbers.{decode_numbers, encode_numbers};

use crate::given;

#[unsafe(no_mangle)]
pub extern "C" fn cart_encode_alpha(
    kind: u64,
    samples: &[u16],
    out: &mut [u8],
    bytes: &mut u64,
    bits: &mut u64,
) -> u32
    ensures buffer { out.new ≡ (encode_alpha_of samples.now kind out.old).buffer }
    ensures numbers { record { result = result; bytes = bytes.new; bits = bits.new } ≡ encode_numbers (encode_alpha_of samples.now kind out.old).answer }
{
    let answer = alpha::encode_scanned_alpha(samples, kind as usize, out);
    given::encoded(answer, bytes, bits)
}

#[unsafe(no_mangle)]
pub extern "C" fn cart_decode_alpha(
    kind: u64,
    payload: &[u8],
    samples: &mut [u16],
    bits: &mut u64,
) -> u32
    ensures list { samples.new ≡ (decode_alpha_of payload.now kind samples.old).list }
    ensures numbers { record { result = result; bits = bits.new } ≡ decode_numbers (decode_alpha_of payload.now kind samples.old).answer }
{
    let answer = alpha::decode_scanned_alpha(payload, kind as usize, samples);
    given::decoded(answer, bits)
}
