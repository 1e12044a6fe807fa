// The bit layer.
ghost use Rattle.std.specs.Prelude.{◌≡◌, drop};
ghost use Rattle.bitstream.specs.Bits.{val, bits_of, ended};
ghost use Rattle.bitstream.specs.Reading.{read_bits, zero_prefix};
ghost use Rattle.bitstream.specs.Told.{outcome_at};
ghost use Rattle.probe.specs.Bits.{result_of, value_of, next_told, put_outcome, put_buffer, align_outcome};

use crate::given;
use answers::Refusal;
use bitstream::{Cursor, PAYLOAD_LIMIT};

#[unsafe(no_mangle)]
pub extern "C" fn probe_read_bits(
    payload: &[u8],
    at: usize,
    n: u32,
    value: &mut u32,
    next: &mut usize,
) -> u32
    ensures result { result ≡ result_of (outcome_at (read_bits n) payload.now at) }
    ensures value { value.new ≡ value_of (outcome_at (read_bits n) payload.now at) }
    ensures next { next.new ≡ next_told (outcome_at (read_bits n) payload.now at) }
{
    given::read(Cursor { at }.read_bits(payload, n), value, next)
}

#[unsafe(no_mangle)]
pub extern "C" fn probe_read_bit(
    payload: &[u8],
    at: usize,
    value: &mut u32,
    next: &mut usize,
) -> u32
    ensures result { result ≡ result_of (outcome_at (read_bits 1) payload.now at) }
    ensures value { value.new ≡ value_of (outcome_at (read_bits 1) payload.now at) }
    ensures next { next.new ≡ next_told (outcome_at (read_bits 1) payload.now at) }
{
    given::read(Cursor { at }.read_bit(payload), value, next)
}

#[unsafe(no_mangle)]
pub extern "C" fn probe_zero_prefix(
    payload: &[u8],
    at: usize,
    cap: u32,
    value: &mut u32,
    next: &mut usize,
) -> u32
    ensures result { result ≡ result_of (outcome_at (zero_prefix cap) payload.now at) }
    ensures value { value.new ≡ value_of (outcome_at (zero_prefix cap) payload.now at) }
    ensures next { next.new ≡ next_told (outcome_at (zero_prefix cap) payload.now at) }
{
    given::read(Cursor { at }.zero_prefix(payload, cap), value, next)
}

#[unsafe(no_mangle)]
pub extern "C" fn probe_end_of_data(payload: &[u8], at: usize) -> u32
    ensures { result ≡ val (ended (drop at (bits_of payload.now))) }
{
    u32::from(Cursor { at }.end_of_data(payload))
}

// A field of up to 56 bits, where there is room for it.
#[tactic(auto, unfolding(crate::specs::Bits::put_outcome))]
#[unsafe(no_mangle)]
pub extern "C" fn probe_put(buf: &mut [u8], at: usize, n: u32, v: u64, next: &mut usize) -> u32
    ensures result { result ≡ result_of (put_outcome buf.old at n) }
    ensures next { next.new ≡ next_told (put_outcome buf.old at n) }
    ensures buffer { buf.new ≡ put_buffer (put_outcome buf.old at n) buf.old at n v }
{
    *next = 0;
    if PAYLOAD_LIMIT < buf.len() || 56 < n {
        return Refusal::Limit.number();
    }
    let room = buf.len() * 8;
    // `as`: std has no From of a u32 for a usize
    if room < at || room - at < n as usize {
        return 3; // the C interface: no room, without the needed bytes that EncodeRefusal::Room has
    }
    *next = bitstream_writer::put(buf, at, n, v);
    0
}

#[tactic(auto, unfolding(crate::specs::Bits::align_outcome))]
#[unsafe(no_mangle)]
pub extern "C" fn probe_align_byte(at: usize, next: &mut usize) -> u32
    ensures result { result ≡ result_of (align_outcome at) }
    ensures next { next.new ≡ next_told (align_outcome at) }
{
    *next = 0;
    if 8 * PAYLOAD_LIMIT < at {
        return Refusal::Limit.number();
    }
    *next = bitstream_writer::align_byte(at);
    0
}
