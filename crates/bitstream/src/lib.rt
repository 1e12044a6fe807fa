// The bit layer: document 01, section Bits, and the limit on a payload. Reading goes by a slice and a Cursor by value, as the Rust's BitReader
// does by itself; writing is in bitstream_writer.
#![tactic(auto)]

ghost use Rattle.std.specs.Prelude.{◌≡◌, ◌≤◌, length, drop};
ghost use Rattle.bitstream.specs.Bits.{bits_of, ended};
ghost use Rattle.bitstream.specs.Reading.{read_bits, zero_prefix};
ghost use Rattle.bitstream.specs.Told.{payload_limit, told_read, outcome, outcome_at};

use answers::Refusal;

mod fields; // a bit, a field, the bytes that are left
pub mod windows; // eight bytes at once

// The most bytes that a payload to decode may have.
pub const PAYLOAD_LIMIT: usize = 65536;

// A bit position in a payload.
#[derive(Clone, Copy)]
pub struct Cursor {
    pub at: usize,
}

// The zeros before the next 1 from p on.
fn zeros_at(payload: &[u8], p: usize, cap: usize) -> Result<(u32, Cursor), Refusal>
    requires { length payload.now ≤ payload_limit }
    ensures { told_read result ≡ outcome p (drop p (bits_of payload.now)) (zero_prefix cap (drop p (bits_of payload.now))) }
{
    for at in p..payload.len() * 8 {
        if fields::bit(payload, at) {
            return Ok(((at - p) as u32, Cursor { at: at + 1 }));
        }
        if cap <= at - p {
            return Err(Refusal::Codeword);
        }
    }
    Err(Refusal::Short)
}

impl Cursor {
    pub fn new() -> Self
        ensures { result.at ≡ 0 }
    {
        Cursor { at: 0 }
    }

    // The next n bits as a number. More than 32 are refused as a bad codeword, before any of them is read.
    pub fn read_bits(self, payload: &[u8], n: u32) -> Result<(u32, Cursor), Refusal>
        ensures { told_read result ≡ outcome_at (read_bits n) payload.now self.at }
    {
        let at = self.at;
        if PAYLOAD_LIMIT < payload.len() {
            return Err(Refusal::Limit);
        }
        if 32 < n {
            return Err(Refusal::Codeword);
        }
        let width = n as usize;
        if fields::unread(payload, at) < width {
            return Err(Refusal::Short);
        }
        Ok((fields::field_at(payload, at, n), Cursor { at: at + width }))
    }

    pub fn read_bit(self, payload: &[u8]) -> Result<(u32, Cursor), Refusal>
        ensures { told_read result ≡ outcome_at (read_bits 1) payload.now self.at }
    {
        self.read_bits(payload, 1)
    }

    // How many zeros stand before the next 1, which is read too; the zero after the first cap of them is refused.
    pub fn zero_prefix(self, payload: &[u8], cap: u32) -> Result<(u32, Cursor), Refusal>
        ensures { told_read result ≡ outcome_at (zero_prefix cap) payload.now self.at }
    {
        if PAYLOAD_LIMIT < payload.len() {
            return Err(Refusal::Limit);
        }
        zeros_at(payload, self.at, cap as usize)
    }

    // Whether no 1 bit remains unread. Any length of payload has an answer.
    pub fn end_of_data(self, payload: &[u8]) -> bool
        ensures { result ≡ ended (drop self.at (bits_of payload.now)) }
    {
        let at = self.at;
        if payload.len() < at / 8 + 8 {
            return fields::ended_at(payload, at);
        }
        // nearly always there is a 1 among the next bits
        if windows::window(payload, at) != 0 {
            return false;
        }
        fields::ended_at(payload, at)
    }
}
