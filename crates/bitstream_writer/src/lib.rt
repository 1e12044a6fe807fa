// The writing half of the bit layer: document 01, section Bits. Writing goes into a lent buffer at a bit position.
#![tactic(auto)]

ghost use Rattle.std.specs.Prelude.{◌≡◌, ◌+◌, ◌*◌, ◌^◌, ◌≤◌, ◌<◌, length};
ghost use Rattle.bitstream.specs.Bits.{field};
ghost use Rattle.bitstream.specs.Bytes.{put_at, bytes_for};

pub mod codes; // a whole code, where there is room
mod bytes; // whole bytes into a buffer
pub mod passes; // counting a code's words, or writing them
pub mod words; // a field longer than one put takes

// A field as a value: the len low bits of bits.
#[derive(Clone, Copy)]
pub struct Word {
    pub len: u32,
    pub bits: u64,
}

// Puts the n low bits of v at bit `at`, with zero bits behind them up to a byte, and gives the next position.
pub fn put(buf: &mut [u8], at: usize, n: u32, v: u64) -> usize
    requires { (n ≤ 56) × (at + n ≤ 8 * length buf.old) × (at + n < 2 ^ 63) }
    ensures next { result ≡ at + n }
    ensures buffer { buf.new ≡ put_at buf.old at (field n v) }
{
    let begun = bytes::begun(buf, at);
    let word = begun * common::pow2(n) + v % common::pow2(n);
    bytes::emit(buf, at / 8, word, (at % 8) as u32 + n);
    at + n as usize
}

// The next position at a byte's start. The zero bits up to it are there already, so nothing is written.
pub fn align_byte(at: usize) -> usize
    requires { at < 2 ^ 63 }
    ensures { result ≡ 8 * bytes_for at }
{
    at.next_multiple_of(8)
}
