// What stands at a bit position of a payload.
ghost use Rattle.std.specs.Prelude.{◌≡◌, false, ◌-◌, ◌*◌, ◌%◌, ◌≤◌, ◌<◌, length, get_or, take, drop, ◌==◌};
ghost use Rattle.std.specs.List.{list_all};
ghost use Rattle.bitstream.specs.Bits.{bits_of, number, ended};
ghost use Rattle.bitstream.specs.Told.{payload_limit};

use crate::windows;

// How far bit p stands from its byte's low end: the most significant bit comes first.
fn place(p: usize) -> u32
    ensures { result ≡ 7 - p % 8 }
{
    (7 - p % 8) as u32
}

// Whether the bit at p is a 1.
pub fn bit(payload: &[u8], p: usize) -> bool
    requires { p < 8 * length payload.now }
    ensures { result ≡ get_or (bits_of payload.now) p false }
{
    let byte = u64::from(payload[p / 8]);
    (byte / common::pow2(place(p))) % 2 == 1
}

// How many bits are unread at p.
pub fn unread(payload: &[u8], p: usize) -> usize
    requires { length payload.now ≤ payload_limit }
    ensures { result ≡ length (drop p (bits_of payload.now)) }
{
    (payload.len() * 8).saturating_sub(p)
}

// The field, bit by bit: what is left to it is a payload's last eight bytes.
fn field_plain(payload: &[u8], p: usize, n: usize) -> u64
    requires { (length payload.now ≤ payload_limit) × (n ≤ 32) × (n ≤ length (drop p (bits_of payload.now))) }
    ensures { result ≡ number (take n (drop p (bits_of payload.now))) }
{
    let mut v = 0;
    for i in 0..n {
        v = v * 2 + u64::from(bit(payload, p + i));
    }
    v
}

// The n bits at p, as a number.
pub fn field_at(payload: &[u8], p: usize, n: u32) -> u32
    requires { (length payload.now ≤ payload_limit) × (n ≤ 32) × (n ≤ length (drop p (bits_of payload.now))) }
    ensures { result ≡ number (take n (drop p (bits_of payload.now))) }
{
    if p / 8 + 8 <= payload.len() {
        let w = windows::window(payload, p);
        return ((w / 2) >> (63 - n)) as u32;
    }
    field_plain(payload, p, n as usize) as u32
}

// Whether every byte from i on is zero.
fn zero_from(payload: &[u8], i: usize) -> bool
    ensures { result ≡ list_all (λ b. b == 0) (drop i payload.now) }
{
    payload.iter().skip(i).all(|byte| *byte == 0)
}

// Whether no 1 stands at p or behind it: the rest of p's byte, then byte by byte.
pub fn ended_at(payload: &[u8], p: usize) -> bool
    ensures { result ≡ ended (drop p (bits_of payload.now)) }
{
    let i = p / 8;
    if payload.len() <= i {
        return true;
    }
    if u64::from(payload[i]) % common::pow2((8 - p % 8) as u32) != 0 {
        return false;
    }
    zero_from(payload, i + 1)
}
