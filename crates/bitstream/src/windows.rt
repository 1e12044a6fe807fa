// Eight bytes at once.
ghost use Rattle.std.specs.Prelude.{◌≡◌, ◌+◌, ◌/◌, ◌≤◌, length, take, drop};
ghost use Rattle.bitstream.specs.Bits.{bits_of, number};
ghost use Rattle.bitstream.specs.Windows.{word_at};

// Eight bytes from i on, which become one load.
fn load8(payload: &[u8], i: usize) -> u64
    requires { i + 8 ≤ length payload.now }
    ensures { result ≡ number (bits_of (take 8 (drop i payload.now))) }
{
    u64::from_be_bytes([
        payload[i],
        payload[i + 1],
        payload[i + 2],
        payload[i + 3],
        payload[i + 4],
        payload[i + 5],
        payload[i + 6],
        payload[i + 7],
    ])
}

// What is unread at p, at the top of a word: 57 bits at least.
pub fn window(payload: &[u8], p: usize) -> u64
    requires { p / 8 + 8 ≤ length payload.now }
    ensures { result ≡ word_at payload.now p }
{
    load8(payload, p / 8) << (p % 8)
}
