// Whole bytes into a lent buffer.
ghost use Rattle.std.specs.Prelude.{◌≡◌, ◌+◌, ◌*◌, ◌≤◌, ◌<◌, length, set};
ghost use Rattle.bitstream.specs.Bits.{field};
ghost use Rattle.bitstream.specs.Puts.{stored_from, Begun};

// The bits of the byte begun that stand before the position at, as a number.
pub fn begun(buf: &[u8], at: usize) -> u64
    requires { at ≤ 8 * length buf.now }
    ensures { Begun buf.now at result }
{
    let r = at % 8;
    if r == 0 {
        0
    } else {
        u64::from(buf[at / 8]) >> (8 - r)
    }
}

// A byte of the code, over whatever stood there.
fn store(buf: &mut [u8], j: usize, b: u64)
    requires { (j < length buf.old) × (b < 256) }
    ensures { buf.new ≡ set buf.old j b }
{
    buf[j] = b as u8;
}

// Writes the n low bits of word from byte i on, with zero bits up to a byte.
pub fn emit(buf: &mut [u8], i: usize, word: u64, n: u32)
    requires { (n ≤ 64) × (8 * i + n ≤ 8 * length buf.old) }
    ensures { buf.new ≡ stored_from buf.old i (field n word) }
{
    let mut left = n;
    let last = i + (n / 8) as usize;
    for j in i..last {
        left -= 8;
        store(buf, j, (word >> left) % 256);
    }
    if 0 < left {
        store(buf, last, (word << (8 - left)) % 256);
    }
}
