// A field that may be longer than one `put` takes: a codeword, whose 1 is within its 33 low bits, with a sign behind it perhaps. What is in front of its
// 34 low bits is all zeros.
ghost use Rattle.std.specs.Prelude.{◌≡◌, ◌+◌, ◌*◌, ◌^◌, ◌≤◌, ◌<◌, length};
ghost use Rattle.bitstream.specs.Bytes.{put_at};
ghost use Rattle.bitstream_writer.specs.Words.{OneMore, word_bits, IsWord, Joins};

use crate::Word;

// A word with one bit more behind it: a level with its sign.
pub fn with_bit(w: Word, bit: bool) -> Word
    requires { (w.len ≤ 68) × (w.bits < 2 ^ 33) × (w.bits < 2 ^ w.len) }
    ensures { OneMore w.len w.bits bit result.len result.bits }
{
    Word {
        len: w.len + 1,
        bits: 2 * w.bits + u64::from(bit),
    }
}

// Two words as one, where one put takes it.
pub fn join(front: Word, behind: Word) -> Word
    requires { IsWord front × IsWord behind × (front.len + behind.len ≤ 56) }
    ensures { Joins front behind result }
{
    Word {
        len: front.len + behind.len,
        bits: front.bits * common::pow2(behind.len) + behind.bits,
    }
}

// Puts a word at bit `at`, and gives the next position.
pub fn put_word(buf: &mut [u8], at: usize, w: Word) -> usize
    requires { IsWord w × (at + w.len ≤ 8 * length buf.old) × (at + w.len < 2 ^ 63) }
    ensures next { result ≡ at + w.len }
    ensures buffer { buf.new ≡ put_at buf.old at (word_bits w) }
{
    if w.len <= 56 {
        crate::put(buf, at, w.len, w.bits)
    } else {
        let mid = crate::put(buf, at, w.len - 34, 0);
        crate::put(buf, mid, 34, w.bits)
    }
}
