// A codeword as one field, whatever its kind: the zeros in front only widen it.
ghost use Rattle.std.specs.Prelude.{◌≤◌, ◌<◌, ◌≡◌};
ghost use Rattle.codeword.specs.Codewords.{log2, exp_golomb, combo};
ghost use Rattle.bitstream_writer.specs.Words.{Spells};

use bitstream_writer::Word;

// floor(log2 x)
fn log2_of(x: u64) -> u32
    requires { 0 < x }
    ensures { (result ≡ log2 x) × (result < 64) }
{
    63 - u64::leading_zeros(x)
}

pub fn exp_golomb_word(k: u32, n: u32) -> Word
    requires { k ≤ 5 }
    ensures { Spells (exp_golomb k n) result.len result.bits × (result.len ≤ 65) }
{
    let x = u64::from(n) + common::pow2(k);
    let l = log2_of(x);
    Word {
        len: 2 * l + 1 - k,
        bits: x,
    }
}

pub fn combo_word(last_q: u32, r: u32, e: u32, n: u32) -> Word
    requires { (last_q ≤ 2) × (r ≤ 2) × (e ≤ 3) }
    ensures { Spells (combo last_q r e n) result.len result.bits }
{
    let one = common::pow2(r);
    let limit = (u64::from(last_q) + 1) * one;
    let m = u64::from(n);
    if m < limit {
        return Word {
            len: (n >> r) + 1 + r,
            bits: one + m % one,
        };
    }
    let w = exp_golomb_word(e, (m - limit) as u32);
    Word {
        len: last_q + 1 + w.len,
        bits: w.bits,
    }
}
