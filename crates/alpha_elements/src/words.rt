// Differences and runs as codewords.
ghost use Rattle.std.specs.Prelude.{◌+◌, ◌<◌, ◌≤◌, pos, ◌-ℤ◌};
ghost use Rattle.bitstream_writer.specs.Words.{Spells};
ghost use Rattle.alpha_elements.specs.Kinds.{limit_of, mask_of};
ghost use Rattle.alpha_elements.specs.Limits.{run_limit};
ghost use Rattle.alpha_elements.specs.Values.{previous_of};
ghost use Rattle.alpha_elements.specs.Elements.{small_element, escaped_element, run_bits, alpha_element_bits, difference_element};

use crate::AlphaChannelType;
use bitstream_writer::Word;

// A small difference of magnitude m + 1: a 0, m, and the sign.
pub fn small_word(kind: AlphaChannelType, m: u32, negative: bool) -> Word
    requires { m < limit_of kind }
    ensures { Spells (alpha_element_bits kind (small_element m negative)) result.len result.bits }
{
    Word {
        len: kind.small_width() + 2,
        bits: 2 * u64::from(m) + u64::from(negative),
    }
}

// An escaped difference: a 1, and raw.
pub fn escaped_word(kind: AlphaChannelType, raw: u32) -> Word
    requires { raw ≤ mask_of kind }
    ensures { Spells (alpha_element_bits kind (escaped_element raw)) result.len result.bits }
{
    Word {
        len: kind.width() + 1,
        bits: u64::from(kind.mask() + 1 + raw),
    }
}

// The difference of the sample v from the previous value, of which prev is one more. It is taken over whole numbers.
pub fn difference_word(kind: AlphaChannelType, prev: u32, v: u32) -> Word
    requires { (prev ≤ mask_of kind + 1) × (v ≤ mask_of kind) }
    ensures { Spells (alpha_element_bits kind (difference_element kind (pos v -ℤ previous_of prev))) result.len result.bits }
{
    let limit = kind.limit();
    let turn = kind.mask() + 1;
    if prev <= v {
        let m = v + 1 - prev;
        if m <= limit {
            small_word(kind, m - 1, false)
        } else {
            escaped_word(kind, m % turn)
        }
    } else {
        let m = prev - 1 - v;
        if m == 0 {
            escaped_word(kind, 0)
        } else if m <= limit {
            small_word(kind, m - 1, true)
        } else {
            escaped_word(kind, turn - m)
        }
    }
}

// A run of n: a 1; or a 0 and n - 1 in 4 bits; or five zeros and n - 1 in 11 bits.
pub fn run_word(n: u32) -> Word
    requires { (1 ≤ n) × (n ≤ run_limit) }
    ensures { Spells (run_bits n) result.len result.bits }
{
    if n == 1 {
        Word { len: 1, bits: 1 }
    } else {
        Word {
            len: if n <= 16 { 5 } else { 16 },
            bits: u64::from(n - 1),
        }
    }
}
