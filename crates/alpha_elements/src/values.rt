// Samples after their differences. What is carried, prev, is one more than the previous value, so it is never below zero.
ghost use Rattle.std.specs.Prelude.{◌≡◌, ◌+◌, ◌<◌, ◌≤◌, pos, negsuc};
ghost use Rattle.codeword_signs.specs.Signs.{signed};
ghost use Rattle.alpha_elements.specs.Kinds.{limit_of, mask_of};
ghost use Rattle.alpha_elements.specs.Values.{sample_of, previous_of};

use crate::AlphaChannelType;

// What is carried at the start, where the previous value is -1.
pub fn start() -> u32
    ensures { previous_of result ≡ negsuc 0 }
{
    0
}

// The sample after an escaped difference.
pub fn escaped_sample(kind: AlphaChannelType, prev: u32, raw: u32) -> u32
    requires { (prev ≤ mask_of kind + 1) × (raw ≤ mask_of kind) }
    ensures { (result ≡ sample_of kind (previous_of prev) (pos raw)) × (result ≤ mask_of kind) }
{
    let mask = kind.mask();
    (prev + mask + raw) % (mask + 1)
}

// The sample after a small difference of magnitude m + 1.
pub fn small_sample(kind: AlphaChannelType, prev: u32, m: u32, negative: bool) -> u32
    requires { (prev ≤ mask_of kind + 1) × (m < limit_of kind) }
    ensures { (result ≡ sample_of kind (previous_of prev) (signed negative m)) × (result ≤ mask_of kind) }
{
    let mask = kind.mask();
    if negative {
        (prev + mask - (m + 1)) % (mask + 1)
    } else {
        (prev + m) % (mask + 1)
    }
}
