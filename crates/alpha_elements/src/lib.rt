// What alpha samples are coded as: the definitions and their laws are in specs/ and proofs/, and here are the kinds and the leaves that reading and
// writing share.
#![tactic(auto)]

ghost use Rattle.std.specs.Prelude.{◌≡◌};
ghost use Rattle.alpha_elements.specs.Kinds.{width_of, small_width_of, limit_of, mask_of, most_bits_of, code_of, told_kind, kind_of};

use answers::Refusal;

pub mod arguments; // the limits, and the test of arguments
pub mod values; // samples after their differences
pub mod words; // differences and runs as codewords

// What differs between the kinds is a function of the kind. A kind's number is its code number.
#[derive(Clone, Copy, Debug, PartialEq, Eq)]
pub enum AlphaChannelType {
    Eight = 1,
    Sixteen = 2,
}

impl TryFrom<usize> for AlphaChannelType {
    type Error = Refusal;

    ghost try_from_gives = { λ code r. told_kind r ≡ kind_of code };

    #[tactic(auto, unfolding(crate::specs::Kinds::kind_of))]
    fn try_from(code: usize) -> Result<Self, Refusal> {
        match code {
            1 => Ok(AlphaChannelType::Eight),
            2 => Ok(AlphaChannelType::Sixteen),
            _ => Err(Refusal::Selector),
        }
    }
}

impl AlphaChannelType {
    // The longest run.
    pub const MAX_RUN: u32 = 2048;

    pub fn code(self) -> usize
        ensures { result ≡ code_of self }
    {
        self as usize
    }

    // The bits of a sample.
    pub fn width(self) -> u32
        ensures { result ≡ width_of self }
    {
        match self {
            AlphaChannelType::Eight => 8,
            AlphaChannelType::Sixteen => 16,
        }
    }

    // The bits of a small difference's magnitude.
    pub fn small_width(self) -> u32
        ensures { result ≡ small_width_of self }
    {
        match self {
            AlphaChannelType::Eight => 3,
            AlphaChannelType::Sixteen => 6,
        }
    }

    // The largest magnitude of a small difference.
    pub fn limit(self) -> u32
        ensures { result ≡ limit_of self }
    {
        match self {
            AlphaChannelType::Eight => 8,
            AlphaChannelType::Sixteen => 64,
        }
    }

    // The largest sample.
    pub fn mask(self) -> u32
        ensures { result ≡ mask_of self }
    {
        match self {
            AlphaChannelType::Eight => 0xff,
            AlphaChannelType::Sixteen => 0xffff,
        }
    }

    // The most bits that a sample takes in a code.
    pub fn most_bits(self) -> u32
        ensures { result ≡ most_bits_of self }
    {
        match self {
            AlphaChannelType::Eight => 10,
            AlphaChannelType::Sixteen => 18,
        }
    }
}
