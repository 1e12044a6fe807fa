// Weight matrices, block scans and the quantization scale: quant.rs, without the choice of a pair by profile, which is frame.rs's.
#![tactic(auto)]

ghost use Rattle.std.specs.Prelude.{◌≡◌};
ghost use Rattle.quant.specs.Weights.{weights_valid, loads_luma, loads_chroma, is_default, flat_pair, perceptual_pair, proxy_pair, lt_pair, standard_pair, hq_pair, told_blend, blend_of, qscale_of};

use answers::Refusal;

pub mod scans; // the block scans and their inverses
pub mod tables; // the weight tables
mod weights; // a weight, a table of them

// A pair of weight tables, each a row of the block after the other. Valid weights are 2..63.
#[derive(Clone, Copy, Debug, PartialEq, Eq)]
pub struct QuantMatrices {
    pub luma: [u8; 64],
    pub chroma: [u8; 64],
}

// Why there is no blend, and the pair that stands in its place: the flat one.
#[derive(Clone, Copy, Debug, PartialEq, Eq)]
pub struct NoBlend {
    pub why: Refusal,
    pub pair: QuantMatrices,
}

impl QuantMatrices {
    // What a stream has that carries no tables.
    pub fn flat() -> Self
        ensures { result ≡ flat_pair }
    {
        Self {
            luma: tables::DEFAULT_QMAT,
            chroma: tables::DEFAULT_QMAT,
        }
    }

    pub fn perceptual() -> Self
        ensures { result ≡ perceptual_pair }
    {
        Self {
            luma: tables::PERCEPTUAL_LUMA_QMAT,
            chroma: tables::PERCEPTUAL_CHROMA_QMAT,
        }
    }

    pub fn signature_proxy() -> Self
        ensures { result ≡ proxy_pair }
    {
        Self {
            luma: tables::SIGNATURE_PROXY_LUMA_QMAT,
            chroma: tables::SIGNATURE_PROXY_CHROMA_QMAT,
        }
    }

    pub fn signature_lt() -> Self
        ensures { result ≡ lt_pair }
    {
        Self {
            luma: tables::SIGNATURE_LT_QMAT,
            chroma: tables::SIGNATURE_LT_QMAT,
        }
    }

    pub fn signature_standard() -> Self
        ensures { result ≡ standard_pair }
    {
        Self {
            luma: tables::SIGNATURE_STANDARD_QMAT,
            chroma: tables::SIGNATURE_STANDARD_QMAT,
        }
    }

    // The pair of 422 HQ, 4444 and 4444 XQ.
    pub fn signature_hq() -> Self
        ensures { result ≡ hq_pair }
    {
        Self {
            luma: tables::SIGNATURE_HQ_QMAT,
            chroma: tables::SIGNATURE_HQ_QMAT,
        }
    }

    #[tactic(auto, unfolding(crate::specs::Weights::weights_valid))]
    pub fn weights_valid(self) -> bool
        ensures { result ≡ weights_valid self }
    {
        weights::table_valid(self.luma) && weights::table_valid(self.chroma)
    }

    // Whether a header has to carry luma's table.
    #[tactic(auto, unfolding(crate::specs::Weights::loads_luma))]
    pub fn load_luma(self) -> bool
        ensures { result ≡ loads_luma self }
    {
        self.luma != tables::DEFAULT_QMAT
    }

    // Whether it has to carry chroma's: a chroma table that is not carried is luma's.
    #[tactic(auto, unfolding(crate::specs::Weights::loads_chroma))]
    pub fn load_chroma(self) -> bool
        ensures { result ≡ loads_chroma self }
    {
        self.chroma != self.luma
    }

    #[tactic(auto, unfolding(crate::specs::Weights::is_default))]
    pub fn is_default(self) -> bool
        ensures { result ≡ is_default self }
    {
        self == Self::flat()
    }

    // The perceptual pair, blended with fours: number 8 is the perceptual pair itself, 1 is close to flat.
    #[tactic(auto, unfolding(crate::specs::Weights::blend_of))]
    pub fn blend(number: usize) -> Result<Self, NoBlend>
        ensures { told_blend result ≡ blend_of number }
    {
        match number {
            1..=8 => {
                let p = number as u16;
                Ok(Self {
                    luma: weights::blend_table(p, tables::PERCEPTUAL_LUMA_QMAT),
                    chroma: weights::blend_table(p, tables::PERCEPTUAL_CHROMA_QMAT),
                })
            }
            _ => Err(NoBlend {
                why: Refusal::Selector,
                pair: Self::flat(),
            }),
        }
    }
}

// The scale factor of an index; RDD 36 uses 1..=224.
#[tactic(auto, unfolding(crate::specs::Weights::qscale_of))]
pub fn qscale(quantization_index: u8) -> u32
    ensures { result ≡ qscale_of quantization_index }
{
    let i = u32::from(quantization_index);
    if i <= 128 { i } else { 128 + 4 * (i - 128) }
}
