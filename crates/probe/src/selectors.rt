// What a chroma format and an alpha kind are.
ghost use Rattle.std.specs.Prelude.{◌≡◌};
ghost use Rattle.alpha_elements.specs.Kinds.{kind_of};
ghost use Rattle.slice_shape.specs.Shapes.{chroma_blocks_of, blocks_of};
ghost use Rattle.probe.specs.Selectors.{blocks_number, kind_number};

use crate::given;
use alpha_elements::AlphaChannelType;

#[unsafe(no_mangle)]
pub extern "C" fn probe_blocks_per_mb(
    chroma: usize,
    chroma_blocks: &mut usize,
    blocks: &mut usize,
) -> u32
    ensures result { result ≡ (blocks_number (blocks_of chroma)).result }
    ensures chroma { chroma_blocks.new ≡ (blocks_number (chroma_blocks_of chroma)).value }
    ensures blocks { blocks.new ≡ (blocks_number (blocks_of chroma)).value }
{
    given::number(slice_shape::chroma_blocks_per_mb(chroma), chroma_blocks);
    given::number(slice_shape::blocks_per_mb(chroma), blocks)
}

#[unsafe(no_mangle)]
pub extern "C" fn probe_alpha_code(code: usize, same: &mut usize) -> u32
    ensures result { result ≡ (kind_number (kind_of code)).result }
    ensures same { same.new ≡ (kind_number (kind_of code)).value }
{
    let kind = AlphaChannelType::try_from(code);
    given::number(kind.map(|kind| kind.code()), same)
}
