// Slices: document 01, section Slice scan; slice.rs. Three components, each coded by itself, and every block in its place. The parameters are slice.rs's,
// of which `encode_slice_of` and `decode_slice_of` speak.
#![tactic(auto)]

ghost use Rattle.std.specs.Prelude.{◌≡◌};
ghost use Rattle.answers.specs.Answers.{encoding};
ghost use Rattle.slice_shape.specs.Encoding.{encode_slice_of};
ghost use Rattle.slice_shape.specs.Decoding.{slice_decoding, decode_slice_of};
ghost use Rattle.slice_shape.specs.Told.{told_encoded_slice, told_decoded_slice};

use answers::{Code, EncodeRefusal};
use slice_scan::Components;
use slice_shape::{SliceRefusal, SliceShape, arguments};

// Writes the codes of Y, Cb and Cr one after another at the start of out. A refusal (13, 1, 2, 4, 3) leaves out as it was.
#[tactic(auto, using(slice_shape::proofs::ArgumentLaws::taken_of), unfolding(slice_shape::specs::Encoding::encode_slice_of))]
pub fn encode_slice_components(
    blocks: &[i32],
    macroblocks: usize,
    chroma: usize,
    scan: usize,
    out: &mut [u8],
) -> Result<Components<Code>, EncodeRefusal>
    ensures { encoding (told_encoded_slice result) out.new ≡ encode_slice_of blocks.now macroblocks chroma scan out.old }
{
    arguments::test(1, 0, 0, 0, macroblocks, chroma, scan, blocks.len())?;
    let shape = SliceShape {
        macroblocks,
        chroma,
        scan,
    };
    slice_writing::encode_blocks(blocks, shape, out)
}

// Reads the payloads of Y, Cb and Cr into blocks, every block in its place. A refusal of the arguments (13, 1, 2) leaves blocks as it was; one of a
// payload (5 to 8) names its component and makes blocks all zero.
#[tactic(auto, using(slice_shape::proofs::ArgumentLaws::taken_of), unfolding(slice_shape::specs::Decoding::decode_slice_of))]
pub fn decode_slice_components(
    y: &[u8],
    cb: &[u8],
    cr: &[u8],
    macroblocks: usize,
    chroma: usize,
    scan: usize,
    blocks: &mut [i32],
) -> Result<Components<usize>, SliceRefusal>
    ensures { slice_decoding (told_decoded_slice result) blocks.new ≡ decode_slice_of y.now cb.now cr.now macroblocks chroma scan blocks.old }
{
    arguments::test(
        1,
        y.len(),
        cb.len(),
        cr.len(),
        macroblocks,
        chroma,
        scan,
        blocks.len(),
    )?;
    let shape = SliceShape {
        macroblocks,
        chroma,
        scan,
    };
    slice_reading::decode_blocks(Components { y, cb, cr }, shape, blocks)
}
