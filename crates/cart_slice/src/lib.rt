// Slices whose blocks are bytes, for a caller in C. Its chroma format and scan are numbers, of which the test of arguments refuses those unknown.
#![tactic(auto)]

ghost use Rattle.std.specs.Prelude.{◌≡◌};
ghost use Rattle.answers.specs.Answers.{encoding};
ghost use Rattle.slice_shape.specs.Told.{told_encoded_slice, told_decoded_slice};
ghost use Rattle.cart_slice.specs.SliceBytes.{encode_slice_bytes_of, slice_bytes_decoding, decode_slice_bytes_of};

use answers::{Code, EncodeRefusal};
use slice_scan::Components;
use slice_shape::{SLICE_LIST, SliceRefusal, arguments};

// As encode_slice_components of the crate slice, from bytes.
#[tactic(auto, using(crate::proofs::SliceBytesLaws::encodes), unfolding(crate::specs::SliceBytes::encode_slice_bytes_of))]
pub fn encode(
    bytes: &[u8],
    macroblocks: usize,
    chroma: usize,
    scan: usize,
    out: &mut [u8],
) -> Result<Components<Code>, EncodeRefusal>
    ensures { encoding (told_encoded_slice result) out.new ≡ encode_slice_bytes_of bytes.now macroblocks chroma scan out.old }
{
    arguments::test(4, 0, 0, 0, macroblocks, chroma, scan, bytes.len())?;
    let mut list = [0i32; SLICE_LIST];
    let list = &mut list[..bytes.len() / 4];
    cart_bytes::load(bytes, list);
    slice::encode_slice_components(list, macroblocks, chroma, scan, out)
}

// As decode_slice_components of the crate slice, into bytes. A component's refusal makes the list all zero, and then so are the bytes.
#[tactic(auto, using(crate::proofs::SliceBytesLaws::decodes), unfolding(crate::specs::SliceBytes::decode_slice_bytes_of))]
pub fn decode(
    y: &[u8],
    cb: &[u8],
    cr: &[u8],
    macroblocks: usize,
    chroma: usize,
    scan: usize,
    bytes: &mut [u8],
) -> Result<Components<usize>, SliceRefusal>
    ensures { slice_bytes_decoding (told_decoded_slice result) bytes.new ≡ decode_slice_bytes_of y.now cb.now cr.now macroblocks chroma scan bytes.old }
{
    arguments::test(
        4,
        y.len(),
        cb.len(),
        cr.len(),
        macroblocks,
        chroma,
        scan,
        bytes.len(),
    )?;
    let mut list = [0i32; SLICE_LIST];
    let list = &mut list[..bytes.len() / 4];
    let read = slice::decode_slice_components(y, cb, cr, macroblocks, chroma, scan, list);
    cart_bytes::store(list, bytes);
    read
}
