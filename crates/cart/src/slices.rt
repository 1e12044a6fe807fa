// Slices. Blocks are bytes, four for each coefficient.
ghost use Rattle.std.specs.Prelude.{◌≡◌};
ghost use Rattle.cart_numbers.specs.Slices.{encode_slice_numbers, decode_slice_numbers};
ghost use Rattle.cart_slice.specs.SliceBytes.{encode_slice_bytes_of, decode_slice_bytes_of};

use cart_numbers::slices::{SliceDecodeNumbers, SliceEncodeNumbers};

#[unsafe(no_mangle)]
pub extern "C" fn cart_encode_slice(
    macroblocks: u64,
    chroma: u64,
    scan: u64,
    blocks: &[u8],
    out: &mut [u8],
    y_bytes: &mut u64,
    cb_bytes: &mut u64,
    cr_bytes: &mut u64,
    y_bits: &mut u64,
    cb_bits: &mut u64,
    cr_bits: &mut u64,
    needed: &mut u64,
) -> u32
    ensures result { result ≡ (encode_slice_numbers (encode_slice_bytes_of blocks.now macroblocks chroma scan out.old).answer).result }
    ensures buffer { out.new ≡ (encode_slice_bytes_of blocks.now macroblocks chroma scan out.old).buffer }
    ensures y { record { bytes = y_bytes.new; bits = y_bits.new } ≡ (encode_slice_numbers (encode_slice_bytes_of blocks.now macroblocks chroma scan out.old).answer).y }
    ensures cb { record { bytes = cb_bytes.new; bits = cb_bits.new } ≡ (encode_slice_numbers (encode_slice_bytes_of blocks.now macroblocks chroma scan out.old).answer).cb }
    ensures cr { record { bytes = cr_bytes.new; bits = cr_bits.new } ≡ (encode_slice_numbers (encode_slice_bytes_of blocks.now macroblocks chroma scan out.old).answer).cr }
    ensures needed { needed.new ≡ (encode_slice_numbers (encode_slice_bytes_of blocks.now macroblocks chroma scan out.old).answer).needed }
{
    let numbers = SliceEncodeNumbers::from(cart_slice::encode(
        blocks,
        macroblocks as usize,
        chroma as usize,
        scan as usize,
        out,
    ));
    *y_bytes = numbers.y.bytes as u64;
    *cb_bytes = numbers.cb.bytes as u64;
    *cr_bytes = numbers.cr.bytes as u64;
    *y_bits = numbers.y.bits as u64;
    *cb_bits = numbers.cb.bits as u64;
    *cr_bits = numbers.cr.bits as u64;
    *needed = numbers.needed as u64;
    numbers.result
}

#[unsafe(no_mangle)]
pub extern "C" fn cart_decode_slice(
    macroblocks: u64,
    chroma: u64,
    scan: u64,
    y: &[u8],
    cb: &[u8],
    cr: &[u8],
    blocks: &mut [u8],
    component: &mut u64,
    y_bits: &mut u64,
    cb_bits: &mut u64,
    cr_bits: &mut u64,
) -> u32
    ensures bytes { blocks.new ≡ (decode_slice_bytes_of y.now cb.now cr.now macroblocks chroma scan blocks.old).bytes }
    ensures numbers { record { result = result; component = component.new; y = y_bits.new; cb = cb_bits.new; cr = cr_bits.new } ≡ decode_slice_numbers (decode_slice_bytes_of y.now cb.now cr.now macroblocks chroma scan blocks.old).answer }
{
    let numbers = SliceDecodeNumbers::from(cart_slice::decode(
        y,
        cb,
        cr,
        macroblocks as usize,
        chroma as usize,
        scan as usize,
        blocks,
    ));
    *component = numbers.component as u64;
    *y_bits = numbers.y as u64;
    *cb_bits = numbers.cb as u64;
    *cr_bits = numbers.cr as u64;
    numbers.result
}
