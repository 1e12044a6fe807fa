// One list of blocks into three codes: test the range, scan, see to the room (by counting, where the buffer may be too short), write.
#![tactic(auto)]

ghost use Rattle.std.specs.Prelude.{◌≡◌, ◌+◌, ◌*◌, ◌≤◌, true, length};
ghost use Rattle.answers.specs.Answers.{encoding, wrote};
ghost use Rattle.answers.specs.Told.{told_code};
ghost use Rattle.bitstream.specs.Bytes.{bytes_for};
ghost use Rattle.bitstream.specs.Puts.{stored_from};
ghost use Rattle.bitstream.specs.Written.{size_of};
ghost use Rattle.entropy_elements.specs.Elements.{encode};
ghost use Rattle.entropy_elements.specs.Limits.{in_range};
ghost use Rattle.slice_scan.specs.Scan.{scanned_of};
ghost use Rattle.slice_shape.specs.Arguments.{TakenSlice};
ghost use Rattle.slice_shape.specs.Encoding.{sizes_of, needed_for, written_slice, slice_writing_of};
ghost use Rattle.slice_shape.specs.Shapes.{chroma_blocks, is_interlaced, blocks_per, slice_length, component_list, InSliceLimits};
ghost use Rattle.slice_shape.specs.Told.{told_codes, told_encoded_slice};
ghost use Rattle.slice_writing.specs.Codes.{codes_in};

use answers::{Code, EncodeRefusal, Refusal};
use bitstream_writer::codes::Coded;
use entropy_elements::{arguments, range};
use entropy_writing::Coefficients;
use slice_scan::{Component, Components};
use slice_shape::SliceShape;

// ---- one component

// The bytes of a list's code.
fn bytes(list: &Coefficients) -> usize
    ensures { result ≡ bytes_for (length (encode list.now.blocks list.now.list.now)) }
{
    list.count().div_ceil(8)
}

// Writes a list's code from byte `from` on.
#[tactic(auto, using(crate::proofs::LaidLaws::from_part))]
fn write_from(list: &Coefficients, out: &mut [u8], from: usize) -> Code
    requires { from + bytes_for (length (encode list.now.blocks list.now.list.now)) ≤ length out.old }
    ensures size { told_code result ≡ size_of (encode list.now.blocks list.now.list.now) }
    ensures buffer { out.new ≡ stored_from out.old from (encode list.now.blocks list.now.list.now) }
{
    let bits = list.write(&mut out[from..]);
    Code {
        bytes: bits.div_ceil(8),
        bits,
    }
}

// ---- three

// The codes of three lists, into a buffer with room for them.
#[tactic(auto, using(crate::proofs::LaidLaws::stored_laid), unfolding(slice_shape::specs::Encoding::written_slice))]
fn write_lists(lists: Components<Coefficients>, out: &mut [u8]) -> Components<Code>
    requires { needed_for (sizes_of (codes_in lists)) ≤ length out.old }
    ensures { encoding (wrote (told_codes result)) out.new ≡ written_slice (codes_in lists.entry) out.old }
{
    let y = write_from(&lists.y, out, 0);
    let cb = write_from(&lists.cb, out, y.bytes);
    let cr = write_from(&lists.cr, out, y.bytes + cb.bytes);
    Components { y, cb, cr }
}

#[tactic(auto, using(crate::proofs::WrittenLaws::bytes_le), unfolding(slice_shape::specs::Encoding::written_slice))]
fn encode_lists(
    lists: Components<Coefficients>,
    out: &mut [u8],
) -> Result<Components<Code>, EncodeRefusal>
    ensures { encoding (told_encoded_slice result) out.new ≡ written_slice (codes_in lists.entry) out.old }
{
    // a buffer with room for any lists of these lengths needs no counting first
    let most = arguments::BLOCK_BYTES * (lists.y.blocks + lists.cb.blocks + lists.cr.blocks);
    if out.len() < most {
        let needed = bytes(&lists.y) + bytes(&lists.cb) + bytes(&lists.cr);
        if out.len() < needed {
            return Err(EncodeRefusal::Room { needed });
        }
    }
    Ok(write_lists(lists, out))
}

// ---- a slice

// The blocks of a slice, as many as its shape has and all in range.
#[derive(Clone, Copy)]
struct BlocksInRange<'a> {
    blocks: &'a [i32],
    shape: SliceShape,
    ghost few: { InSliceLimits shape.macroblocks (chroma_blocks shape.chroma) },
    ghost long: { length blocks.now ≡ slice_length shape.macroblocks (chroma_blocks shape.chroma) },
    ghost small: { in_range blocks.now ≡ true },
}

impl<'a> BlocksInRange<'a> {
    // The scanned list of the component whose c blocks of each macroblock start at off: the start of a list that is long enough for any.
    #[tactic(auto, using(crate::proofs::RangeLaws::scanned_fine))]
    fn scan<'l>(self, off: usize, c: usize, list: &'l mut [i32]) -> Coefficients<'l>
        requires { (1 ≤ c) × (c ≤ 4) × (off + c ≤ blocks_per (chroma_blocks self.shape.chroma)) × (length list.old ≡ component_list) }
        ensures blocks { result.blocks ≡ self.entry.shape.macroblocks * c }
        ensures list { result.list.now ≡ scanned_of (is_interlaced self.entry.shape.scan) self.entry.shape.macroblocks (blocks_per (chroma_blocks self.entry.shape.chroma)) off c self.entry.blocks.now }
    {
        let mbs = self.shape.macroblocks;
        let per = 4 + 2 * slice_shape::chroma_blocks(self.shape.chroma);
        let at = Component { mbs, per, off, c };
        let blocks = mbs * c;
        let part = &mut list[..64 * blocks];
        slice_scan::scan_component(self.blocks, part, at, self.shape.scan == 1);
        Coefficients { list: part, blocks }
    }
}

// An encode whose arguments were tested, but for the range of the coefficients. They are those of the entry point, as `slice_writing_of` has them.
#[tactic(auto, unfolding(slice_shape::specs::Encoding::slice_writing_of))]
pub fn encode_blocks(
    blocks: &[i32],
    shape: SliceShape,
    out: &mut [u8],
) -> Result<Components<Code>, EncodeRefusal>
    requires { TakenSlice 1 0 0 0 shape.macroblocks (chroma_blocks shape.chroma) (length blocks.now) }
    ensures { encoding (told_encoded_slice result) out.new ≡ slice_writing_of blocks.now shape.macroblocks shape.chroma shape.scan out.old }
{
    if range::out_of_range(blocks) {
        return Err(EncodeRefusal::Refused(Refusal::Value));
    }
    let slice = BlocksInRange { blocks, shape };
    let c = slice_shape::chroma_blocks(shape.chroma);
    let mut lists = slice_shape::component_lists();
    let scanned = Components {
        y: slice.scan(0, 4, &mut lists.y),
        cb: slice.scan(4, c, &mut lists.cb),
        cr: slice.scan(4 + c, c, &mut lists.cr),
    };
    encode_lists(scanned, out)
}
