// Three payloads into one list of blocks: each component is read by itself into a list of its own, one behind the other, and then the blocks are placed, or
// all zero where a component is refused.
#![tactic(auto)]

ghost use Rattle.std.specs.Prelude.{◌≡◌, ◌*◌, ◌≤◌, pos, length, take, drop};
ghost use Rattle.answers.specs.Told.{reached_says};
ghost use Rattle.bitstream.specs.Told.{payload_limit};
ghost use Rattle.entropy_elements.specs.Answers.{reading_of};
ghost use Rattle.entropy_elements.specs.Decoding.{nil};
ghost use Rattle.slice_shape.specs.Arguments.{TakenSlice};
ghost use Rattle.slice_shape.specs.Decoding.{slice_decoding, slice_reading_of};
ghost use Rattle.slice_shape.specs.Shapes.{chroma_blocks, component_limit, component_list, zero_lists, InSliceLimits};
ghost use Rattle.slice_shape.specs.Told.{told_decoded_slice};
ghost use Rattle.slice_reading.specs.Due.{Spared};
ghost use Rattle.slice_reading.specs.Settled.{settled_slice};

use answers::Refusal;
use entropy_elements::zero;
use slice_scan::Components;
use slice_shape::{COMPONENT_LIST, SliceRefusal, SliceShape};

// The reading of one component, to the start of a list that is long enough for any.
fn read_component(payload: &[u8], blocks: usize, list: &mut [i32]) -> Result<usize, Refusal>
    requires { (length payload.now ≤ payload_limit) × (blocks ≤ component_limit) × (list.old ≡ nil component_list) }
    ensures read { reached_says (pos 0) (64 * blocks) result (take (64 * blocks) list.new) ≡ reading_of payload.now blocks }
    ensures rest { drop (64 * blocks) list.new ≡ drop (64 * blocks) list.old }
{
    entropy_reading::read_all(payload, blocks, &mut list[..64 * blocks])
}

// The payloads of a slice, none of them too long, and its shape.
#[derive(Clone, Copy)]
struct SlicePayloads<'a> {
    payloads: Components<&'a [u8]>,
    shape: SliceShape,
    ghost few: { InSliceLimits shape.macroblocks (chroma_blocks shape.chroma) },
    ghost fits_y: { length payloads.y.now ≤ payload_limit },
    ghost fits_cb: { length payloads.cb.now ≤ payload_limit },
    ghost fits_cr: { length payloads.cr.now ≤ payload_limit },
}

impl<'a> SlicePayloads<'a> {
    // The components one behind the other: where one is refused, those behind it are not read.
    fn read(
        self,
        lists: &mut Components<[i32; COMPONENT_LIST]>,
    ) -> Result<Components<usize>, SliceRefusal>
        requires { lists.old ≡ zero_lists }
        ensures slice { settled_slice self.entry.shape (told_decoded_slice result) lists.new ≡ slice_reading_of self.entry.payloads.y.now self.entry.payloads.cb.now self.entry.payloads.cr.now self.entry.shape.macroblocks self.entry.shape.chroma self.entry.shape.scan }
        ensures spared { Spared self.entry.shape self.entry.payloads.y.now self.entry.payloads.cb.now lists.new }
    {
        let mbs = self.shape.macroblocks;
        let c = slice_shape::chroma_blocks(self.shape.chroma);
        let from = self.payloads;
        let y = read_component(from.y, mbs * 4, &mut lists.y).map_err(SliceRefusal::Y)?;
        let cb = read_component(from.cb, mbs * c, &mut lists.cb).map_err(SliceRefusal::Cb)?;
        let cr = read_component(from.cr, mbs * c, &mut lists.cr).map_err(SliceRefusal::Cr)?;
        Ok(Components { y, cb, cr })
    }
}

// A decode whose arguments were tested. They are those of the entry point, as `slice_reading_of` has them.
pub fn decode_blocks(
    payloads: Components<&[u8]>,
    shape: SliceShape,
    blocks: &mut [i32],
) -> Result<Components<usize>, SliceRefusal>
    requires { TakenSlice 1 (length payloads.y.now) (length payloads.cb.now) (length payloads.cr.now) shape.macroblocks (chroma_blocks shape.chroma) (length blocks.old) }
    ensures { slice_decoding (told_decoded_slice result) blocks.new ≡ slice_reading_of payloads.entry.y.now payloads.entry.cb.now payloads.entry.cr.now shape.macroblocks shape.chroma shape.scan }
{
    let mbs = shape.macroblocks;
    let c = slice_shape::chroma_blocks(shape.chroma);
    let mut lists = slice_shape::component_lists();
    match (SlicePayloads { payloads, shape }).read(&mut lists) {
        Ok(bits) => {
            let read = Components {
                y: &lists.y[..64 * (mbs * 4)],
                cb: &lists.cb[..64 * (mbs * c)],
                cr: &lists.cr[..64 * (mbs * c)],
            };
            slice_scan::place_components(read, blocks, mbs, c, shape.scan == 1);
            Ok(bits)
        }
        Err(why) => {
            zero::zero(blocks);
            Err(why)
        }
    }
}
