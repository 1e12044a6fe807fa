// What a slice is: document 01, section Slice scan; slice.rs. The definitions are in specs/; here are how much a slice has at the most, its refusals, and
// the test of arguments that encoding and decoding share. A chroma format is document 01's number, of which `chroma_blocks` and `counted` speak: no enum.
#![tactic(auto)]

ghost use Rattle.std.specs.Prelude.{◌≡◌};
ghost use Rattle.slice_shape.specs.Shapes.{chroma_blocks, zero_lists, chroma_blocks_of, blocks_of};
ghost use Rattle.slice_shape.specs.Told.{told_blocks};
ghost use Rattle.slice_shape.specs.declared.SliceRefusal.TheVariants.{Arguments};

use answers::Refusal;
use slice_scan::Components;
use std::error::Error;
use std::fmt;

pub mod arguments; // the test of arguments

// The most macroblocks of a slice.
pub const MAX_MBS_PER_SLICE: usize = 8;

// The blocks of Y in a macroblock.
pub const LUMA_BLOCKS_PER_MB: usize = 4;

// The most blocks of a component, which are Y's. The coefficient coder may take more in a call.
pub const COMPONENT_BLOCKS: usize = MAX_MBS_PER_SLICE * LUMA_BLOCKS_PER_MB;

// The most coefficients of a component, and of a slice.
pub const COMPONENT_LIST: usize = 64 * COMPONENT_BLOCKS;

pub const SLICE_LIST: usize = 3 * COMPONENT_LIST;

// The blocks of Cb, and those of Cr, in a macroblock of a known chroma format.
#[tactic(auto, unfolding(crate::specs::Shapes::chroma_blocks))]
pub fn chroma_blocks(chroma: usize) -> usize
    ensures { result ≡ chroma_blocks chroma }
{
    if chroma == 2 { 2 } else { 4 }
}

// The numbers that a slice's entry points are given, once they were tested. The blocks of Cb and Cr in a macroblock are not kept beside them: where they
// are looked up anew, the compiler knows that they are 2 or 4, and unrolls the scan.
#[derive(Clone, Copy, Debug, PartialEq, Eq)]
pub struct SliceShape {
    pub macroblocks: usize,
    pub chroma: usize,
    pub scan: usize,
}

// A list for each component, long enough for any, all zero. They stand on the stack: no heap.
pub fn component_lists() -> Components<[i32; COMPONENT_LIST]>
    ensures { result ≡ zero_lists }
{
    Components {
        y: [0; COMPONENT_LIST],
        cb: [0; COMPONENT_LIST],
        cr: [0; COMPONENT_LIST],
    }
}

// The blocks of Cb, and those of Cr, in a macroblock; an unknown chroma format is refused (13).
#[tactic(auto, unfolding(crate::specs::Shapes::counted))]
pub fn chroma_blocks_per_mb(chroma: usize) -> Result<usize, Refusal>
    ensures { told_blocks result ≡ chroma_blocks_of chroma }
{
    match chroma {
        2..=3 => Ok(chroma_blocks(chroma)),
        _ => Err(Refusal::Selector),
    }
}

// The blocks of a macroblock.
#[tactic(auto, unfolding(crate::specs::Shapes::counted, crate::specs::Shapes::chroma_blocks))]
pub fn blocks_per_mb(chroma: usize) -> Result<usize, Refusal>
    ensures { told_blocks result ≡ blocks_of chroma }
{
    Ok(LUMA_BLOCKS_PER_MB + 2 * chroma_blocks_per_mb(chroma)?)
}

// Why the decode of a slice is refused: its arguments are, or the payload of a component is.
#[derive(Clone, Copy, Debug, PartialEq, Eq)]
pub enum SliceRefusal {
    Arguments(Refusal),
    Y(Refusal),
    Cb(Refusal),
    Cr(Refusal),
}

impl From<Refusal> for SliceRefusal {
    ghost from_gives = { λ why r. r ≡ Arguments why };

    fn from(why: Refusal) -> SliceRefusal {
        SliceRefusal::Arguments(why)
    }
}

impl fmt::Display for SliceRefusal {
    fn fmt<W: fmt::Write>(&self, f: &mut fmt::Formatter<W>) -> fmt::Result {
        match self {
            SliceRefusal::Arguments(why) => write!(f, "{why}"),
            SliceRefusal::Y(why) => write!(f, "Y: {why}"),
            SliceRefusal::Cb(why) => write!(f, "Cb: {why}"),
            SliceRefusal::Cr(why) => write!(f, "Cr: {why}"),
        }
    }
}

impl Error for SliceRefusal {}
