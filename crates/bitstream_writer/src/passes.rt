// A pass over the words of a code. A coder makes its words in one generic function, and the pass says what becomes of them: they
// are counted, or they are written.
ghost use Rattle.std.specs.Prelude.{ℕ, List, Bool, ◌++◌, ◌+◌, ◌≤◌, length};
ghost use Rattle.bitstream.specs.Puts.{Puts};
ghost use Rattle.bitstream_writer.specs.Words.{word_bits, IsWord};
ghost use Rattle.bitstream_writer.specs.Passes.{PassLaws, Countable, Counts, counting_laws, Inside, writing_laws};

use crate::{Word, words};

pub trait Pass {
    // A buffer of so many bytes has room for a code up to that bit.
    ghost Room: { ℕ → ℕ → Type 0 };

    // What laying bits at a bit of a buffer leaves: the buffer, and the next bit.
    ghost Lays: { List ℕ → ℕ → List Bool → List ℕ → ℕ → Type 0 };

    // A word of 56 bits at most: one put.
    fn put(out: &mut [u8], at: usize, w: Word) -> usize
        requires { (w.len ≤ 56) × Room (length out.old) (at + w.len) }
        ensures { Lays out.old at (word_bits w) out.new result };

    // Any word.
    fn put_word(out: &mut [u8], at: usize, w: Word) -> usize
        requires { IsWord w × Room (length out.old) (at + w.len) }
        ensures { Lays out.old at (word_bits w) out.new result };

    // Two words: one put where they fit.
    fn put_pair(out: &mut [u8], at: usize, front: Word, behind: Word) -> usize
        requires { IsWord front × IsWord behind × Room (length out.old) (at + (front.len + behind.len)) }
        ensures { Lays out.old at (word_bits front ++ word_bits behind) out.new result };

    ghost laws: { PassLaws Room Lays };
}

// Counts the bits, and touches no buffer.
pub struct Counting;

impl Pass for Counting {
    ghost Room = { Countable };

    ghost Lays = { Counts };

    fn put(out: &mut [u8], at: usize, w: Word) -> usize {
        at + w.len as usize
    }

    fn put_word(out: &mut [u8], at: usize, w: Word) -> usize {
        at + w.len as usize
    }

    fn put_pair(out: &mut [u8], at: usize, front: Word, behind: Word) -> usize {
        at + (front.len + behind.len) as usize
    }

    ghost laws = { counting_laws };
}

// Writes them.
pub struct Writing;

impl Pass for Writing {
    ghost Room = { Inside };

    ghost Lays = { Puts };

    fn put(out: &mut [u8], at: usize, w: Word) -> usize {
        crate::put(out, at, w.len, w.bits)
    }

    fn put_word(out: &mut [u8], at: usize, w: Word) -> usize {
        words::put_word(out, at, w)
    }

    fn put_pair(out: &mut [u8], at: usize, front: Word, behind: Word) -> usize {
        if front.len + behind.len <= 56 {
            Self::put(out, at, words::join(front, behind))
        } else {
            let mid = words::put_word(out, at, front);
            words::put_word(out, mid, behind)
        }
    }

    ghost laws = { writing_laws };
}
