// Reading alpha samples, an element at a time: the reading half of alpha.rs. A difference gives a sample and a run how often it stands; one loop reads
// them in turn, and a refusal goes up as it is.
#![tactic(auto)]

ghost use Rattle.std.specs.Prelude.{◌≡◌, ◌+◌, ◌≤◌, ◌<◌, length, replicate, drop};
ghost use Rattle.answers.specs.Told.{reached_says};
ghost use Rattle.bitstream.specs.Bits.{bits_of};
ghost use Rattle.bitstream.specs.Told.{payload_limit};
ghost use Rattle.alpha_elements.specs.Kinds.{mask_of};
ghost use Rattle.alpha_elements.specs.Limits.{sample_limit};
ghost use Rattle.alpha_elements.specs.Answers.{alpha_reading_of};
ghost use Rattle.alpha_reading.specs.Steps.{SampleStepped, run_of, AlphaRunStepped, AlphaPairStepped, AlphaEnds};

use alpha_elements::{AlphaChannelType, values};
use answers::Refusal;
use bitstream::Cursor;

// What the next difference looks back at: where it begins, its place in the list, and one more than the previous value.
#[derive(Clone, Copy)]
struct Alphas {
    cursor: Cursor,
    place: usize,
    prev: u32,
}

// The run n, where `left` samples are left. Each form of a run asks by itself: behind all of them the test would cost a run of 1 a branch.
#[tactic(auto, unfolding(crate::specs::Steps::run_of))]
fn run_to(left: usize, n: usize, c: Cursor) -> Result<(usize, Cursor), Refusal>
    ensures { result ≡ run_of left n c }
{
    if left < n {
        return Err(Refusal::AlphaOverrun);
    }
    Ok((n, c))
}

// A payload that is not too long, of samples of this kind.
#[derive(Clone, Copy)]
struct AlphaPayload<'a> {
    payload: &'a [u8],
    kind: AlphaChannelType,
    ghost fits: { length payload.now ≤ payload_limit },
}

impl<'a> AlphaPayload<'a> {
    // A difference, behind one more than the previous value: a 1 and a field, or a 0, a small field and a sign. It gives a sample.
    fn difference(self, prev: u32, c: Cursor) -> Result<(u32, Cursor), Refusal>
        requires { prev ≤ mask_of self.kind + 1 }
        ensures { SampleStepped (bits_of self.entry.payload.now) self.entry.kind prev c.at result }
    {
        let (first, behind) = c.read_bit(self.payload)?;
        if first == 1 {
            let (raw, next) = behind.read_bits(self.payload, self.kind.width())?;
            Ok((values::escaped_sample(self.kind, prev, raw), next))
        } else {
            // a small field and its sign, in one field: where one of them is cut off, the answer is the same
            let (signed, next) = behind.read_bits(self.payload, self.kind.small_width() + 1)?;
            Ok((
                values::small_sample(self.kind, prev, signed / 2, signed % 2 == 1),
                next,
            ))
        }
    }

    // A run: a 1; or a 0 and a field of 4 bits; or, where that field is 0, one of 11 bits behind it.
    fn run(self, left: usize, c: Cursor) -> Result<(usize, Cursor), Refusal>
        ensures { AlphaRunStepped (bits_of self.entry.payload.now) left c.at result }
    {
        let (first, behind) = c.read_bit(self.payload)?;
        if first == 1 {
            return run_to(left, 1, behind);
        }
        let (short, behind) = behind.read_bits(self.payload, 4)?;
        if short != 0 {
            return run_to(left, short as usize + 1, behind);
        }
        let (long, behind) = behind.read_bits(self.payload, 11)?;
        if long < 16 {
            return Err(Refusal::LongRun);
        }
        run_to(left, long as usize + 1, behind)
    }

    // A difference and its run.
    fn pair(self, total: usize, s: Alphas) -> Result<(u16, Alphas), Refusal>
        requires { (s.place < total) × (s.prev ≤ mask_of self.kind + 1) }
        ensures { AlphaPairStepped (bits_of self.entry.payload.now) self.entry.kind total s result }
    {
        let (v, behind) = self.difference(s.prev, s.cursor)?;
        let (n, cursor) = self.run(total - s.place, behind)?;
        Ok((
            v as u16,
            Alphas {
                cursor,
                place: s.place + n,
                prev: v + 1,
            },
        ))
    }

    // Behind the last sample: at most 7 bits are left, and none of them is a 1.
    fn end(self, c: Cursor) -> Result<(), Refusal>
        ensures { AlphaEnds (drop c.at (bits_of self.entry.payload.now)) result }
    {
        if 7 < (self.payload.len() * 8).saturating_sub(c.at) {
            Err(Refusal::Tail)
        } else if c.end_of_data(self.payload) {
            Ok(())
        } else {
            Err(Refusal::Padding)
        }
    }
}

// Every place of the list. (The library's fill took 6 in 100 longer where runs are short.)
pub fn fill(out: &mut [u16], v: u16)
    ensures { out.new ≡ replicate (length out.old) v }
{
    for x in out.iter_mut() {
        *x = v;
    }
}

// The samples of a payload, into a list whose length is their number. It tells the bits that were read.
pub fn read_all(payload: &[u8], kind: AlphaChannelType, out: &mut [u16]) -> Result<usize, Refusal>
    requires { (length payload.now ≤ payload_limit) × (length out.old ≤ sample_limit) }
    ensures { reached_says 0 (length out.old) result out.new ≡ alpha_reading_of kind payload.now (length out.old) }
{
    let alpha = AlphaPayload { payload, kind };
    let total = out.len();
    let mut s = Alphas {
        cursor: Cursor::new(),
        place: 0,
        prev: values::start(),
    };
    // how far a turn goes is read from the payload, so that no iterator goes with it
    while s.place < total {
        let (v, next) = alpha.pair(total, s)?;
        fill(&mut out[s.place..next.place], v);
        s = next;
    }
    alpha.end(s.cursor)?;
    Ok(s.cursor.at)
}
