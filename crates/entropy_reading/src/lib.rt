// Reading scanned coefficients, an element at a time: the reading half of entropy.rs. One loop reads the DCs and one the runs and levels; where each
// element leads is in entropy_steps, and a refusal goes up as it is.
#![tactic(auto)]

ghost use Rattle.std.specs.Prelude.{◌≡◌, ◌*◌, ◌≤◌, ◌<◌, pos, length, IfSome};
ghost use Rattle.bitstream.specs.Bits.{bits_of};
ghost use Rattle.bitstream.specs.Told.{payload_limit, InPayload};
ghost use Rattle.codeword.specs.Words.{InUse};
ghost use Rattle.entropy_elements.specs.Limits.{block_limit, list_limit};
ghost use Rattle.entropy_elements.specs.Decoding.{nil};
ghost use Rattle.entropy_steps.specs.DcSteps.{first_due, dc_due, DcsIn, DcStepped};
ghost use Rattle.entropy_steps.specs.RunSteps.{RunDue, RunStepped};
ghost use Rattle.entropy_steps.specs.LevelSteps.{level_due, sign_due, LevelStepped};
ghost use Rattle.entropy_steps.specs.PairSteps.{PairStepped};
ghost use Rattle.entropy_steps.specs.Standing.{DcsStand, AcsStand, behind_dcs, DcsRead};
ghost use Rattle.entropy_reading.specs.Shown.{PairShown};
ghost use Rattle.answers.specs.Told.{reached_says};
ghost use Rattle.entropy_elements.specs.Answers.{reading_of};

use answers::Refusal;
use bitstream::{Cursor, windows};
use codeword_peek::Peeked;
use entropy_elements::values;
use entropy_steps::{Acs, Dcs};

// A payload within its limit, and how many blocks of it are read.
#[derive(Clone, Copy)]
struct PayloadReader<'a> {
    payload: &'a [u8],
    blocks: usize,
    ghost fits: { length payload.now ≤ payload_limit },
    ghost few: { blocks ≤ block_limit },
}

// What one word shows: a run, a level and whether its sign is a 1.
#[derive(Clone, Copy)]
struct SeenPair {
    run: Peeked,
    level: Peeked,
    negative: bool,
}

// ---- DCs

impl<'a> PayloadReader<'a> {
    fn first_step(&self) -> Result<Dcs, Refusal>
        ensures { DcStepped (bits_of self.now.payload.now) first_due result }
    {
        let book = codeword_books::first_dc_codebook();
        let (symbol, next) = book.read(self.payload, Cursor::new())?;
        entropy_steps::dc_to(values::first_dc(symbol), next.at)
    }

    fn dc_step(&self, s: Dcs) -> Result<Dcs, Refusal>
        requires { DcsIn (bits_of self.now.payload.now) s }
        ensures { DcStepped (bits_of self.now.payload.now) (dc_due s) result }
    {
        let (symbol, next) = codeword_peek::read(s.book, self.payload, s.at)?;
        entropy_steps::dc_to(values::next_dc(s.dc, s.negative, symbol), next.at)
    }

    // The DCs behind the first one, which `from` is the state after.
    fn next_dcs(&self, from: Dcs, out: &mut [i32]) -> Result<usize, Refusal>
        requires { DcsStand (bits_of self.now.payload.now) self.now.blocks 1 from out.old }
        ensures { DcsRead (bits_of self.now.payload.now) self.now.blocks out.new result }
    {
        let mut s = from;
        for n in 1..self.blocks {
            s = self.dc_step(s)?;
            out[n] = s.dc;
        }
        Ok(s.at)
    }

    fn read_dcs(&self, out: &mut [i32]) -> Result<usize, Refusal>
        requires { (0 < self.now.blocks) × (out.old ≡ nil (64 * self.now.blocks)) }
        ensures { DcsRead (bits_of self.now.payload.now) self.now.blocks out.new result }
    {
        let first = self.first_step()?;
        out[0] = first.dc;
        self.next_dcs(first, out)
    }
}

// ---- runs and levels

impl<'a> PayloadReader<'a> {
    fn run_step(&self, s: Acs) -> Result<Acs, Refusal>
        requires { RunDue (bits_of self.now.payload.now) (64 * self.now.blocks) s }
        ensures { RunStepped (bits_of self.now.payload.now) (64 * self.now.blocks) s result }
    {
        let (zeros, next) = s.runs.read(self.payload, Cursor { at: s.at })?;
        entropy_steps::run_to(64 * self.blocks, s, zeros, next.at)
    }

    // The sign of the level whose symbol was read, and the level. The bit is not the reader's: it moves with every element, so `InPayload` stays a clause.
    fn sign_step(&self, s: Acs, symbol: u32, at: usize) -> Result<(i32, Acs), Refusal>
        requires { InPayload self.now.payload.now at × (s.place < list_limit) × InUse s.runs }
        ensures { LevelStepped (bits_of self.now.payload.now) s.place (sign_due s symbol at) result }
    {
        let (sign, next) = Cursor { at }.read_bit(self.payload)?;
        entropy_steps::level_to(values::level_of(sign == 1, symbol), s, symbol, next.at)
    }

    // As run_step: two calls, of which nothing is the same but the reading.
    fn level_step(&self, s: Acs) -> Result<(i32, Acs), Refusal>
        requires { InPayload self.now.payload.now s.at × (s.place < list_limit) × InUse s.runs }
        ensures { LevelStepped (bits_of self.now.payload.now) s.place (level_due s) result }
    {
        let (symbol, next) = s.levels.read(self.payload, Cursor { at: s.at })?;
        self.sign_step(s, symbol, next.at)
    }

    // A run and its level, one after the other.
    fn plain_pair(&self, s: Acs) -> Result<(i32, Acs), Refusal>
        requires { RunDue (bits_of self.now.payload.now) (64 * self.now.blocks) s }
        ensures { PairStepped (bits_of self.now.payload.now) (64 * self.now.blocks) s result }
    {
        let behind = self.run_step(s)?;
        self.level_step(behind)
    }

    // A run, a level and its sign that were seen in one word.
    fn shown_pair(&self, s: Acs, pair: SeenPair) -> Result<(i32, Acs), Refusal>
        requires { RunDue (bits_of self.now.payload.now) (64 * self.now.blocks) s × PairShown (bits_of self.now.payload.now) s pair.run pair.level pair.negative }
        ensures { PairStepped (bits_of self.now.payload.now) (64 * self.now.blocks) s result }
    {
        let SeenPair {
            run,
            level,
            negative,
        } = pair;
        let mid = s.at + run.len as usize;
        let behind = entropy_steps::run_to(64 * self.blocks, s, run.value, mid)?;
        let end = mid + level.len as usize + 1;
        entropy_steps::level_to(
            values::level_of(negative, level.value),
            behind,
            level.value,
            end,
        )
    }

    // What the word at s shows, where a run, its level and the sign are in it whole.
    fn see(&self, s: Acs) -> Option<SeenPair>
        requires { RunDue (bits_of self.now.payload.now) (64 * self.now.blocks) s }
        ensures { IfSome result (λ p. PairShown (bits_of self.now.payload.now) s p.run p.level p.negative) }
    {
        if self.payload.len() < s.at / 8 + 8 {
            return None;
        }
        let w = windows::window(self.payload, s.at);
        let run = codeword_peek::peek(s.runs, w);
        let behind = w << (run.len % 64);
        let level = codeword_peek::peek(s.levels, behind);
        let used = run.len + level.len + 1;
        if codeword_peek::SHOWN < used {
            return None;
        }
        let sign = (behind << level.len) >> 63;
        Some(SeenPair {
            run,
            level,
            negative: sign == 1,
        })
    }

    // A run and its level: nearly always one word shows both with the sign, and nothing else is read. One call of each, so that the compiler takes them
    // into the loop and the state stays in registers.
    fn pair_step(&self, s: Acs) -> Result<(i32, Acs), Refusal>
        requires { RunDue (bits_of self.now.payload.now) (64 * self.now.blocks) s }
        ensures { PairStepped (bits_of self.now.payload.now) (64 * self.now.blocks) s result }
    {
        match self.see(s) {
            Some(pair) => self.shown_pair(s, pair),
            None => self.plain_pair(s),
        }
    }

    // The runs and levels from the bit `at` on, behind the DCs.
    fn read_acs(&self, at: usize, out: &mut [i32]) -> Result<usize, Refusal>
        requires { AcsStand (bits_of self.now.payload.now) self.now.blocks (behind_dcs self.now.blocks at) out.old }
        ensures { reached_says (pos 0) (64 * self.now.blocks) result out.new ≡ reading_of self.now.payload.now self.now.blocks }
    {
        let total = 64 * self.blocks;
        let mut s = Acs {
            at,
            place: self.blocks,
            runs: codeword_books::run_codebook(4),
            levels: codeword_books::level_codebook(1),
        };
        // no `for`: a run passes as many places as it says
        while s.place < total {
            if (Cursor { at: s.at }).end_of_data(self.payload) {
                return Ok(s.at);
            }
            let (level, next) = self.pair_step(s)?;
            out[next.place - 1] = level;
            s = next;
        }
        Ok(s.at)
    }
}

// The coefficients of all blocks, into a list that is all zero.
pub fn read_all(payload: &[u8], blocks: usize, out: &mut [i32]) -> Result<usize, Refusal>
    requires { (length payload.now ≤ payload_limit) × (blocks ≤ block_limit) × (out.old ≡ nil (64 * blocks)) }
    ensures { reached_says (pos 0) (64 * blocks) result out.new ≡ reading_of payload.now blocks }
{
    if blocks == 0 {
        return Ok(0);
    }
    let reader = PayloadReader { payload, blocks };
    let at = reader.read_dcs(out)?;
    reader.read_acs(at, out)
}
