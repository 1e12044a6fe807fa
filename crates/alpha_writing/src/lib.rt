// Writing alpha samples: the writing half of alpha.rs. Counting and writing are one pass, which makes the words; `Counting` and `Writing` say what
// becomes of them.
#![tactic(auto)]

ghost use Rattle.std.specs.Prelude.{◌≡◌, ◌==◌, true, not, ◌+◌, ◌*◌, ◌≤◌, ◌<◌, length};
ghost use Rattle.std.specs.List.{prefix_len};
ghost use Rattle.bitstream.specs.Bytes.{stored};
ghost use Rattle.bitstream_writer.specs.Words.{word_bits};
ghost use Rattle.alpha_elements.specs.Kinds.{mask_of};
ghost use Rattle.alpha_elements.specs.Limits.{sample_limit, alpha_code_limit, run_limit, samples_in_range};
ghost use Rattle.alpha_elements.specs.Elements.{encode_alpha};
ghost use Rattle.alpha_writing.specs.Writing.{pair_bits, RunOf, SamplesDue, PairOf};

use alpha_elements::{AlphaChannelType, values, words};
use bitstream_writer::Word;
use bitstream_writer::passes::{Counting, Pass, Writing};

// Whether a sample is out of range (refusal 4). All are looked at, without a branch, so that several go at once.
pub fn out_of_range(samples: &[u16], kind: AlphaChannelType) -> bool
    ensures { result ≡ not (samples_in_range kind samples.now) }
{
    let mask = kind.mask();
    let mut wrong = false;
    for &s in samples {
        wrong |= mask < u32::from(s);
    }
    wrong
}

// ---- a pair

// A difference and its run: the word to write, the samples that it takes, and what is carried then.
#[derive(Clone, Copy)]
struct Pair {
    word: Word,
    run: usize,
    prev: u32,
}

// How many samples from the first on are v.
fn same(samples: &[u16], v: u16) -> usize
    ensures { result ≡ prefix_len (λ s. s == v) samples.now }
{
    samples.iter().take_while(|&&s| s == v).count()
}

// The run of the first sample: the longest one, up to the limit.
fn run_of(samples: &[u16]) -> usize
    requires { 0 < length samples.now }
    ensures { RunOf samples.now result }
{
    let limit = AlphaChannelType::MAX_RUN as usize;
    let most = samples.len().min(limit);
    1 + same(&samples[1..most], samples[0])
}

// A difference, and a run of n behind it. They are 17 and 16 bits at the most, so that one put takes both.
fn pair_word(kind: AlphaChannelType, prev: u32, v: u32, n: usize) -> Word
    requires { (prev ≤ mask_of kind + 1) × (v ≤ mask_of kind) × (1 ≤ n) × (n ≤ run_limit) }
    ensures { (word_bits result ≡ pair_bits kind prev v n) × (result.len ≤ 33) }
{
    let difference = words::difference_word(kind, prev, v);
    let run = words::run_word(n as u32);
    bitstream_writer::words::join(difference, run)
}

// The pair from the first sample on.
fn pair_of(samples: &[u16], kind: AlphaChannelType, prev: u32) -> Pair
    requires { SamplesDue kind samples.now prev }
    ensures { PairOf kind samples.now prev result }
{
    let v = u32::from(samples[0]);
    let run = run_of(samples);
    Pair {
        word: pair_word(kind, prev, v, run),
        run,
        prev: v + 1,
    }
}

// ---- counting and writing

// The code of all samples.
fn code<P: Pass>(samples: &[u16], kind: AlphaChannelType, out: &mut [u8]) -> usize
    requires { (length samples.now ≤ sample_limit) × (samples_in_range kind samples.now ≡ true) × P.Room (length out.old) (length (encode_alpha kind samples.now)) }
    ensures { P.Lays out.old 0 (encode_alpha kind samples.now) out.new result }
{
    let mut prev = values::start();
    let mut at = 0;
    let mut rest = samples;
    // A turn takes as many samples as its run has, which no `for` does.
    while !rest.is_empty() {
        let pair = pair_of(rest, kind, prev);
        at = P::put(out, at, pair.word);
        prev = pair.prev;
        rest = &rest[pair.run..];
    }
    at
}

// The bits of the code.
pub fn count(samples: &[u16], kind: AlphaChannelType) -> usize
    requires { (length samples.now ≤ sample_limit) × (samples_in_range kind samples.now ≡ true) }
    ensures { (result ≡ length (encode_alpha kind samples.now)) × (result ≤ alpha_code_limit) }
{
    code::<Counting>(samples, kind, &mut [])
}

// Writes the code at the start of out, which has room for it.
pub fn write(samples: &[u16], kind: AlphaChannelType, out: &mut [u8]) -> usize
    requires { (length samples.now ≤ sample_limit) × (samples_in_range kind samples.now ≡ true) × (length (encode_alpha kind samples.now) ≤ 8 * length out.old) }
    ensures count { result ≡ length (encode_alpha kind samples.now) }
    ensures buffer { out.new ≡ stored out.old (encode_alpha kind samples.now) }
{
    code::<Writing>(samples, kind, out)
}
