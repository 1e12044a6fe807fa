// Writing scanned coefficients: the writing half of entropy.rs. Counting and writing are one pass, which makes the words; `Counting` and `Writing` say
// what becomes of them.
#![tactic(auto)]

ghost use Rattle.std.specs.Prelude.{◌≡◌, [], ◌∷◌, ◌++◌, ◌+◌, ◌-◌, ◌*◌, ◌≤◌, ◌<◌, nat_abs, length, drop, position};
ghost use Rattle.bitstream.specs.Bytes.{stored};
ghost use Rattle.codeword.specs.Codewords.{code};
ghost use Rattle.codeword_books.specs.Books.{first_book};
ghost use Rattle.codeword.specs.Words.{InUse};
ghost use Rattle.bitstream_writer.specs.Words.{WordOf};
ghost use Rattle.bitstream_writer.specs.Passes.{Laying};
ghost use Rattle.codeword_signs.specs.Signs.{is_negative, symbol_of};
ghost use Rattle.entropy_elements.specs.Elements.{encode};
ghost use Rattle.entropy_elements.specs.Limits.{most, code_limit, Encodable};
ghost use Rattle.entropy_writing.specs.Writing.{DcFits, AcFits, first_dcs, dc_bits, dc_after, first_acs, is_level, ac_bits, acs_after, acs_code};

use bitstream_writer::codes::Coded;
use bitstream_writer::passes::{Counting, Pass, Writing};
use bitstream_writer::{Word, words};
use codeword::Codebook;
use entropy_elements::arguments;

// What the next DC looks back at: the last one, whether the last difference was negative, and the codebook that is next.
#[derive(Clone, Copy)]
struct WriterDcs {
    dc: i32,
    negative: bool,
    book: Codebook,
}

fn first_dcs(dc: i32) -> WriterDcs
    ensures { result ≡ first_dcs dc }
{
    WriterDcs {
        dc,
        negative: false,
        book: codeword_books::dc_diff_codebook(3),
    }
}

fn first_word(dc: i32) -> Word
    ensures { WordOf (code first_book (symbol_of dc)) result }
{
    codeword_books::first_dc_codebook().word(codeword_signs::signed_mapping(dc))
}

fn dc_word(s: WriterDcs, c: i32) -> Word
    requires { DcFits s × (nat_abs c ≤ most) }
    ensures { WordOf (dc_bits s c) result }
{
    s.book.word(codeword_signs::signed_mapping(codeword_signs::turn(s.negative, c - s.dc)))
}

fn dc_after(s: WriterDcs, c: i32) -> WriterDcs
    requires { DcFits s × (nat_abs c ≤ most) }
    ensures { result ≡ dc_after s c }
{
    let d = c - s.dc;
    WriterDcs {
        dc: c,
        negative: codeword_signs::negative(d),
        book: codeword_books::dc_diff_codebook(codeword_signs::magnitude(d)),
    }
}

// What the next level looks back at: the codebooks of runs and levels that are next.
#[derive(Clone, Copy)]
struct WriterAcs {
    runs: Codebook,
    levels: Codebook,
}

fn first_acs() -> WriterAcs
    ensures { result ≡ first_acs }
{
    WriterAcs {
        runs: codeword_books::run_codebook(4),
        levels: codeword_books::level_codebook(1),
    }
}

// The zeros before the next level, where there is one.
fn zeros(coeffs: &[i32]) -> Option<usize>
    ensures { result ≡ position is_level coeffs.now }
{
    coeffs.iter().position(|&c| c != 0)
}

fn run_word(s: WriterAcs, run: u32) -> Word
    requires { InUse s.runs }
    ensures { WordOf (code s.runs run) result }
{
    s.runs.word(run)
}

// A level with its sign.
fn level_word(s: WriterAcs, c: i32) -> Word
    requires { InUse s.levels × (0 < nat_abs c) }
    ensures { WordOf (code s.levels (nat_abs c - 1) ++ (is_negative c ∷ [])) result }
{
    words::with_bit(
        s.levels.word(codeword_signs::magnitude(c) - 1),
        codeword_signs::negative(c),
    )
}

fn acs_after(run: u32, c: i32) -> WriterAcs
    requires { 0 < nat_abs c }
    ensures { result ≡ acs_after run c }
{
    WriterAcs {
        runs: codeword_books::run_codebook(run),
        levels: codeword_books::level_codebook(codeword_signs::magnitude(c) - 1),
    }
}

// ---- counting and writing

// So many blocks of coefficients, all of them in range.
#[derive(Clone, Copy)]
pub struct Coefficients<'a> {
    pub list: &'a [i32],
    pub blocks: usize,
    ghost encodable: { Encodable blocks list.now },
}

// A run, and the level behind it with its sign.
fn ac<P: Pass>(out: &mut [u8], at: usize, s: WriterAcs, run: u32, c: i32) -> usize
    requires { AcFits s × (0 < nat_abs c) × P.Room (length out.old) (at + length (ac_bits s run c)) }
    ensures { P.Lays out.old at (ac_bits s run c) out.new result }
{
    P::put_pair(out, at, run_word(s, run), level_word(s, c))
}

impl<'a> Coefficients<'a> {
    fn dcs<P: Pass>(&self, out: &mut [u8]) -> usize
        requires { (0 < self.now.blocks) × P.Room (length out.old) (length (encode self.now.blocks self.now.list.now)) }
        ensures { Laying P.Lays out.old 0 (encode self.now.blocks self.now.list.now) out.new result (acs_code first_acs (drop self.now.blocks self.now.list.now)) }
    {
        let first = self.list[0];
        let mut s = first_dcs(first);
        let mut at = P::put_word(out, 0, first_word(first));
        for &c in &self.list[1..self.blocks] {
            at = P::put_word(out, at, dc_word(s, c));
            s = dc_after(s, c);
        }
        at
    }

    fn acs<P: Pass>(&self, out: &mut [u8], start: usize) -> usize
        requires { P.Room (length out.old) (start + length (acs_code first_acs (drop self.now.blocks self.now.list.now))) }
        ensures { P.Lays out.old start (acs_code first_acs (drop self.now.blocks self.now.list.now)) out.new result }
    {
        let mut s = first_acs();
        let mut at = start;
        let mut rest = &self.list[self.blocks..];
        // A turn takes as many coefficients as its run has, and the level, which no `for` does.
        while let Some(zeros) = zeros(rest) {
            let run = zeros as u32;
            let c = rest[zeros];
            at = ac::<P>(out, at, s, run, c);
            s = acs_after(run, c);
            rest = &rest[zeros + 1..];
        }
        at
    }

    // The code of all coefficients: the DCs, and then the others.
    fn code<P: Pass>(&self, out: &mut [u8]) -> usize
        requires { P.Room (length out.old) (length (encode self.now.blocks self.now.list.now)) }
        ensures { P.Lays out.old 0 (encode self.now.blocks self.now.list.now) out.new result }
    {
        if self.blocks == 0 {
            0
        } else {
            let at = self.dcs::<P>(out);
            self.acs::<P>(out, at)
        }
    }
}

// The bits of the code.
pub fn count(coeffs: &[i32], blocks: usize) -> usize
    requires { Encodable blocks coeffs.now }
    ensures { (result ≡ length (encode blocks coeffs.now)) × (result ≤ code_limit) }
{
    let coefficients = Coefficients {
        list: coeffs,
        blocks,
    };
    coefficients.code::<Counting>(&mut [])
}

// Writes the code at the start of out, which has room for it.
pub fn write(coeffs: &[i32], blocks: usize, out: &mut [u8]) -> usize
    requires { Encodable blocks coeffs.now × (length (encode blocks coeffs.now) ≤ 8 * length out.old) }
    ensures count { result ≡ length (encode blocks coeffs.now) }
    ensures buffer { out.new ≡ stored out.old (encode blocks coeffs.now) }
{
    let coefficients = Coefficients {
        list: coeffs,
        blocks,
    };
    coefficients.code::<Writing>(out)
}

impl<'a> Coded for Coefficients<'a> {
    ghost code = { λ s. encode s.blocks s.list.now };

    fn most_bytes(&self) -> usize {
        arguments::BLOCK_BYTES * self.blocks
    }

    fn count(&self) -> usize {
        count(self.list, self.blocks)
    }

    fn write(&self, out: &mut [u8]) -> usize {
        write(self.list, self.blocks, out)
    }
}
