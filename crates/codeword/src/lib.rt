// Codewords: document 01, section Codewords; the first half of entropy.rs.
#![tactic(auto)]

ghost use Rattle.std.specs.Prelude.{◌≡◌};
ghost use Rattle.bitstream.specs.Told.{told_read, outcome_at};
ghost use Rattle.codeword.specs.Codewords.{code, read_code};
ghost use Rattle.codeword.specs.Words.{InUse};
ghost use Rattle.bitstream_writer.specs.Words.{Spells};

use answers::Refusal;
use bitstream::Cursor;
use bitstream_writer::Word;

mod read; // a codeword at a cursor
pub mod words; // a codeword as one field

#[derive(Clone, Copy, Debug, PartialEq, Eq)]
pub enum Codebook {
    ExpGolomb(u32),
    RiceExp {
        last_rice_q: u32,
        k_rice: u32,
        k_exp: u32,
    },
}

impl Codebook {
    // The symbol at a cursor. Every parameter is answered, and none can overflow.
    pub fn read(self, payload: &[u8], c: Cursor) -> Result<(u32, Cursor), Refusal>
        ensures { told_read result ≡ outcome_at (read_code self) payload.now c.at }
    {
        match self {
            Codebook::ExpGolomb(k) => read::read_exp_golomb(payload, c, k),
            Codebook::RiceExp {
                last_rice_q,
                k_rice,
                k_exp,
            } => read::read_combo(payload, c, last_rice_q, k_rice, k_exp),
        }
    }

    // The codeword of any symbol n, in one of the codebooks in use. No function of both kinds is left to share with `read`: each arm calls its own.
    pub fn word(self, n: u32) -> Word
        requires { InUse self }
        ensures { Spells (code self n) result.len result.bits }
    {
        match self {
            Codebook::ExpGolomb(k) => words::exp_golomb_word(k, n),
            Codebook::RiceExp {
                last_rice_q,
                k_rice,
                k_exp,
            } => words::combo_word(last_rice_q, k_rice, k_exp, n),
        }
    }
}
