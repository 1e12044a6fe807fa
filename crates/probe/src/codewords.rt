// A codeword of any codebook, whatever its parameters.
ghost use Rattle.std.specs.Prelude.{◌≡◌};
ghost use Rattle.bitstream.specs.Told.{outcome_at};
ghost use Rattle.codeword.specs.Codewords.{read_code};
ghost use Rattle.codeword.specs.declared.Codebook.TheVariants.{ExpGolomb, RiceExp};
ghost use Rattle.probe.specs.Bits.{result_of, value_of, next_told};

use crate::given;
use bitstream::Cursor;
use codeword::Codebook;

#[unsafe(no_mangle)]
pub extern "C" fn probe_read_exp_golomb(
    payload: &[u8],
    at: usize,
    k: u32,
    value: &mut u32,
    next: &mut usize,
) -> u32
    ensures result { result ≡ result_of (outcome_at (read_code (ExpGolomb k)) payload.now at) }
    ensures value { value.new ≡ value_of (outcome_at (read_code (ExpGolomb k)) payload.now at) }
    ensures next { next.new ≡ next_told (outcome_at (read_code (ExpGolomb k)) payload.now at) }
{
    let book = Codebook::ExpGolomb(k);
    given::read(book.read(payload, Cursor { at }), value, next)
}

#[unsafe(no_mangle)]
pub extern "C" fn probe_read_combo(
    payload: &[u8],
    at: usize,
    last_rice_q: u32,
    k_rice: u32,
    k_exp: u32,
    value: &mut u32,
    next: &mut usize,
) -> u32
    ensures result { result ≡ result_of (outcome_at (read_code (RiceExp last_rice_q k_rice k_exp)) payload.now at) }
    ensures value { value.new ≡ value_of (outcome_at (read_code (RiceExp last_rice_q k_rice k_exp)) payload.now at) }
    ensures next { next.new ≡ next_told (outcome_at (read_code (RiceExp last_rice_q k_rice k_exp)) payload.now at) }
{
    let book = Codebook::RiceExp {
        last_rice_q,
        k_rice,
        k_exp,
    };
    given::read(book.read(payload, Cursor { at }), value, next)
}
