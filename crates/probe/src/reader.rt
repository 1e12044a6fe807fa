// The reader object: two fields, one behind the other.
ghost use Rattle.std.specs.Prelude.{◌≡◌};
ghost use Rattle.bitstream.specs.Reading.{read_bits};
ghost use Rattle.bitstream.specs.Told.{outcome_at};
ghost use Rattle.bitstream_reader.specs.Readers.{second_at};
ghost use Rattle.probe.specs.Bits.{result_of, value_of, next_told};

use crate::given;

#[unsafe(no_mangle)]
pub extern "C" fn probe_first_fields(
    payload: &[u8],
    n: u32,
    m: u32,
    first: &mut u32,
    first_next: &mut usize,
    second_result: &mut u32,
    second: &mut u32,
    second_next: &mut usize,
) -> u32
    ensures result { result ≡ result_of (outcome_at (read_bits n) payload.now 0) }
    ensures first { first.new ≡ value_of (outcome_at (read_bits n) payload.now 0) }
    ensures next { first_next.new ≡ next_told (outcome_at (read_bits n) payload.now 0) }
    ensures second_result { second_result.new ≡ result_of (second_at (read_bits n) (read_bits m) payload.now 0) }
    ensures second { second.new ≡ value_of (second_at (read_bits n) (read_bits m) payload.now 0) }
    ensures second_next { second_next.new ≡ next_told (second_at (read_bits n) (read_bits m) payload.now 0) }
{
    let fields = bitstream_reader::first_fields(payload, n, m);
    *second_result = given::read(fields.second, second, second_next);
    given::read(fields.first, first, first_next)
}
