// A code as a whole, into a lent buffer: nothing is written unless there is room for all of it.
ghost use Rattle.std.specs.Prelude.{◌≡◌, ◌*◌, ◌^◌, ◌<◌, ◌≤◌, Bool, List, length};
ghost use Rattle.answers.specs.Answers.{encoding};
ghost use Rattle.answers.specs.Told.{told_encoded};
ghost use Rattle.bitstream.specs.Bytes.{bytes_for, stored};
ghost use Rattle.bitstream.specs.Written.{written};

use answers::{Code, EncodeRefusal};

// What has a code.
pub trait Coded {
    ghost code: { Self → List Bool };

    // Bytes that are enough for the code, told without counting its bits.
    fn most_bytes(&self) -> usize
        ensures { length (code self.now) ≤ 8 * result };

    // The bits of the code.
    fn count(&self) -> usize
        ensures count { result ≡ length (code self.now) }
        ensures small { result < 2 ^ 32 };

    // Writes the code at the start of out, and tells its bits.
    fn write(&self, out: &mut [u8]) -> usize
        requires { length (code self.now) ≤ 8 * length out.old }
        ensures count { result ≡ length (code self.now) }
        ensures small { result < 2 ^ 32 }
        ensures buffer { out.new ≡ stored out.old (code self.now) };
}

// What is told of a code of so many bits.
fn sized(bits: usize) -> Code
    requires { bits < 2 ^ 32 }
    ensures { (result.bits ≡ bits) × (result.bytes ≡ bytes_for bits) }
{
    Code {
        bytes: bits.div_ceil(8),
        bits,
    }
}

// Writes a code at the start of out where it fits.
pub fn encode<C: Coded>(coded: &C, out: &mut [u8]) -> Result<Code, EncodeRefusal>
    ensures { encoding (told_encoded result) out.new ≡ written (C.code coded.now) out.old }
{
    // a buffer with room for any code of this shape needs no counting first
    if out.len() < coded.most_bytes() {
        let needed = sized(coded.count()).bytes;
        if out.len() < needed {
            return Err(EncodeRefusal::Room { needed });
        }
    }
    Ok(sized(coded.write(out)))
}
