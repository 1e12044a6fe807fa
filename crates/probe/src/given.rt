// An answer as C has it: 0 or the refusal's number, and what comes back, which is 0 beside a refusal.
ghost use Rattle.std.specs.Prelude.{◌≡◌};
ghost use Rattle.bitstream.specs.Told.{told_read};
ghost use Rattle.probe.specs.Bits.{result_of, value_of, next_told};
ghost use Rattle.probe.specs.Numbers.{told_number};

use answers::Refusal;
use bitstream::Cursor;

// Of what was read its value, and the bit behind it.
pub fn read(answer: Result<(u32, Cursor), Refusal>, value: &mut u32, next: &mut usize) -> u32
    ensures result { result ≡ result_of (told_read answer) }
    ensures value { value.new ≡ value_of (told_read answer) }
    ensures next { next.new ≡ next_told (told_read answer) }
{
    match answer {
        Ok((read, after)) => {
            *value = read;
            *next = after.at;
            0
        }
        Err(why) => {
            *value = 0;
            *next = 0;
            why.number()
        }
    }
}

pub fn number(answer: Result<usize, Refusal>, out: &mut usize) -> u32
    ensures result { result ≡ (told_number answer).result }
    ensures out { out.new ≡ (told_number answer).value }
{
    match answer {
        Ok(number) => {
            *out = number;
            0
        }
        Err(why) => {
            *out = 0;
            why.number()
        }
    }
}
