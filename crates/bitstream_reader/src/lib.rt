// The reader object: a payload and a bit position in it, as the Rust's BitReader has them, over the functions of `Cursor`, which do the work.
// The borrow checker covers each function over it, and the search proves them all: there is no proof file.
#![tactic(auto)]

ghost use Rattle.std.specs.Prelude.{◌≡◌, drop};
ghost use Rattle.bitstream.specs.Bits.{bits_of, ended};
ghost use Rattle.bitstream.specs.Reading.{read_bits};
ghost use Rattle.bitstream.specs.Told.{told_read, outcome_at};
ghost use Rattle.bitstream_reader.specs.Readers.{outcome_from, advanced, second_at};

use answers::Refusal;
use bitstream::Cursor;

#[derive(Clone, Copy)]
pub struct BitReader<'a> {
    payload: &'a [u8],
    at: usize,
}

impl<'a> BitReader<'a> {
    pub fn new(payload: &'a [u8]) -> BitReader<'a>
        ensures { (result.payload ≡ payload.entry) × (result.at ≡ 0) }
    {
        BitReader { payload, at: 0 }
    }

    pub fn bit_pos(&self) -> usize
        ensures { result ≡ self.now.at }
    {
        self.at
    }

    // The next n bits as a number. Where they are refused, the reader stays where it was.
    pub fn read_bits(&mut self, n: u32) -> Result<(u32, Cursor), Refusal>
        ensures { (told_read result ≡ outcome_from (read_bits n) self.old) × (self.new ≡ advanced (read_bits n) self.old) }
    {
        let (value, next) = Cursor { at: self.at }.read_bits(self.payload, n)?;
        self.at = next.at;
        Ok((value, next))
    }

    pub fn read_bit(&mut self) -> Result<(u32, Cursor), Refusal>
        ensures { (told_read result ≡ outcome_from (read_bits 1) self.old) × (self.new ≡ advanced (read_bits 1) self.old) }
    {
        self.read_bits(1)
    }

    // Whether no 1 bit remains unread.
    pub fn end_of_data(&self) -> bool
        ensures { result ≡ ended (drop self.now.at (bits_of self.now.payload.now)) }
    {
        Cursor { at: self.at }.end_of_data(self.payload)
    }
}

// The answers of two reads, each with the bit after it.
#[derive(Clone, Copy)]
pub struct Fields {
    pub first: Result<(u32, Cursor), Refusal>,
    pub second: Result<(u32, Cursor), Refusal>,
}

// The payload's first field, of n bits, and the one of m bits behind it. Where the first is refused, the second is read in its place.
pub fn first_fields(payload: &[u8], n: u32, m: u32) -> Fields
    ensures { (told_read result.first ≡ outcome_at (read_bits n) payload.now 0) × (told_read result.second ≡ second_at (read_bits n) (read_bits m) payload.now 0) }
{
    let mut reader = BitReader::new(payload);
    let first = reader.read_bits(n);
    let second = reader.read_bits(m);
    Fields { first, second }
}
