// Document 01's sample program. On standard input: a byte, the number of blocks, and the payload behind it. On standard output: `bits N` and each
// coefficient in decimal, a line each; or the one line `refused N`. Where a read or a write fails, the program ends with that error.
#![tactic(auto)]

ghost use Rattle.std.specs.Prelude.{◌<◌, length, take, IfOk};
ghost use Rattle.std.specs.Io.{ReadsAtMost};
ghost use Rattle.std.specs.Io.KnownBytes.{Consumes, IsAtEnd};

use answers::Refusal;
use bitstream::PAYLOAD_LIMIT;
use entropy_elements::arguments::{BLOCK_LIMIT, LIST_LIMIT};
use std::io;
use std::io::Read;

fn refuse(rt: &impl Print, why: Refusal) -> io::Result<()> {
    println!(rt; "refused {}", why.number())
}

fn tell(rt: &impl Print, read: Result<usize, Refusal>, list: &[i32]) -> io::Result<()> {
    match read {
        Ok(bits) => {
            println!(rt; "bits {bits}")?;
            for value in list {
                println!(rt; "{value}")?;
            }
            Ok(())
        }
        Err(why) => refuse(rt, why),
    }
}

fn decode(rt: &impl Print, payload: &[u8], blocks: usize) -> io::Result<()> {
    let mut list = [0i32; LIST_LIMIT];
    // too many blocks are refused, whatever the length of the list
    let list = &mut list[..64 * blocks.min(BLOCK_LIMIT)];
    let read = entropy::decode_scanned_coefficients(payload, blocks, list);
    tell(rt, read, list)
}

// Reads until buf is full or the input ends, and returns how many bytes it put at the start of buf.
fn read_full<R: Read>(input: &mut R, buf: &mut [u8]) -> io::Result<usize>
    ensures bound { ReadsAtMost result buf.new }
    ensures bytes { IfOk result (λ n. Consumes (R.remaining input.old) (R.remaining input.new) (take n buf.new)) }
    ensures end { IfOk result (λ n. n < length buf.new → IsAtEnd (R.remaining input.new)) }
{
    let mut done = 0;
    // std's read_exact does not say how much it read before the input ended, and read_to_end takes a Vec
    while done < buf.len() {
        let n = input.read(&mut buf[done..])?;
        if n == 0 {
            return Ok(done);
        }
        done += n;
    }
    Ok(done)
}

// Whether there is a byte more.
fn more<R: Read>(input: &mut R) -> io::Result<bool> {
    Ok(0 < read_full(input, &mut [0u8; 1])?)
}

fn main(rt: HostRuntime) -> io::Result<()> {
    let mut input = rt.stdin();
    let mut count = [0u8; 1];
    if read_full(&mut input, &mut count)? == 0 {
        return refuse(&rt, Refusal::Limit);
    }
    let mut payload = [0u8; PAYLOAD_LIMIT];
    let n = read_full(&mut input, &mut payload)?;
    // the buffer is as long as a payload may be
    if more(&mut input)? {
        return refuse(&rt, Refusal::Limit);
    }
    decode(&rt, &payload[..n], usize::from(count[0]))
}
