// A codeword at the top of a word: how long it is and its symbol, without a branch on the codebook. The plain reader, `Codebook::read`, has the
// codewords that are too long for that, and a payload's last bytes.
#![tactic(auto)]

ghost use Rattle.std.specs.Prelude.{◌≡◌, ◌+◌, ◌-◌, ◌^◌, ◌<◌, ◌≤◌, if◌then◌else◌};
ghost use Rattle.bitstream.specs.Told.{InPayload, told_read, outcome_at};
ghost use Rattle.codeword.specs.Codewords.{width, base, read_code};
ghost use Rattle.codeword.specs.Words.{InUse};
ghost use Rattle.codeword_peek.specs.Peeks.{peeked, combo_of, as_book, Small};

use answers::Refusal;
use bitstream::{Cursor, windows};
use codeword::Codebook;

// How many bits of a word are sure to be the payload's.
pub const SHOWN: u32 = 57;

// The codeword at the top of a word. Its value is told where it is SHOWN bits long at most, and is 0 elsewhere; no Option, since peek promises the
// length of a longer one too (`no_one` of PeekExamples).
#[derive(Clone, Copy, Debug, PartialEq, Eq)]
pub struct Peeked {
    pub len: u32,
    pub value: u32,
}

// A combination; exp-Golomb of order k is the one of 0, k and k + 1.
#[derive(Clone, Copy)]
struct Combo {
    last: u32,
    r: u32,
    e: u32,
}

fn combo_of(book: Codebook) -> Combo
    requires { InUse book }
    ensures { result ≡ combo_of book }
{
    match book {
        Codebook::ExpGolomb(k) => Combo {
            last: 0,
            r: k,
            e: k + 1,
        },
        Codebook::RiceExp {
            last_rice_q,
            k_rice,
            k_exp,
        } => Combo {
            last: last_rice_q,
            r: k_rice,
            e: k_exp,
        },
    }
}

// One of two numbers: as a function of its own, it becomes a choice without a branch.
fn pick(first: bool, a: u32, b: u32) -> u32
    ensures { result ≡ (if first then a else b) }
{
    if first { a } else { b }
}

// How long a codeword is that begins with q zeros. Where the first number is picked, the difference may wrap.
fn code_len(b: Combo, q: u32) -> u32
    requires { Small b × (q ≤ 64) }
    ensures { result ≡ q + 1 + width (as_book b) q }
{
    let far = (2 * q + b.e).wrapping_sub(b.last);
    pick(q <= b.last, q + 1 + b.r, far)
}

// The symbol of a codeword that begins with q zeros and has the number x.
fn code_value(b: Combo, q: u32, x: u32) -> u32
    requires { Small b × (q ≤ 64) × (2 ^ width (as_book b) q ≤ x) × (x < 2 ^ 31) }
    ensures { result ≡ base (as_book b) q + (x - 2 ^ width (as_book b) q) }
{
    let near = q <= b.last;
    let more = pick(near, q, b.last + 1) << b.r;
    let less = 1u32 << pick(near, b.r, b.e);
    x + more - less
}

// The codeword at the top of w.
pub fn peek(book: Codebook, w: u64) -> Peeked
    requires { InUse book }
    ensures { result ≡ peeked book w }
{
    let b = combo_of(book);
    let q = w.leading_zeros();
    let len = code_len(b, q);
    if SHOWN < len {
        return Peeked { len, value: 0 };
    }
    let x = (w >> (64 - len)) as u32;
    Peeked {
        len,
        value: code_value(b, q, x),
    }
}

// The symbol at a bit of a payload, as `Codebook::read` has it.
pub fn read(book: Codebook, payload: &[u8], at: usize) -> Result<(u32, Cursor), Refusal>
    requires { InUse book × InPayload payload.now at }
    ensures { told_read result ≡ outcome_at (read_code book) payload.now at }
{
    if payload.len() < at / 8 + 8 {
        return book.read(payload, Cursor { at });
    }
    let one = peek(book, windows::window(payload, at));
    if SHOWN < one.len {
        return book.read(payload, Cursor { at });
    }
    Ok((
        one.value,
        Cursor {
            at: at + one.len as usize,
        },
    ))
}
