// A codeword at a cursor: the zeros before its 1, then a suffix. The suffix's width is tested before it is read.
ghost use Rattle.std.specs.Prelude.{◌≡◌, ◌+◌, ◌-◌, ◌<◌, ◌^◌, ◌≤◌};
ghost use Rattle.bitstream.specs.Told.{told_read, outcome_at};
ghost use Rattle.codeword.specs.Codewords.{suffix, read_suffix, read_code};
ghost use Rattle.codeword.specs.declared.Codebook.TheVariants.{ExpGolomb, RiceExp};

use answers::Refusal;
use bitstream::Cursor;

// A suffix of n bits, added to base.
fn read_suffix(payload: &[u8], c: Cursor, n: u32, base: u64) -> Result<(u32, Cursor), Refusal>
    requires { base < 2 ^ 40 }
    ensures { told_read result ≡ outcome_at (suffix n base) payload.now c.at }
{
    let (value, next) = c.read_bits(payload, n)?;
    let v = base + u64::from(value);
    if v < 4294967296 {
        Ok((v as u32, next))
    } else {
        Err(Refusal::Codeword)
    }
}

// What follows q zeros and a 1 in order-k exp-Golomb, added to base.
fn exp_suffix(
    payload: &[u8],
    c: Cursor,
    q: u32,
    k: u32,
    base: u64,
) -> Result<(u32, Cursor), Refusal>
    requires { (q ≤ 64) × (base < 2 ^ 39) }
    ensures { told_read result ≡ outcome_at (suffix (q + k) (base + (2 ^ (q + k) - 2 ^ k))) payload.now c.at }
{
    if bitstream::PAYLOAD_LIMIT < payload.len() {
        return Err(Refusal::Limit);
    }
    if 32 < k {
        return Err(Refusal::Codeword);
    }
    let n = q + k;
    if 32 < n {
        return Err(Refusal::Codeword);
    }
    read_suffix(payload, c, n, base + (common::pow2(n) - common::pow2(k)))
}

pub fn read_exp_golomb(payload: &[u8], c: Cursor, k: u32) -> Result<(u32, Cursor), Refusal>
    ensures { told_read result ≡ outcome_at (read_code (ExpGolomb k)) payload.now c.at }
{
    let (zeros, next) = c.zero_prefix(payload, 32)?;
    exp_suffix(payload, next, zeros, k, 0)
}

// What follows q zeros and a 1 in the combination (last_q, r, e).
fn combo_suffix(
    payload: &[u8],
    c: Cursor,
    q: u32,
    last_q: u32,
    r: u32,
    e: u32,
) -> Result<(u32, Cursor), Refusal>
    requires { q ≤ 64 }
    ensures { told_read result ≡ outcome_at (read_suffix (RiceExp last_q r e) q) payload.now c.at }
{
    if q <= last_q {
        if bitstream::PAYLOAD_LIMIT < payload.len() {
            return Err(Refusal::Limit);
        }
        if 32 < r {
            return Err(Refusal::Codeword);
        }
        return read_suffix(payload, c, r, u64::from(q) * common::pow2(r));
    }
    let more = q - (last_q + 1);
    if 31 < r {
        // The limit alone passes the largest symbol, and so does every sum: any base from 2^32 on gives the same answers.
        return exp_suffix(payload, c, more, e, 4294967296);
    }
    exp_suffix(
        payload,
        c,
        more,
        e,
        (u64::from(last_q) + 1) * common::pow2(r),
    )
}

// Two lines, as read_exp_golomb: another limit and another suffix, which a closure would not say more plainly.
pub fn read_combo(
    payload: &[u8],
    c: Cursor,
    last_q: u32,
    r: u32,
    e: u32,
) -> Result<(u32, Cursor), Refusal>
    ensures { told_read result ≡ outcome_at (read_code (RiceExp last_q r e)) payload.now c.at }
{
    let (zeros, next) = c.zero_prefix(payload, 64)?;
    combo_suffix(payload, next, zeros, last_q, r, e)
}
