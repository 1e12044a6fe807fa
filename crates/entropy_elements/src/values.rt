// DCs and levels from their symbols. A DC in range differs from another by at most twice the range, so no sum overflows.
ghost use Rattle.std.specs.Prelude.{◌≡◌, ◌≤◌, nat_abs};
ghost use Rattle.entropy_elements.specs.Limits.{most};
ghost use Rattle.entropy_elements.specs.Values.{first_dc, next_dc, level_of};

use crate::range::MOST;

// A DC, whether its difference is negative, and that difference's magnitude.
#[derive(Clone, Copy, Debug, PartialEq, Eq)]
pub struct Dc {
    pub dc: i32,
    pub negative: bool,
    pub magnitude: u32,
}

// The first DC, whose symbol is s; none if it is out of range (refusal 8). It counts as a difference of 3.
#[tactic(auto, unfolding(crate::specs::Values::first_dc, crate::specs::Values::dc_of))]
pub fn first_dc(s: u32) -> Option<Dc>
    ensures { result ≡ first_dc s }
{
    let dc = codeword_signs::inv_signed_mapping(s);
    if MOST < dc.unsigned_abs() {
        None
    } else {
        Some(Dc {
            dc,
            negative: false,
            magnitude: 3,
        })
    }
}

// The DC after dc, whose difference has symbol s; none if it is out of range (refusal 8). The difference is negated where the last one was negative.
// The sum is over whole numbers.
#[tactic(auto, using(std::proofs::lemmas::Int::ints), unfolding(crate::specs::Values::next_dc, crate::specs::Values::dc_of, codeword_signs::specs::Signs::turned))]
pub fn next_dc(dc: i32, last_negative: bool, s: u32) -> Option<Dc>
    requires { nat_abs dc ≤ most }
    ensures { result ≡ next_dc dc last_negative s }
{
    let d = codeword_signs::inv_signed_mapping(s);
    let m = d.unsigned_abs();
    if 2 * MOST < m {
        return None;
    }
    let t = codeword_signs::turn(last_negative, d);
    let sum = dc + t;
    if MOST < sum.unsigned_abs() {
        None
    } else {
        Some(Dc {
            dc: sum,
            negative: t.is_negative(),
            magnitude: m,
        })
    }
}

// The level of magnitude s + 1 with its sign; none if it is out of range (refusal 8).
#[tactic(auto, using(std::proofs::lemmas::Int::ints), unfolding(crate::specs::Values::level_of))]
pub fn level_of(negative: bool, s: u32) -> Option<i32>
    ensures { result ≡ level_of negative s }
{
    if MOST <= s {
        None
    } else {
        let n = s as i32;
        Some(if negative { -1 - n } else { n + 1 })
    }
}
