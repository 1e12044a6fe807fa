// Signs: S(n) and its inverse, and the negation of a DC difference. S is a bijection of i32 and u32, so both mappings take every number.
#![tactic(auto)]

ghost use Rattle.std.specs.Prelude.{◌≡◌, ◌<◌, nat_abs};
ghost use Rattle.codeword_signs.specs.Signs.{is_negative, symbol_of, integer_of, turned};

pub fn negative(n: i32) -> bool
    ensures { result ≡ is_negative n }
{
    n.is_negative()
}

pub fn magnitude(n: i32) -> u32
    ensures { result ≡ nat_abs n }
{
    n.unsigned_abs()
}

// S(n)
#[tactic(auto, unfolding(crate::specs::Signs::symbol_of))]
pub fn signed_mapping(n: i32) -> u32
    ensures { result ≡ symbol_of n }
{
    let m = n.unsigned_abs();
    if n.is_negative() { m + (m - 1) } else { m * 2 }
}

// The number whose symbol is s.
#[tactic(auto, unfolding(crate::specs::Signs::integer_of))]
pub fn inv_signed_mapping(s: u32) -> i32
    ensures { result ≡ integer_of s }
{
    let half = (s / 2).cast_signed();
    if s % 2 == 0 { half } else { -1 - half }
}

// d, negated where the last difference was negative.
#[tactic(auto, unfolding(crate::specs::Signs::turned))]
pub fn turn(last_negative: bool, d: i32) -> i32
    requires { nat_abs d < 2147483648 }
    ensures { result ≡ turned last_negative d }
{
    if last_negative { -d } else { d }
}
