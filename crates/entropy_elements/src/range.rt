// The range of a coefficient.
ghost use Rattle.std.specs.Prelude.{◌≡◌, not};
ghost use Rattle.entropy_elements.specs.Limits.{in_range};

// The largest magnitude of a coefficient.
pub const MOST: u32 = 536870911;

// Whether any coefficient is out of range (refusal 4). All are looked at, without a branch, so that several go at once.
#[tactic(auto, using(crate::proofs::RangeLaws::not_in_range, std::proofs::lemmas::Grind::common_steps))]
pub fn out_of_range(coeffs: &[i32]) -> bool
    ensures { result ≡ not (in_range coeffs.now) }
{
    let mut wrong = false;
    for c in coeffs {
        wrong |= MOST < c.unsigned_abs();
    }
    wrong
}
