// What no other crate owns: a power of two, and in proofs/ laws on numbers, lists and ℤ.
#![tactic(auto)]

ghost use Rattle.std.specs.Prelude.{◌≡◌, ◌^◌, ◌<◌};

// 2 to the k.
pub fn pow2(k: u32) -> u64
    requires { k < 64 }
    ensures { result ≡ 2 ^ k }
{
    1u64 << k
}
