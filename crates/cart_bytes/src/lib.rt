// Coefficients as bytes, for a caller in C: four bytes each, the lowest first, 32-bit two's complement.
#![tactic(auto)]

ghost use Rattle.std.specs.Prelude.{◌≡◌, ◌*◌, length};
ghost use Rattle.cart_bytes.specs.Bytes.{ints_of, bytes_of};

// The numbers of the bytes.
#[tactic(auto, using(crate::proofs::ByteLaws::loads))]
pub fn load(bytes: &[u8], out: &mut [i32])
    requires { length bytes.now ≡ 4 * length out.old }
    ensures { out.new ≡ ints_of bytes.now }
{
    let (words, _) = bytes.as_chunks::<4>();
    for (i, x) in out.iter_mut().enumerate() {
        *x = i32::from_le_bytes(words[i]);
    }
}

// The bytes of the numbers.
#[tactic(auto, using(crate::proofs::ByteLaws::stores))]
pub fn store(list: &[i32], out: &mut [u8])
    requires { length out.old ≡ 4 * length list.now }
    ensures { out.new ≡ bytes_of list.now }
{
    for (i, x) in list.iter().enumerate() {
        out[4 * i..4 * i + 4].copy_from_slice(&x.to_le_bytes());
    }
}
