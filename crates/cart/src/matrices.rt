// Weight matrices, and the scale of an index.
ghost use Rattle.std.specs.Prelude.{◌≡◌};
ghost use Rattle.quant.specs.Weights.{flat_pair, perceptual_pair, proxy_pair, lt_pair, standard_pair, hq_pair, weights_valid, loads_luma, loads_chroma, blend_of, qscale_of};
ghost use Rattle.bitstream.specs.Bits.{val};
ghost use Rattle.cart.specs.Matrices.{pair_of, blend_result, blended_pair};

use quant::QuantMatrices;

#[unsafe(no_mangle)]
pub extern "C" fn cart_qscale(index: u8, scale: &mut u64) -> u32
    ensures result { result ≡ 0 }
    ensures scale { scale.new ≡ qscale_of index }
{
    *scale = u64::from(quant::qscale(index));
    0
}

// Stores a pair, which is always done.
fn store(m: QuantMatrices, luma: &mut [u8; 64], chroma: &mut [u8; 64]) -> u32
    ensures result { result ≡ 0 }
    ensures pair { pair_of luma.new chroma.new ≡ m }
{
    // by variables: the check covers no array field that is stored straight
    let l = m.luma;
    let c = m.chroma;
    *luma = l;
    *chroma = c;
    0
}

#[unsafe(no_mangle)]
pub extern "C" fn cart_flat(luma: &mut [u8; 64], chroma: &mut [u8; 64]) -> u32
    ensures result { result ≡ 0 }
    ensures pair { pair_of luma.new chroma.new ≡ flat_pair }
{
    store(QuantMatrices::flat(), luma, chroma)
}

#[unsafe(no_mangle)]
pub extern "C" fn cart_perceptual(luma: &mut [u8; 64], chroma: &mut [u8; 64]) -> u32
    ensures result { result ≡ 0 }
    ensures pair { pair_of luma.new chroma.new ≡ perceptual_pair }
{
    store(QuantMatrices::perceptual(), luma, chroma)
}

#[unsafe(no_mangle)]
pub extern "C" fn cart_signature_proxy(luma: &mut [u8; 64], chroma: &mut [u8; 64]) -> u32
    ensures result { result ≡ 0 }
    ensures pair { pair_of luma.new chroma.new ≡ proxy_pair }
{
    store(QuantMatrices::signature_proxy(), luma, chroma)
}

#[unsafe(no_mangle)]
pub extern "C" fn cart_signature_lt(luma: &mut [u8; 64], chroma: &mut [u8; 64]) -> u32
    ensures result { result ≡ 0 }
    ensures pair { pair_of luma.new chroma.new ≡ lt_pair }
{
    store(QuantMatrices::signature_lt(), luma, chroma)
}

#[unsafe(no_mangle)]
pub extern "C" fn cart_signature_standard(luma: &mut [u8; 64], chroma: &mut [u8; 64]) -> u32
    ensures result { result ≡ 0 }
    ensures pair { pair_of luma.new chroma.new ≡ standard_pair }
{
    store(QuantMatrices::signature_standard(), luma, chroma)
}

#[unsafe(no_mangle)]
pub extern "C" fn cart_signature_hq(luma: &mut [u8; 64], chroma: &mut [u8; 64]) -> u32
    ensures result { result ≡ 0 }
    ensures pair { pair_of luma.new chroma.new ≡ hq_pair }
{
    store(QuantMatrices::signature_hq(), luma, chroma)
}

#[unsafe(no_mangle)]
pub extern "C" fn cart_blend(number: u64, luma: &mut [u8; 64], chroma: &mut [u8; 64]) -> u32
    ensures result { result ≡ blend_result (blend_of number).answer }
    ensures pair { pair_of luma.new chroma.new ≡ blended_pair (blend_of number) (pair_of luma.old chroma.old) }
{
    match QuantMatrices::blend(number as usize) {
        Ok(pair) => store(pair, luma, chroma),
        Err(none) => none.why.number(),
    }
}

#[unsafe(no_mangle)]
pub extern "C" fn cart_matrix_flags(
    luma: &[u8; 64],
    chroma: &[u8; 64],
    valid: &mut u64,
    load_luma: &mut u64,
    load_chroma: &mut u64,
) -> u32
    ensures result { result ≡ 0 }
    ensures valid { valid.new ≡ val (weights_valid (pair_of luma.now chroma.now)) }
    ensures luma { load_luma.new ≡ val (loads_luma (pair_of luma.now chroma.now)) }
    ensures chroma { load_chroma.new ≡ val (loads_chroma (pair_of luma.now chroma.now)) }
{
    let pair = QuantMatrices {
        luma: *luma,
        chroma: *chroma,
    };
    *valid = u64::from(pair.weights_valid());
    *load_luma = u64::from(pair.load_luma());
    *load_chroma = u64::from(pair.load_chroma());
    0
}
