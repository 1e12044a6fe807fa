// A weight, and a table of 64 of them. Tables go by value, so that their length is known.
ghost use Rattle.std.specs.Prelude.{◌≡◌, ◌≤◌};
ghost use Rattle.quant.specs.Weights.{valid_table, blend_weight, blend_table};

#[tactic(auto, unfolding(crate::specs::Weights::valid_table))]
pub fn table_valid(t: [u8; 64]) -> bool
    ensures { result ≡ valid_table t }
{
    t.iter().all(|w| (2..=63).contains(w))
}

// Of four and the perceptual weight w, rounded, and held to 2..63. (16 bits are enough: several weights go at once.)
#[tactic(auto, unfolding(crate::specs::Weights::blend_weight, crate::specs::Weights::blended))]
fn blend_weight(p: u16, w: u8) -> u8
    requires { p ≤ 8 }
    ensures { result ≡ blend_weight p w }
{
    let x = ((8 - p) * 4 + p * u16::from(w) + 4) / 8;
    x.clamp(2, 63) as u8
}

// (The library's map of an array took nine times as long.)
#[tactic(auto, unfolding(crate::specs::Weights::blend_table))]
pub fn blend_table(p: u16, t: [u8; 64]) -> [u8; 64]
    requires { p ≤ 8 }
    ensures { result ≡ blend_table p t }
{
    let mut out = t;
    for (i, w) in t.iter().enumerate() {
        out[i] = blend_weight(p, *w);
    }
    out
}
