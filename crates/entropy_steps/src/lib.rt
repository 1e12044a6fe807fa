// The transitions of the coefficient coder: where a DC, a run and a level lead. They take what was read, a value and the bit behind it, and know
// nothing of how it was read, so that every reader can stand on them.
#![tactic(auto)]

ghost use Rattle.std.specs.Prelude.{◌≡◌, ◌≤◌, ◌<◌};
ghost use Rattle.entropy_elements.specs.Limits.{list_limit};
ghost use Rattle.entropy_steps.specs.DcSteps.{dc_step_of};
ghost use Rattle.entropy_steps.specs.RunSteps.{run_step_of};
ghost use Rattle.entropy_steps.specs.LevelSteps.{level_step_of};

use answers::Refusal;
use codeword::Codebook;
use entropy_elements::values::Dc;

// What the next DC looks back at: where it begins, the last DC, the last difference's sign and the codebook that its magnitude chose.
#[derive(Clone, Copy, Debug, PartialEq, Eq)]
pub struct Dcs {
    pub at: usize,
    pub dc: i32,
    pub negative: bool,
    pub book: Codebook,
}

// Where a DC leads whose codeword ends at the bit `at`; none is a DC out of range.
#[tactic(auto, unfolding(crate::specs::DcSteps::dc_step_of))]
pub fn dc_to(d: Option<Dc>, at: usize) -> Result<Dcs, Refusal>
    ensures { result ≡ dc_step_of d at }
{
    let Dc {
        dc,
        negative,
        magnitude,
    } = d.ok_or(Refusal::Range)?;
    Ok(Dcs {
        at,
        dc,
        negative,
        book: codeword_books::dc_diff_codebook(magnitude),
    })
}

// What the next run or level looks back at: where it begins, its place in the list, and the codebooks of the next run and the next level.
#[derive(Clone, Copy, Debug, PartialEq, Eq)]
pub struct Acs {
    pub at: usize,
    pub place: usize,
    pub runs: Codebook,
    pub levels: Codebook,
}

// Where a run leads that ends at the bit `at`, in a list of `total` places: the level that is due stands at its end.
#[tactic(auto, unfolding(crate::specs::RunSteps::run_step_of))]
pub fn run_to(total: usize, s: Acs, run: u32, at: usize) -> Result<Acs, Refusal>
    requires { s.place ≤ total }
    ensures { result ≡ run_step_of total s run at }
{
    if total - s.place <= run as usize {
        return Err(Refusal::Overrun);
    }
    Ok(Acs {
        at,
        place: s.place + run as usize,
        runs: codeword_books::run_codebook(run),
        levels: s.levels,
    })
}

// Where a level leads whose sign ends at the bit `at`; none is a level out of range.
#[tactic(auto, unfolding(crate::specs::LevelSteps::level_step_of))]
pub fn level_to(level: Option<i32>, s: Acs, symbol: u32, at: usize) -> Result<(i32, Acs), Refusal>
    requires { s.place < list_limit }
    ensures { result ≡ level_step_of level s symbol at }
{
    let level = level.ok_or(Refusal::Range)?;
    let next = Acs {
        at,
        place: s.place + 1,
        runs: s.runs,
        levels: codeword_books::level_codebook(symbol),
    };
    Ok((level, next))
}
