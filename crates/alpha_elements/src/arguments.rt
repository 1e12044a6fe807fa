// The limits of the alpha coder, and the test of a call's arguments.
ghost use Rattle.std.specs.Prelude.{◌≡◌};
ghost use Rattle.alpha_elements.specs.Kinds.{told_kind};
ghost use Rattle.alpha_elements.specs.Answers.{alpha_arguments};

use crate::AlphaChannelType;
use answers::Refusal;

// The most samples of a call.
pub const SAMPLE_LIMIT: usize = 16384;

// The code number of a kind, any number, so many samples, and a payload of so many bytes (none to encode).
#[tactic(auto, unfolding(crate::specs::Answers::alpha_arguments))]
pub fn test(kind: usize, samples: usize, payload: usize) -> Result<AlphaChannelType, Refusal>
    ensures { told_kind result ≡ alpha_arguments kind samples payload }
{
    let chosen = AlphaChannelType::try_from(kind)?;
    if SAMPLE_LIMIT < samples || bitstream::PAYLOAD_LIMIT < payload {
        Err(Refusal::Limit)
    } else {
        Ok(chosen)
    }
}
