// The limits of the coefficient coder, and the test of a call's arguments, which its entry points and the face for C share.
ghost use Rattle.std.specs.Prelude.{◌≡◌, ◌≤◌};
ghost use Rattle.answers.specs.Told.{told_arguments};
ghost use Rattle.entropy_elements.specs.Answers.{coefficient_arguments};

use answers::Refusal;

// The most blocks per call.
pub const BLOCK_LIMIT: usize = 32;

// The most coefficients per call.
pub const LIST_LIMIT: usize = 64 * BLOCK_LIMIT;

// The most bytes of a block's code.
pub const BLOCK_BYTES: usize = 504;

// A payload of so many bytes (none to encode) and a list of so many values, `each` for a block.
#[tactic(auto, unfolding(crate::specs::Answers::coefficient_arguments))]
pub fn test(each: usize, payload: usize, blocks: usize, list: usize) -> Result<(), Refusal>
    requires { each ≤ 256 }
    ensures { told_arguments result ≡ coefficient_arguments each payload blocks list }
{
    if BLOCK_LIMIT < blocks {
        return Err(Refusal::Limit);
    }
    if bitstream::PAYLOAD_LIMIT < payload {
        return Err(Refusal::Limit);
    }
    if list != each * blocks {
        return Err(Refusal::Length);
    }
    Ok(())
}
