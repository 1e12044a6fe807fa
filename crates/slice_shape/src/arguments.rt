// The test of a call's arguments, which the entry points and the face for C share: numbers, of which `slice_arguments` speaks.
ghost use Rattle.std.specs.Prelude.{◌≡◌, ◌&&◌, ◌≤◌};
ghost use Rattle.answers.specs.Told.{told_arguments};
ghost use Rattle.slice_shape.specs.Shapes.{known_chroma, known_scan, in_limit};
ghost use Rattle.slice_shape.specs.Arguments.{payloads_fit, slice_arguments};

use answers::Refusal;
use bitstream::PAYLOAD_LIMIT;

fn known(chroma: usize, scan: usize) -> bool
    ensures { result ≡ known_chroma chroma && known_scan scan }
{
    (chroma == 2 || chroma == 3) && (scan == 0 || scan == 1)
}

fn in_limits(macroblocks: usize, y: usize, cb: usize, cr: usize) -> bool
    ensures { result ≡ in_limit macroblocks && payloads_fit y cb cr }
{
    let few = 1 <= macroblocks && macroblocks <= crate::MAX_MBS_PER_SLICE;
    let short = y <= PAYLOAD_LIMIT && cb <= PAYLOAD_LIMIT && cr <= PAYLOAD_LIMIT;
    few && short
}

// Payloads of so many bytes (none to encode) and a list of so many values, `each` for a coefficient.
#[tactic(auto, unfolding(crate::specs::Arguments::slice_arguments, crate::specs::Shapes::chroma_blocks))]
pub fn test(
    each: usize,
    y: usize,
    cb: usize,
    cr: usize,
    macroblocks: usize,
    chroma: usize,
    scan: usize,
    list: usize,
) -> Result<(), Refusal>
    requires { each ≤ 4 }
    ensures { told_arguments result ≡ slice_arguments each y cb cr macroblocks chroma scan list }
{
    if !known(chroma, scan) {
        return Err(Refusal::Selector);
    }
    if !in_limits(macroblocks, y, cb, cr) {
        return Err(Refusal::Limit);
    }
    let blocks = macroblocks * (4 + 2 * crate::chroma_blocks(chroma));
    if list != each * (64 * blocks) {
        return Err(Refusal::Length);
    }
    Ok(())
}
