// A list of zeros: what a refused decode leaves.
ghost use Rattle.std.specs.Prelude.{◌≡◌, pos, length, replicate};

pub fn zero(out: &mut [i32])
    ensures { out.new ≡ replicate (length out.old) (pos 0) }
{
    out.fill(0);
}
