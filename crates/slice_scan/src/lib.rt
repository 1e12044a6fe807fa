// Slice scan: document 01, section Slice scan; build_slice_scan and inverse_slice_scan of slice.rs, both as gathers, so that each place is stored once.
#![tactic(auto)]

ghost use Rattle.std.specs.Prelude.{◌≡◌, ◌+◌, ◌*◌, ◌≤◌, ◌<◌, pos, get_or, length};
ghost use Rattle.slice_scan.specs.Scan.{scanned_place, natural, scanned_of, placed, placed_of};
ghost use Rattle.slice_scan.specs.Shapes.{Shape, Lists, Indices, Laid};

use quant::scans;

// Where a component's blocks stand among those of a slice: of the per blocks of each of mbs macroblocks, the c from off on are its own.
#[derive(Clone, Copy)]
pub struct Component {
    pub mbs: usize,
    pub per: usize,
    pub off: usize,
    pub c: usize,
}

// What each of the three components has.
#[derive(Clone, Copy, Debug, PartialEq, Eq)]
pub struct Components<T> {
    pub y: T,
    pub cb: T,
    pub cr: T,
}

// Natural coefficient nat of the c blocks from first on, to out from d on.
fn scan_macroblock(blocks: &[i32], out: &mut [i32], d: usize, first: usize, c: usize, nat: usize)
    requires { (nat < 64) × (64 * (first + c) ≤ length blocks.now) × (d + c ≤ length out.old) }
    ensures { Laid (λ b. get_or blocks.now ((first + b) * 64 + nat) (pos 0)) d c out.old out.new }
{
    for b in 0..c {
        out[d + b] = blocks[(first + b) * 64 + nat];
    }
}

// Natural coefficient nat of a component's blocks, to out from d on: one scanned index.
fn scan_index(blocks: &[i32], out: &mut [i32], d: usize, at: Component, nat: usize)
    requires { Shape at.mbs at.per at.off at.c (length blocks.now) (length out.old) × (nat < 64) × (d + at.mbs * at.c ≤ length out.old) }
    ensures { Laid (natural at.per at.off at.c blocks.now nat) d (at.mbs * at.c) out.old out.new }
{
    for m in 0..at.mbs {
        scan_macroblock(blocks, out, d + m * at.c, m * at.per + at.off, at.c, nat);
    }
}

// The scanned list of one component. Internal: the slice coder tests the shape.
pub fn scan_component(blocks: &[i32], out: &mut [i32], at: Component, interlaced: bool)
    requires { Shape at.mbs at.per at.off at.c (length blocks.now) (length out.old) }
    ensures { out.new ≡ scanned_of interlaced at.mbs at.per at.off at.c blocks.now }
{
    let inv = scans::inv_scan(interlaced);
    let total = at.mbs * at.c;
    for (n, nat) in inv.iter().enumerate() {
        scan_index(blocks, out, n * total, at, usize::from(*nat));
    }
}

// Block b, of the c of macroblock m, from the scanned list of its component, to out from d on.
fn place_block(
    list: &[i32],
    out: &mut [i32],
    d: usize,
    mbs: usize,
    c: usize,
    m: usize,
    b: usize,
    scan: &[u8; 64],
)
    requires { Indices scan.now × (m < mbs) × (b < c) × (length list.now ≡ 64 * (mbs * c)) × (d + 64 ≤ length out.old) }
    ensures { Laid (λ nat. get_or list.now (scanned_place mbs c (get_or scan.now nat 0) m b) (pos 0)) d 64 out.old out.new }
{
    let total = mbs * c;
    let base = m * c + b;
    for (nat, n) in scan.iter().enumerate() {
        out[d + nat] = list[usize::from(*n) * total + base];
    }
}

// Block j of the slice, from the list of its component.
fn place_any(
    lists: Components<&[i32]>,
    out: &mut [i32],
    j: usize,
    mbs: usize,
    c: usize,
    scan: &[u8; 64],
)
    requires { Lists mbs c (length lists.y.now) (length lists.cb.now) (length lists.cr.now) (length out.old) × Indices scan.now × (j < mbs * (4 + 2 * c)) }
    ensures { Laid (placed scan.now mbs c lists.entry.y.now lists.entry.cb.now lists.entry.cr.now j) (j * 64) 64 out.old out.new }
{
    let per = 4 + 2 * c;
    let d = j * 64;
    let m = j / per;
    let p = j % per;
    if p < 4 {
        place_block(lists.y, out, d, mbs, 4, m, p, scan);
    } else if p < 4 + c {
        place_block(lists.cb, out, d, mbs, c, m, p - 4, scan);
    } else {
        place_block(lists.cr, out, d, mbs, c, m, p - (4 + c), scan);
    }
}

// The blocks of the three scanned lists. Internal: the slice coder tests the shape.
pub fn place_components(
    lists: Components<&[i32]>,
    out: &mut [i32],
    mbs: usize,
    c: usize,
    interlaced: bool,
)
    requires { Lists mbs c (length lists.y.now) (length lists.cb.now) (length lists.cr.now) (length out.old) }
    ensures { out.new ≡ placed_of interlaced mbs c lists.entry.y.now lists.entry.cb.now lists.entry.cr.now }
{
    let scan = scans::block_scan(interlaced);
    for j in 0..mbs * (4 + 2 * c) {
        place_any(lists, out, j, mbs, c, &scan);
    }
}
