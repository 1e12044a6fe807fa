// The block scans, one entry a call, and whether a pair of matrices is the flat one.
ghost use Rattle.std.specs.Prelude.{◌≡◌};
ghost use Rattle.bitstream.specs.Bits.{val};
ghost use Rattle.quant.specs.Weights.{is_default};
ghost use Rattle.probe.specs.Numbers.{told_number};
ghost use Rattle.probe.specs.Tables.{entry_at, entry_of, scan_tables};

use crate::given;
use answers::Refusal;
use quant::{QuantMatrices, scans};

// ---- an entry of a table: the C interface has numbers for the scan and for which table of it

#[tactic(auto, unfolding(crate::specs::Tables::entry_at))]
fn entry_at(table: [u8; 64], index: usize) -> Result<usize, Refusal>
    ensures { told_number result ≡ entry_at table index }
{
    let entry = table.get(index).ok_or(Refusal::Selector)?;
    Ok(usize::from(*entry))
}

#[tactic(auto, unfolding(crate::specs::Tables::entry_at, crate::specs::Tables::scan_tables))]
fn scan_entry(scan: usize, inverse: usize, index: usize) -> Result<usize, Refusal>
    ensures { told_number result ≡ entry_of (scan_tables scan) inverse index }
{
    match (scan, inverse) {
        (0, 0) => entry_at(scans::block_scan(false), index),
        (0, 1) => entry_at(scans::inv_scan(false), index),
        (1, 0) => entry_at(scans::block_scan(true), index),
        (1, 1) => entry_at(scans::inv_scan(true), index),
        _ => Err(Refusal::Selector),
    }
}

#[unsafe(no_mangle)]
pub extern "C" fn probe_scan(scan: usize, inverse: usize, index: usize, place: &mut usize) -> u32
    ensures result { result ≡ (entry_of (scan_tables scan) inverse index).result }
    ensures place { place.new ≡ (entry_of (scan_tables scan) inverse index).value }
{
    given::number(scan_entry(scan, inverse, index), place)
}

// ---- a pair of matrices

// 1 where both tables are all fours.
#[unsafe(no_mangle)]
pub extern "C" fn probe_is_default(luma: &[u8; 64], chroma: &[u8; 64]) -> u32
    ensures { result ≡ val (is_default (record { luma = luma.now; chroma = chroma.now })) }
{
    let matrices = QuantMatrices {
        luma: *luma,
        chroma: *chroma,
    };
    u32::from(matrices.is_default())
}
