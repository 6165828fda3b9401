// A tally counted anew with only tracker-paired heads, over rows that are read back out of minimised text.
#![tactic(auto)]

ghost use Rattle.std.specs.Prelude.{◌≡◌, ℕ, length, slice_index, replicate, List};
ghost use Rattle.definitions.specs.Tally.{tally};
ghost use Rattle.definitions.specs.Lines.{Row};
ghost use Rattle.definitions.specs.Correction.{paired_only, corrected};
ghost use Rattle.phantoms.specs.Phantoms.{Counts};
ghost use Rattle.definitions.specs.ReadBack.{rows_read_back};
ghost use Rattle.corrected_tally.specs.Room.{Room};

use definitions::{ArrowStats, Lanes};
use paired_tally::{PairedTally, ends};
use phantoms::Phantoms;
use taps::TapTable;

// The tally of the rows with only tracker-paired heads, by one reading and then a loop over the entries that it leaves in the work slice, which is all 0 before.
fn count_paired(text: &[u8], lanes: Lanes, work: &mut [u16]) -> ArrowStats
    requires room { Room lanes.count text.now work.old }
    requires clear { (i : ℕ) → slice_index work.old i ≡ 0 }
    ensures { result ≡ tally (paired_only (rows_read_back lanes.count text.now)) }
{
    let table = TapTable::for_lanes(lanes);
    let mut counted = PairedTally::new();
    let mut row: u32 = 0;
    for cells in reader::back::back_rows(text, lanes) {
        counted.count_row(row, cells, &table, &mut *work);
        row += 1;
    }
    ends::end_rows(&counted, &*work, row as usize)
}

/// The tally of the rows of minimised text with only tracker-paired heads. The work slice may hold anything, and is 0 afterwards.
pub fn recalc_phantom_stats(text: &[u8], lanes: Lanes, work: &mut [u16]) -> ArrowStats
    requires { Room lanes.count text.now work.old }
    ensures value { result ≡ tally (paired_only (rows_read_back lanes.count text.now)) }
    ensures work_after { work.new ≡ replicate (length work.old) 0 }
{
    slices::zero_past(&mut *work, 0, 0);
    let stats = count_paired(text, lanes, &mut *work);
    slices::zero_past(work, 0, 0);
    stats
}

/// The tally of rows as a call answers it: as it was counted, or, where heads and tails do not pair, counted anew over the minimised text.
/// The work slice may hold anything, and is 0 afterwards.
pub fn corrected_stats(
    stats: ArrowStats,
    p: Phantoms,
    text: &[u8],
    lanes: Lanes,
    work: &mut [u16],
) -> ArrowStats
    requires { Room lanes.count text.now work.old }
    ensures value { (rows : List Row) → Counts lanes.count rows p → stats ≡ tally rows
        → result ≡ corrected lanes.count rows (rows_read_back lanes.count text.now) }
    ensures work_after { work.new ≡ replicate (length work.old) 0 }
{
    if phantoms::is_corrected(p, lanes.count) {
        let anew = recalc_phantom_stats(text, lanes, work);
        row_tally::with_steps(anew, stats.total_steps)
    } else {
        slices::zero_past(work, 0, 0);
        stats
    }
}
