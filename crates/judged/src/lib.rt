// Judged tallies, over rows read by `parse_minimized_rows`. One definition serves both calls: which rows are judged is a test.
#![tactic(auto)]

pub mod judged_pass;

ghost use Rattle.std.specs.Prelude.{◌≡◌, [], ℕ, ◌≤◌, length, slice_index};
ghost use Rattle.definitions.specs.Sizes.{most_bytes};
ghost use Rattle.definitions.specs.Lists.{padded};
ghost use Rattle.definitions.specs.Lanes.{most_rows_in};
ghost use Rattle.definitions.specs.Refusals.{leaves};
ghost use Rattle.definitions.specs.Entries.{judged_checked, judged_answer, flagged_answer};
ghost use Rattle.judged.specs.Timing.{judged_by, tally_by};

use definitions::{ArrowStats, Lanes, Refusal};
use paired_tally::{PairedTally, ends};
use taps::TapTable;

// Whether row i is judged: every row where it does not go by flags, else by its own. A row past the flags is unjudged.
#[tactic(auto, unfolding(definitions::specs::Judged::judged_at))]
fn is_judged(flags: Option<&[u8]>, i: usize) -> bool
    ensures { result ≡ judged_by flags.entry i }
{
    match flags {
        None => true,
        Some(flags) => flags.get(i).copied().unwrap_or(0) != 0,
    }
}

// The judged tally of the rows by one reading and then a loop over the entries that it leaves in the work slice, which is all 0 before.
fn judge_by(data: &[u8], lanes: Lanes, flags: Option<&[u8]>, work: &mut [u16]) -> ArrowStats
    requires text_length { length «data».now ≤ most_bytes }
    requires work_room { most_rows_in lanes.count (length «data».now) ≤ length work.old }
    requires clear { (i : ℕ) → slice_index work.old i ≡ 0 }
    ensures { result ≡ tally_by flags.entry lanes.count «data».now }
{
    let table = TapTable::for_lanes(lanes);
    let mut counted = PairedTally::new();
    let mut row: u32 = 0;
    for cells in reader::back::back_rows(data, lanes) {
        let judged = is_judged(flags, row as usize);
        counted.judge_row(row, cells, judged, &table, &mut *work);
        row += 1;
    }
    ends::end_judged_rows(&counted, &*work, row as usize)
}

// The judged tally of an accepted text through the work slice, which is left 0 throughout.
fn judge_rows(data: &[u8], lanes: Lanes, flags: Option<&[u8]>, work: &mut [u16]) -> ArrowStats
    requires text_length { length «data».now ≤ most_bytes }
    requires work_room { most_rows_in lanes.count (length «data».now) ≤ length work.old }
    ensures value { result ≡ tally_by flags.entry lanes.count «data».now }
    ensures work_after { work.new ≡ padded 0 (length work.old) [] }
{
    slices::zero_past(&mut *work, 0, 0);
    let stats = judge_by(data, lanes, flags, &mut *work);
    slices::zero_past(work, 0, 0);
    stats
}

/// The judged tally of an accepted text: in one pass where every row is judged and the rows are clean, else through the work slice, as the
/// Rust's `recalc_judgable_stats` does.
#[tactic(auto, using(crate::proofs::JudgedPass::answer_told))]
pub fn judge_accepted(
    data: &[u8],
    lanes: Lanes,
    flags: Option<&[u8]>,
    work: &mut [u16],
) -> ArrowStats
    requires text_length { length «data».now ≤ most_bytes }
    requires work_room { most_rows_in lanes.count (length «data».now) ≤ length work.old }
    ensures value { result ≡ tally_by flags.entry lanes.count «data».now }
    ensures work_after { work.new ≡ padded 0 (length work.old) [] }
{
    if flags.is_none()
        && let Some(stats) = judged_pass::judge_clean(data, lanes)
    {
        slices::zero_past(work, 0, 0);
        return stats;
    }
    judge_rows(data, lanes, flags, work)
}

// The judged tally of a text with every row judged, or by flags.
#[tactic(auto, unfolding(definitions::specs::Entries::judged_checked))]
fn judge(
    data: &[u8],
    lanes: usize,
    flags: Option<&[u8]>,
    work: &mut [u16],
) -> Result<ArrowStats, Refusal>
    ensures value { result ≡ judged_checked lanes «data».now work.old
        (tally_by flags.entry lanes «data».now) }
    ensures work_after { work.new ≡ leaves 0 result [] work.old }
{
    let columns = Lanes::of_number(lanes)?.known();
    let len = data.len();
    refusals::text_fits(len)?;
    refusals::room_for_work(columns, len, work.len())?;
    Ok(judge_accepted(data, columns, flags, work))
}

/// The tally of minimised text with every row judged, as the Rust's function of that name. A refusal (12, 1 or 5) is the caller's mistake.
#[tactic(auto, unfolding(definitions::specs::Judged::judged_tally))]
pub fn process_rows_judgable(
    data: &[u8],
    lanes: usize,
    work: &mut [u16],
) -> Result<ArrowStats, Refusal>
    ensures value { result ≡ judged_answer lanes «data».now work.old }
    ensures work_after { work.new ≡ leaves 0 result [] work.old }
{
    judge(data, lanes, None, work)
}

/// The tally of minimised text with one flag byte a row, 0 unjudged, else judged; a row past the flags is unjudged. It is the Rust's function of that
/// name with flags in place of its timing data. A refusal (12, 1 or 5) is the caller's mistake.
#[tactic(auto, unfolding(definitions::specs::Judged::flagged_tally))]
pub fn process_timing_rows(
    data: &[u8],
    lanes: usize,
    flags: &[u8],
    work: &mut [u16],
) -> Result<ArrowStats, Refusal>
    ensures value { result ≡ flagged_answer lanes «data».now work.old flags.now }
    ensures work_after { work.new ≡ leaves 0 result [] work.old }
{
    judge(data, lanes, Some(flags), work)
}
