// What a cell of a row does by its kind: to the tally, to the entries and to its column's stack.
ghost use Rattle.std.specs.Prelude.{◌≡◌, ℕ, [], true, false, ◌+◌, ◌/◌, ◌≤◌, ◌<◌, length, slice_index};
ghost use Rattle.definitions.specs.Sizes.{count_bound};
ghost use Rattle.definitions.specs.Tally.{empty_sum};
ghost use Rattle.definitions.specs.declared.DepthEffect.TheVariants.{Blocks};
ghost use Rattle.holds.specs.Stacks.{TrackReady, TrackStepped};
ghost use Rattle.row_tally.specs.Bounds.{Below};
ghost use Rattle.row_tally.specs.Raised.{with_cells};
ghost use Rattle.paired_tally.specs.Cells.{add_kind, head_counts, pair_stats, pair_work};

use definitions::{ArrowStats, Cell};
use holds::Tracker;

// One cell more of an unjudged row, which is a fake or nothing.
#[inline(always)]
#[tactic(auto, unfolding(row_tally::specs::Raised::with_cells))]
fn count_fake(stats: &mut ArrowStats, cell: Cell)
    requires few { Below (count_bound + 9) stats.old }
    ensures { stats.new ≡ with_cells stats.old (add_kind false false empty_sum 0 cell) }
{
    match cell {
        Cell::Empty | Cell::Tail | Cell::KeySound => {}
        Cell::Tap
        | Cell::Hold
        | Cell::Roll
        | Cell::Mine
        | Cell::Lift
        | Cell::Fake
        | Cell::LowerMine
        | Cell::LowerLift
        | Cell::LowerFake => stats.fakes += 1,
    }
}

/// One cell more in a column of a direction, of a plain tally's row, of a judged or of an unjudged one.
#[inline(always)]
pub fn count_kind(stats: &mut ArrowStats, direction: usize, cell: Cell, plain: bool, judged: bool)
    requires few { Below (count_bound + 9) stats.old }
    ensures { stats.new ≡ with_cells stats.old (add_kind plain judged empty_sum direction cell) }
{
    if plain {
        row_tally::count_cell(stats, direction, cell, false);
        return;
    }
    if judged {
        row_tally::count_cell(stats, direction, cell, true);
        return;
    }
    count_fake(stats, cell);
}

// A head that is paired counts, by its number: in a tally where its row counts heads, or else as a fake.
#[inline(always)]
#[tactic(auto, unfolding(row_tally::specs::Raised::with_cells, row_tally::specs::Sums::sum_with_cell))]
fn count_number(stats: &mut ArrowStats, direction: usize, number: u32, counts: bool)
    requires few { Below (count_bound + 9) stats.old }
    ensures { stats.new ≡ pair_stats counts number direction stats.old }
{
    if !counts {
        stats.fakes += 1;
        return;
    }
    row_tally::count_cell(stats, direction, Cell::Tap, false);
    if number % 2 == 1 {
        stats.rolls += 1;
    } else {
        stats.holds += 1;
    }
}

/// A tail of this row pairs with the head of a number.
#[inline(always)]
pub fn end_pair(
    stats: &mut ArrowStats,
    row: u32,
    direction: usize,
    number: u32,
    plain: bool,
    work: &mut [u16],
)
    requires few { Below (count_bound + 9) stats.old }
    requires earlier { number / 2 < row }
    requires entry_room { row < length work.old }
    requires row_entry_low { slice_index work.old row ≤ 15018 }
    requires head_entry_low { slice_index work.old (number / 2) ≤ 15018 }
    ensures value { stats.new ≡ pair_stats
        (head_counts plain (slice_index work.old (number / 2))) number direction stats.old }
    ensures work_after { work.new ≡ pair_work
        (head_counts plain (slice_index work.old (number / 2))) (number / 2) row work.old }
{
    let head = (number / 2) as usize;
    let at = row as usize;
    let head_entry = work[head];
    if plain | (8192 <= head_entry) {
        count_number(stats, direction, number, true);
        work[head] = head_entry + 17;
        work[at] += 256;
        return;
    }
    count_number(stats, direction, number, false);
}

/// The stack of a column is emptied, where it has a head.
#[inline(always)]
pub fn clear_open(tracker: &mut Tracker, column: usize)
    requires { TrackReady column tracker.old }
    ensures { (row : ℕ) → TrackStepped Blocks row column tracker.old tracker.new [] }
{
    if tracker.depths[column] != 0 {
        tracker.clear(column);
    }
}
