// A tally of rows with their paired heads alone, counted as the rows are read: a head is counted when a tail pairs with it, and what a row's end asks is
// kept in the row's entry of the lent work slice, over which a second loop goes.
#![tactic(auto)]

pub mod ends;
pub mod entry;
mod free;
mod kinds;
mod row_cells;

ghost use Rattle.std.specs.Prelude.{◌≡◌, Bool, true, false, [], ℕ, List, ◌<◌, length, slice_index};
ghost use Rattle.definitions.specs.Sizes.{row_numbers_bound};
ghost use Rattle.paired_tally.specs.Paired.{PairedRows, LeftByRows, RowCounted};

use definitions::ArrowStats;
use holds::Tracker;
use taps::{TapTable, Taps};

/// The open heads of the rows so far and their counts, without steps, jumps, hands and what is held, which the rows' entries in the work slice tell.
#[derive(Drop)]
pub struct PairedTally {
    pub tracker: Tracker,
    pub stats: ArrowStats,
}

impl PairedTally {
    /// Before the first row, over a work slice that is all 0.
    pub fn new() -> Self
        ensures { (plain : Bool) (J : ℕ → Bool) (L : ℕ) (work : List ℕ)
            → ((i : ℕ) → slice_index work i ≡ 0) → PairedRows plain J L [] result work }
    {
        PairedTally {
            tracker: Tracker::new(),
            stats: row_tally::no_stats(),
        }
    }

    /// One row more of a plain tally, of as many cells as the rows before it.
    #[inline(always)]
    pub fn count_row(&mut self, row: u32, cells: &[u8], table: &TapTable, work: &mut [u16])
        requires wide { table.now.lanes.count ≡ length cells.now }
        requires entry_room { row < length work.old }
        requires rows_few { row < row_numbers_bound }
        requires reached { LeftByRows true (length cells.now) row self.old work.old }
        ensures { RowCounted true false row cells.now self.old work.old self.new work.new }
    {
        self.add_row::<true, false>(row, cells, table, work);
    }

    /// One row more of a judged tally, judged or not.
    #[inline(always)]
    pub fn judge_row(
        &mut self,
        row: u32,
        cells: &[u8],
        judged: bool,
        table: &TapTable,
        work: &mut [u16],
    )
        requires wide { table.now.lanes.count ≡ length cells.now }
        requires entry_room { row < length work.old }
        requires rows_few { row < row_numbers_bound }
        requires reached { LeftByRows false (length cells.now) row self.old work.old }
        ensures { RowCounted false judged row cells.now self.old work.old self.new work.new }
    {
        if judged {
            self.add_row::<false, true>(row, cells, table, work);
        } else {
            self.add_row::<false, false>(row, cells, table, work);
        }
    }

    // One row more, by its mask where it is of taps alone in columns without an open head, or else by its cells.
    #[inline(always)]
    fn add_row<const PLAIN: bool, const JUDGED: bool>(
        &mut self,
        row: u32,
        cells: &[u8],
        table: &TapTable,
        work: &mut [u16],
    )
        requires wide { table.now.lanes.count ≡ length cells.now }
        requires entry_room { row < length work.old }
        requires rows_few { row < row_numbers_bound }
        requires reached { LeftByRows PLAIN (length cells.now) row self.old work.old }
        ensures { RowCounted PLAIN JUDGED row cells.now self.old work.old self.new work.new }
    {
        match taps::free_taps(cells, self.tracker.busy) {
            Taps::Mask(mask) => self.add_free(row, mask, PLAIN, JUDGED, table, work),
            Taps::Other => self.add_cells::<PLAIN, JUDGED>(row, cells, work),
        }
    }
}
