// One row of a measure more: an ordinary one is counted and noted by its mask, any other by its cells.
#![tactic(auto)]

ghost use Rattle.std.specs.Prelude.{◌≡◌, ◌<◌, length};
ghost use Rattle.definitions.specs.Sizes.{row_count_bound};
ghost use Rattle.row_walk.specs.Rows.{CellsReady};
ghost use Rattle.tap_walk.specs.Walked.{TapsReady, TapsAdded, RowAdded};

use row_walk::cell_walk::Run;
use taps::{TapTable, Taps};

// One row of taps more, all in columns that are not busy.
fn add_taps(run: &mut Run, mask: u16, slots: &mut [u8], table: &TapTable)
    requires { TapsReady run.old mask table.now.wide slots.old }
    ensures { TapsAdded run.old mask slots.old slots.new run.new }
{
    row_tally::count_taps(&mut run.stats, mask, table);
    run.count = row_notes::push_mask(run.row, run.count, mask, slots);
    run.row += 1;
    run.last = if mask != 0 { run.row } else { run.last };
}

/// One row more. It is written into its loop, so that the columns and the counts stay where they are.
#[inline(always)]
pub fn add_row(run: &mut Run, row: &[u8], slots: &mut [u8], table: &TapTable)
    requires ready { CellsReady row.now run.old slots.old }
    requires width { length row.now ≡ table.now.lanes.count }
    requires rows_few { run.old.row < row_count_bound }
    ensures { RowAdded row.now run.old slots.old run.new slots.new }
{
    match taps::free_taps(row, run.columns.busy) {
        Taps::Mask(mask) => add_taps(run, mask, slots, table),
        Taps::Other => row_walk::walk_cells(run, row, slots),
    }
}
