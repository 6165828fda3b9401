// The cells of a row, one after the other: each counts at once, but for a head, which counts when a tail pairs with it.
ghost use Rattle.std.specs.Prelude.{◌≡◌, false, ◌==◌, ◌+◌, ◌≤◌, ◌<◌, length, slice_index, slice_set};
ghost use Rattle.definitions.specs.Lists.{number_of_bool};
ghost use Rattle.definitions.specs.Tracker.{hold_at};
ghost use Rattle.definitions.specs.declared.Cell.TheVariants.{Tail};
ghost use Rattle.definitions.specs.Sizes.{count_bound, row_numbers_bound};
ghost use Rattle.definitions.specs.Cells.{cell_of, hold_effect};
ghost use Rattle.definitions.specs.Correction.{is_opening};
ghost use Rattle.definitions.specs.Tally.{empty_sum};
ghost use Rattle.definitions.specs.declared.DepthEffect.TheVariants.{Nothing, Blocks, Opens};
ghost use Rattle.row_tally.specs.Bounds.{Below};
ghost use Rattle.row_tally.specs.Raised.{with_cells};
ghost use Rattle.paired_tally.specs.Paired.{LeftByRows, RowCounted};
ghost use Rattle.paired_tally.specs.Cells.{Within, GoneOn, add_kind, own_entry};

use crate::{PairedTally, entry, kinds};
use definitions::{Cell, direction};

// The place of a cell: its row and its column, whether the tally is plain, and where it is not, whether the row is judged.
#[derive(Clone, Copy)]
struct Place {
    row: u32,
    column: usize,
    plain: bool,
    judged: bool,
}

impl PairedTally {
    // A cell of the row that is no head counts.
    #[inline(always)]
    fn count_own(&mut self, at: Place, towards: usize, cell: Cell, work: &mut [u16])
        requires few { Below (count_bound + 9) self.old.stats }
        requires entry_room { at.row < length work.old }
        requires entry_low { slice_index work.old at.row ≤ 15018 }
        requires no_head { is_opening (hold_effect cell) ≡ false }
        ensures tracker { self.new.tracker ≡ self.old.tracker }
        ensures value { self.new.stats ≡ with_cells self.old.stats
            (add_kind at.plain at.judged empty_sum towards cell) }
        ensures work_after { work.new ≡ slice_set work.old at.row
            (own_entry at.plain at.judged cell (slice_index work.old at.row)) }
    {
        let row = at.row as usize;
        kinds::count_kind(&mut self.stats, towards, cell, at.plain, at.judged);
        work[row] = entry::with_cell(work[row], cell, at.plain, at.judged);
    }

    // A cell that does nothing to the open heads of its column.
    #[inline(always)]
    fn pass_cell(&mut self, at: Place, cells: &[u8], cell: Cell, work: &mut [u16])
        requires inside { at.column < length cells.now }
        requires known { cell ≡ cell_of (slice_index cells.now at.column) }
        requires passes { hold_effect cell ≡ Nothing }
        requires reached { Within at.plain at.judged at.row cells.now at.column self.old work.old }
        ensures { GoneOn at.plain at.judged at.row cells.now at.column self.old work.old
            (at.column + 1) self.new work.new }
    {
        let towards = direction(cells.len(), at.column);
        self.count_own(at, towards, cell, work);
    }

    // A cell that empties its column's stack.
    #[inline(always)]
    fn block_cell(&mut self, at: Place, cells: &[u8], cell: Cell, work: &mut [u16])
        requires inside { at.column < length cells.now }
        requires known { cell ≡ cell_of (slice_index cells.now at.column) }
        requires blocks { hold_effect cell ≡ Blocks }
        requires reached { Within at.plain at.judged at.row cells.now at.column self.old work.old }
        ensures { GoneOn at.plain at.judged at.row cells.now at.column self.old work.old
            (at.column + 1) self.new work.new }
    {
        kinds::clear_open(&mut self.tracker, at.column);
        let towards = direction(cells.len(), at.column);
        self.count_own(at, towards, cell, work);
    }

    // A head, which is pushed alone.
    #[inline(always)]
    fn open_cell(&mut self, at: Place, cells: &[u8], roll: u32, work: &mut [u16])
        requires inside { at.column < length cells.now }
        requires known { roll ≡ number_of_bool (slice_index cells.now at.column == 52) }
        requires opens { hold_at (slice_index cells.now at.column) ≡ Opens }
        requires reached { Within at.plain at.judged at.row cells.now at.column self.old work.old }
        ensures { GoneOn at.plain at.judged at.row cells.now at.column self.old work.old
            (at.column + 1) self.new work.new }
    {
        self.tracker.push(2 * at.row + roll, at.column);
    }

    // A tail, which pairs with the newest head of its column or with none.
    #[inline(always)]
    fn close_cell(&mut self, at: Place, cells: &[u8], work: &mut [u16])
        requires inside { at.column < length cells.now }
        requires known { Tail ≡ cell_of (slice_index cells.now at.column) }
        requires reached { Within at.plain at.judged at.row cells.now at.column self.old work.old }
        ensures { GoneOn at.plain at.judged at.row cells.now at.column self.old work.old
            (at.column + 1) self.new work.new }
    {
        let towards = direction(cells.len(), at.column);
        match self.tracker.pop(at.column) {
            None => self.count_own(at, towards, Cell::Tail, work),
            Some(number) => {
                kinds::end_pair(&mut self.stats, at.row, towards, number, at.plain, work)
            }
        }
    }

    // Any cell: by a function of its own, since it would not stay in line.
    #[inline(never)]
    fn count_met<const PLAIN: bool, const JUDGED: bool>(
        &mut self,
        row: u32,
        cells: &[u8],
        column: usize,
        work: &mut [u16],
    )
        requires inside { column < length cells.now }
        requires reached { Within PLAIN JUDGED row cells.now column self.old work.old }
        ensures { GoneOn PLAIN JUDGED row cells.now column self.old work.old
            (column + 1) self.new work.new }
    {
        let at = Place {
            row,
            column,
            plain: PLAIN,
            judged: JUDGED,
        };
        match cells::cell_of(cells[column]) {
            Cell::Empty => self.pass_cell(at, cells, Cell::Empty, work),
            Cell::Tap => self.block_cell(at, cells, Cell::Tap, work),
            Cell::Hold => self.open_cell(at, cells, 0, work),
            Cell::Tail => self.close_cell(at, cells, work),
            Cell::Roll => self.open_cell(at, cells, 1, work),
            Cell::Mine => self.block_cell(at, cells, Cell::Mine, work),
            Cell::Lift => self.block_cell(at, cells, Cell::Lift, work),
            Cell::Fake => self.block_cell(at, cells, Cell::Fake, work),
            Cell::KeySound => self.pass_cell(at, cells, Cell::KeySound, work),
            Cell::LowerMine => self.pass_cell(at, cells, Cell::LowerMine, work),
            Cell::LowerLift => self.pass_cell(at, cells, Cell::LowerLift, work),
            Cell::LowerFake => self.pass_cell(at, cells, Cell::LowerFake, work),
        }
    }

    // The cell of a row in a column. A byte that is no more than `0` is an empty cell.
    #[inline(always)]
    #[tactic(auto, unfolding(definitions::specs::Cells::cell_of))]
    fn count_at<const PLAIN: bool, const JUDGED: bool>(
        &mut self,
        row: u32,
        cells: &[u8],
        column: usize,
        work: &mut [u16],
    )
        requires inside { column < length cells.now }
        requires reached { Within PLAIN JUDGED row cells.now column self.old work.old }
        ensures { GoneOn PLAIN JUDGED row cells.now column self.old work.old
            (column + 1) self.new work.new }
    {
        if cells[column] <= b'0' {
            let at = Place {
                row,
                column,
                plain: PLAIN,
                judged: JUDGED,
            };
            self.pass_cell(at, cells, Cell::Empty, work);
            return;
        }
        self.count_met::<PLAIN, JUDGED>(row, cells, column, work);
    }

    // Four cells of a row from a column on, written one after the other: a loop would take each count of the tally into a register.
    #[inline(always)]
    fn count_four<const PLAIN: bool, const JUDGED: bool>(
        &mut self,
        row: u32,
        cells: &[u8],
        from: usize,
        work: &mut [u16],
    )
        requires inside { from + 4 ≤ length cells.now }
        requires reached { Within PLAIN JUDGED row cells.now from self.old work.old }
        ensures { GoneOn PLAIN JUDGED row cells.now from self.old work.old
            (from + 4) self.new work.new }
    {
        self.count_at::<PLAIN, JUDGED>(row, cells, from, &mut *work);
        self.count_at::<PLAIN, JUDGED>(row, cells, from + 1, &mut *work);
        self.count_at::<PLAIN, JUDGED>(row, cells, from + 2, &mut *work);
        self.count_at::<PLAIN, JUDGED>(row, cells, from + 3, work);
    }

    // The cells of a row from a column on, one by one.
    #[inline(always)]
    fn count_from<const PLAIN: bool, const JUDGED: bool>(
        &mut self,
        row: u32,
        cells: &[u8],
        from: usize,
        work: &mut [u16],
    )
        requires inside { from ≤ length cells.now }
        requires reached { Within PLAIN JUDGED row cells.now from self.old work.old }
        ensures { GoneOn PLAIN JUDGED row cells.now from self.old work.old
            (length cells.now) self.new work.new }
    {
        let mut column = from;
        while column < cells.len() {
            self.count_at::<PLAIN, JUDGED>(row, cells, column, &mut *work);
            column += 1;
        }
    }

    // All cells of a row.
    #[inline(always)]
    fn count_all<const PLAIN: bool, const JUDGED: bool>(
        &mut self,
        row: u32,
        cells: &[u8],
        work: &mut [u16],
    )
        requires wide { 4 ≤ length cells.now }
        requires reached { Within PLAIN JUDGED row cells.now 0 self.old work.old }
        ensures { GoneOn PLAIN JUDGED row cells.now 0 self.old work.old
            (length cells.now) self.new work.new }
    {
        self.count_four::<PLAIN, JUDGED>(row, cells, 0, &mut *work);
        if cells.len() == 4 {
            return;
        }
        if cells.len() < 8 {
            self.count_at::<PLAIN, JUDGED>(row, cells, 4, &mut *work);
            self.count_from::<PLAIN, JUDGED>(row, cells, 5, work);
            return;
        }
        self.count_four::<PLAIN, JUDGED>(row, cells, 4, &mut *work);
        self.count_from::<PLAIN, JUDGED>(row, cells, 8, work);
    }

    /// The cells of a row, after its entry before them.
    #[inline(always)]
    pub(crate) fn add_cells<const PLAIN: bool, const JUDGED: bool>(
        &mut self,
        row: u32,
        cells: &[u8],
        work: &mut [u16],
    )
        requires wide { 4 ≤ length cells.now }
        requires narrow { length cells.now ≤ 10 }
        requires entry_room { row < length work.old }
        requires rows_few { row < row_numbers_bound }
        requires reached { LeftByRows PLAIN (length cells.now) row self.old work.old }
        ensures { RowCounted PLAIN JUDGED row cells.now self.old work.old self.new work.new }
    {
        entry::begin(row, PLAIN, JUDGED, &mut *work);
        self.count_all::<PLAIN, JUDGED>(row, cells, work);
    }
}
