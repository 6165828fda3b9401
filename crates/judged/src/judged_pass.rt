// The judged tally of clean rows in one pass, as `process_rows_judgable` of the Rust counts: while every head is paired, the holds open before a
// row are the open heads of the columns.
ghost use Rattle.std.specs.Prelude.{◌≡◌, true, not, ℕ, ◌+◌, ◌≤◌, ◌<◌, length, slice_index, nat_eq, is_some, OnSome};
ghost use Rattle.definitions.specs.Sizes.{count_bound, most_bytes};
ghost use Rattle.definitions.specs.Tally.{empty_stats};
ghost use Rattle.definitions.specs.ReadBack.{rows_read_back};
ghost use Rattle.definitions.specs.Cells.{cell_of};
ghost use Rattle.definitions.specs.Tracker.{hold_at};
ghost use Rattle.definitions.specs.Lines.{Row};
ghost use Rattle.definitions.specs.declared.Cell;
ghost use Rattle.definitions.specs.declared.DepthEffect.TheVariants.{Nothing, Blocks, Opens, Closes};
ghost use Rattle.taps.specs.Taps.{FreeTaps, masks};
ghost use Rattle.row_tally.specs.Bounds.{Below};
ghost use Rattle.judged.specs.Clean.{unpairs, clean_answer};
ghost use Rattle.judged.specs.JudgedPass.{row_unpairs, Ready, RowPassed, CellCounted, CellPassed, Reached, PassingOn, Unclean, Begun, Ended, EndsOn};

use definitions::{ArrowStats, Cell, Lanes, direction};
use taps::{TapTable, Taps};

/// What the pass has of the rows so far: the tally, the columns that have an open head as a mask, the open heads of each column, of up to ten, and
/// the holds open before the next row. The mask and the holds stand apart: beside each other they would be raised together, which costs three
/// times as much.
#[derive(Drop)]
pub struct CleanRows {
    pub stats: ArrowStats,
    pub busy: u32,
    pub depths: [u32; 10],
    pub active: u32,
}

impl CleanRows {
    // Before the first row.
    fn new() -> Self
        ensures ready { Ready result }
        ensures nothing_counted { result.stats ≡ empty_stats }
        ensures none_open { (c : ℕ) → c < 10 → slice_index result.depths c ≡ 0 }
    {
        CleanRows {
            stats: row_tally::no_stats(),
            busy: 0,
            depths: [0; 10],
            active: 0,
        }
    }

    // A cell of a column is counted, and leaves the column as it is.
    #[inline(always)]
    fn count(&mut self, columns: usize, column: usize, cell: Cell)
        requires column_narrow { column < 10 }
        requires few { Below (count_bound + 9) self.old.stats }
        ensures { CellCounted columns column cell self.old self.new }
    {
        row_tally::count_cell(&mut self.stats, direction(columns, column), cell, true);
    }

    // A cell that does nothing to its column.
    #[inline(always)]
    fn pass(&mut self, columns: usize, column: usize, cell: Cell) -> Option<()>
        requires column_narrow { column < 10 }
        requires few { Below (count_bound + 9) self.old.stats }
        requires ready { Ready self.old }
        ensures clean { is_some result
            ≡ not (unpairs Nothing (slice_index self.old.depths column)) }
        ensures passed { OnSome result (CellPassed columns column Nothing cell self.old self.new) }
    {
        self.count(columns, column, cell);
        Some(())
    }

    // Whether a column has no open head.
    #[inline(always)]
    fn is_free(&self, column: usize) -> bool
        requires column_narrow { column < 10 }
        requires ten { length self.now.depths ≡ 10 }
        ensures { result ≡ nat_eq (slice_index self.now.depths column) 0 }
    {
        self.depths[column] == 0
    }

    // A 1, M, L or F may meet no open head.
    #[inline(always)]
    fn meet(&mut self, columns: usize, column: usize, cell: Cell) -> Option<()>
        requires column_narrow { column < 10 }
        requires few { Below (count_bound + 9) self.old.stats }
        requires ready { Ready self.old }
        ensures clean { is_some result ≡ not (unpairs Blocks (slice_index self.old.depths column)) }
        ensures passed { OnSome result (CellPassed columns column Blocks cell self.old self.new) }
    {
        self.count(columns, column, cell);
        if self.is_free(column) {
            return Some(());
        }
        None
    }

    // A head is open from now on. A ninth of its column would not be pushed.
    #[inline(always)]
    #[tactic(auto, using(crate::proofs::Rows::active_few))]
    fn open(&mut self, columns: usize, column: usize, cell: Cell) -> Option<()>
        requires column_narrow { column < 10 }
        requires few { Below (count_bound + 9) self.old.stats }
        requires ready { Ready self.old }
        ensures clean { is_some result ≡ not (unpairs Opens (slice_index self.old.depths column)) }
        ensures passed { OnSome result (CellPassed columns column Opens cell self.old self.new) }
    {
        let depth = self.depths[column];
        if depth < 8 {
            self.count(columns, column, cell);
            self.depths[column] = depth + 1;
            self.active += 1;
            self.busy = taps::with_column(self.busy, column);
            return Some(());
        }
        None
    }

    // A tail closes the newest open head of its column, where there is one.
    #[inline(always)]
    fn close(&mut self, columns: usize, column: usize) -> Option<()>
        requires column_narrow { column < 10 }
        requires few { Below (count_bound + 9) self.old.stats }
        requires ready { Ready self.old }
        ensures clean { is_some result ≡ not (unpairs Closes (slice_index self.old.depths column)) }
        ensures passed { OnSome result
            (CellPassed columns column Closes Cell.Tail self.old self.new) }
    {
        self.count(columns, column, Cell::Tail);
        let depth = self.depths[column];
        if 0 < depth {
            self.depths[column] = depth - 1;
            self.active -= 1;
            if depth == 1 {
                self.busy = taps::without_column(self.busy, column);
            }
        }
        Some(())
    }

    // One cell of a column more, unless it leaves a head unpaired. Most are a `0`, and a blank is below it: neither is asked of the match.
    #[inline(always)]
    #[tactic(auto, unfolding(definitions::specs::Tracker::hold_at, definitions::specs::Cells::cell_of))]
    fn add_cell(&mut self, columns: usize, column: usize, b: u8) -> Option<()>
        requires column_narrow { column < 10 }
        requires few { Below (count_bound + 9) self.old.stats }
        requires ready { Ready self.old }
        ensures clean { is_some result
            ≡ not (unpairs (hold_at b) (slice_index self.old.depths column)) }
        ensures passed { OnSome result
            (CellPassed columns column (hold_at b) (cell_of b) self.old self.new) }
    {
        if b <= b'0' {
            return self.pass(columns, column, Cell::Empty);
        }
        match cells::cell_of(b) {
            Cell::Empty => self.pass(columns, column, Cell::Empty),
            Cell::Tap => self.meet(columns, column, Cell::Tap),
            Cell::Hold => self.open(columns, column, Cell::Hold),
            Cell::Tail => self.close(columns, column),
            Cell::Roll => self.open(columns, column, Cell::Roll),
            Cell::Mine => self.meet(columns, column, Cell::Mine),
            Cell::Lift => self.meet(columns, column, Cell::Lift),
            Cell::Fake => self.meet(columns, column, Cell::Fake),
            Cell::KeySound => self.pass(columns, column, Cell::KeySound),
            Cell::LowerMine => self.pass(columns, column, Cell::LowerMine),
            Cell::LowerLift => self.pass(columns, column, Cell::LowerLift),
            Cell::LowerFake => self.pass(columns, column, Cell::LowerFake),
        }
    }

    // The cell of a row in a column.
    #[inline(always)]
    fn add_cell_at(&mut self, row: &[u8], column: usize) -> Option<()>
        requires narrow { length row.now ≤ 10 }
        requires inside { column < length row.now }
        requires reached { Reached row.now column self.old }
        ensures clean { Unclean row.now column self.old result }
        ensures passed { OnSome result (PassingOn row.now column (column + 1) self.old self.new) }
    {
        self.add_cell(row.len(), column, row[column])
    }

    // The row's end, as many arrows, mines and fakes and open holds as there were before it. What the tally's grew by is the row's.
    #[inline(always)]
    fn end_row(&mut self, arrows: u32, others: u64, held: u32)
        requires { Ended arrows others held self.old }
        ensures { (row : Row) → length row ≤ 10
            → EndsOn row (length row) arrows others held self.old self.new }
    {
        let row_arrows = self.stats.total_arrows - arrows;
        let row_others = (u64::from(self.stats.mines) + u64::from(self.stats.fakes)
            - others) as u32;
        row_tally::end_judged_row(&mut self.stats, true, row_arrows, row_others, held);
    }

    // A row of six, whose columns lie otherwise than those of all others.
    #[inline(never)]
    fn add_six(&mut self, row: &[u8], arrows: u32, others: u64, held: u32) -> Option<()>
        requires six { length row.now ≡ 6 }
        requires begun { Begun row.now 0 arrows others held self.old }
        ensures clean { Unclean row.now 0 self.old result }
        ensures ended { OnSome result (EndsOn row.now 0 arrows others held self.old self.new) }
    {
        self.add_cell_at(row, 0)?;
        self.add_cell_at(row, 1)?;
        self.add_cell_at(row, 2)?;
        self.add_cell_at(row, 3)?;
        self.add_cell_at(row, 4)?;
        self.add_cell_at(row, 5)?;
        self.end_row(arrows, others, held);
        Some(())
    }

    // The cells of a row of eight or ten past its fifth, and its end.
    #[inline(never)]
    fn add_rest(&mut self, row: &[u8], arrows: u32, others: u64, held: u32) -> Option<()>
        requires eight { 8 ≤ length row.now }
        requires narrow { length row.now ≤ 10 }
        requires no_nine { length row.now ≡ 9 → ⊥ }
        requires begun { Begun row.now 5 arrows others held self.old }
        ensures clean { Unclean row.now 5 self.old result }
        ensures ended { OnSome result (EndsOn row.now 5 arrows others held self.old self.new) }
    {
        self.add_cell_at(row, 5)?;
        self.add_cell_at(row, 6)?;
        self.add_cell_at(row, 7)?;
        if row.len() == 8 {
            self.end_row(arrows, others, held);
            return Some(());
        }
        self.add_cell_at(row, 8)?;
        self.add_cell_at(row, 9)?;
        self.end_row(arrows, others, held);
        Some(())
    }

    // A row's cells and its end. The cells are written one after the other: a loop would take each count of the tally into a register. Where others
    // do the rest of a row they end it too, so that nothing is kept for after them.
    #[inline(never)]
    fn add_begun(&mut self, row: &[u8], arrows: u32, others: u64, held: u32) -> Option<()>
        requires wide { 4 ≤ length row.now }
        requires narrow { length row.now ≤ 10 }
        requires gaps { (length row.now ≡ 7 → ⊥) × (length row.now ≡ 9 → ⊥) }
        requires begun { Begun row.now 0 arrows others held self.old }
        ensures clean { Unclean row.now 0 self.old result }
        ensures ended { OnSome result (EndsOn row.now 0 arrows others held self.old self.new) }
    {
        if row.len() == 6 {
            return self.add_six(row, arrows, others, held);
        }
        self.add_cell_at(row, 0)?;
        self.add_cell_at(row, 1)?;
        self.add_cell_at(row, 2)?;
        self.add_cell_at(row, 3)?;
        if row.len() == 4 {
            self.end_row(arrows, others, held);
            return Some(());
        }
        self.add_cell_at(row, 4)?;
        if row.len() == 5 {
            self.end_row(arrows, others, held);
            return Some(());
        }
        self.add_rest(row, arrows, others, held)
    }

    // One row more, cell by cell. What the row's end is told is read here, so that the cells do not keep it in registers.
    #[inline(never)]
    fn add_cells(&mut self, row: &[u8]) -> Option<()>
        requires wide { 4 ≤ length row.now }
        requires narrow { length row.now ≤ 10 }
        requires gaps { (length row.now ≡ 7 → ⊥) × (length row.now ≡ 9 → ⊥) }
        requires ready { Ready self.old }
        requires few { Below count_bound self.old.stats }
        ensures clean { is_some result ≡ not (row_unpairs row.now self.old.depths) }
        ensures passed { OnSome result (RowPassed row.now self.old self.new) }
    {
        let arrows = self.stats.total_arrows;
        let others = u64::from(self.stats.mines) + u64::from(self.stats.fakes);
        let held = self.active;
        self.add_begun(row, arrows, others, held)
    }

    // One row more of taps alone, none in a column with an open head: it leaves the depths as they are.
    #[tactic(auto, using(crate::proofs::Rows::active_few))]
    fn add_taps(&mut self, mask: u16, table: &TapTable)
        requires mask_known { mask < masks table.now.wide }
        requires ready { Ready self.old }
        requires few { Below count_bound self.old.stats }
        ensures { (row : Row) → FreeTaps self.old.busy mask row
            → RowPassed row self.old self.new }
    {
        row_tally::judge_taps(&mut self.stats, true, self.active, mask, table);
    }

    // One row more, unless it leaves a head unpaired.
    fn add_row(&mut self, row: &[u8], table: &TapTable) -> Option<()>
        requires wide { table.now.lanes.count ≡ length row.now }
        requires ready { Ready self.old }
        requires few { Below count_bound self.old.stats }
        ensures clean { is_some result ≡ not (row_unpairs row.now self.old.depths) }
        ensures passed { OnSome result (RowPassed row.now self.old self.new) }
    {
        match taps::free_taps(row, self.busy) {
            Taps::Mask(mask) => {
                self.add_taps(mask, table);
                Some(())
            }
            Taps::Other => self.add_cells(row),
        }
    }
}

/// The judged tally of a text's rows, every row judged: an answer is given exactly where they are clean.
pub fn judge_clean(data: &[u8], lanes: Lanes) -> Option<ArrowStats>
    requires { length «data».now ≤ most_bytes }
    ensures { result ≡ clean_answer lanes.count (rows_read_back lanes.count «data».now) }
{
    let table = TapTable::for_lanes(lanes);
    let mut rows = CleanRows::new();
    for row in reader::back::back_rows(data, lanes) {
        rows.add_row(row, &table)?;
    }
    if rows.active != 0 {
        return None;
    }
    Some(rows.stats)
}
