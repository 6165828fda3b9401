// What a whole-chart pass counts of the minimised rows, one row after the other: the tally, the phantom depths and the open measure's density.
#![tactic(auto)]

ghost use Rattle.std.specs.Prelude.{◌≡◌, List, [], ℕ, ◌+◌, ◌-◌, ◌*◌, ◌≤◌, ◌<◌, length, slice_index};
ghost use Rattle.definitions.specs.Sizes.{count_bound, row_count_bound};
ghost use Rattle.definitions.specs.Lines.{Row};
ghost use Rattle.definitions.specs.Figures.{density as density_of};
ghost use Rattle.taps.specs.Taps.{FreeTaps, masks};
ghost use Rattle.reduction.specs.Rows.{rows_of};
ghost use Rattle.reduction.specs.States.{HoldingOpen, EndsMeasure};
ghost use Rattle.row_tally.specs.Bounds.{Below};
ghost use Rattle.phantoms.specs.Phantoms.{Low};
ghost use Rattle.definitions.specs.declared.DepthEffect.TheVariants.{Blocks, Opens, Closes};
ghost use Rattle.measure_tally.specs.Cells.{EffectDone, CellCounted, CountedOn, Reached, with_cell};
ghost use Rattle.measure_tally.specs.Counted.{Few, Counted, CountsRow, CountsAll};

use definitions::{ArrowStats, Cell, direction};
use phantoms::Phantoms;
use taps::{TapTable, Taps};

/// `rows` counts all minimised rows so far, `before` the steps of the measures that have ended: those of the open one are its density.
/// A column without its bit in `busy` has the phantom depth 0.
#[derive(Clone, Copy)]
pub struct Counting {
    pub stats: ArrowStats,
    pub phantoms: Phantoms,
    pub rows: u32,
    pub before: u32,
    pub busy: u32,
}

impl Counting {
    /// Before the first row.
    pub fn new() -> Self
        ensures { (L : ℕ) → L ≤ 10 → Counted L result [] [] }
    {
        Counting {
            stats: row_tally::no_stats(),
            phantoms: phantoms::no_phantoms(),
            rows: 0,
            before: 0,
            busy: 0,
        }
    }

    // One row of taps more, all in columns of the phantom depth 0: it leaves the depths, and no turn of a loop branches on its cells.
    fn count_taps(&mut self, mask: u16, table: &TapTable)
        requires rows_few { self.old.rows < row_count_bound }
        requires few { Few self.old }
        requires mask_known { mask < masks table.now.wide }
        ensures { (row : Row) → FreeTaps self.old.busy mask row → CountsRow row self.old self.new }
    {
        row_tally::count_taps(&mut self.stats, mask, table);
        self.rows += 1;
    }

    // A 1, M, L or F in a column.
    #[inline(always)]
    fn block(&mut self, column: usize)
        requires { column < 10 }
        ensures { EffectDone column Blocks self.old self.new }
    {
        self.phantoms.block(column);
    }

    // A head in a column.
    #[inline(always)]
    fn open(&mut self, column: usize)
        requires column_narrow { column < 10 }
        requires low { Low (count_bound + 9) self.old.phantoms }
        ensures { EffectDone column Opens self.old self.new }
    {
        self.phantoms.open(column);
        self.busy = taps::with_column(self.busy, column);
    }

    // A tail in a column.
    #[inline(always)]
    fn close(&mut self, column: usize)
        requires column_narrow { column < 10 }
        requires low { Low (count_bound + 9) self.old.phantoms }
        ensures { EffectDone column Closes self.old self.new }
    {
        self.phantoms.close(column);
        if self.phantoms.depths[column] == 0 {
            self.busy = taps::without_column(self.busy, column);
        }
    }

    // The tally counts a cell of a row of so many.
    #[inline(always)]
    fn count(&mut self, columns: usize, column: usize, cell: Cell)
        requires { Below (count_bound + 9) self.old.stats }
        ensures { self.new ≡ with_cell self.old columns column cell }
    {
        row_tally::count_cell(&mut self.stats, direction(columns, column), cell, false);
    }

    // A digit in a column of a row of so many. Which one is told by comparisons alone: a match over four bytes or more becomes a table, which costs
    // each cell more.
    #[inline(always)]
    fn count_digit(&mut self, columns: usize, column: usize, b: u8)
        requires column_narrow { column < 10 }
        requires digit { b < 53 }
        requires few { Below (count_bound + 9) self.old.stats }
        requires low { Low (count_bound + 9) self.old.phantoms }
        ensures { CellCounted columns column b self.old self.new }
    {
        if b < b'3' {
            match b {
                b'1' => {
                    self.block(column);
                    self.count(columns, column, Cell::Tap);
                }
                b'2' => {
                    self.open(column);
                    self.count(columns, column, Cell::Hold);
                }
                _ => {}
            }
        } else if b == b'3' {
            self.close(column);
            self.count(columns, column, Cell::Tail);
        } else {
            self.open(column);
            self.count(columns, column, Cell::Roll);
        }
    }

    // A letter, likewise.
    #[inline(always)]
    fn count_letter(&mut self, columns: usize, column: usize, b: u8)
        requires column_narrow { column < 10 }
        requires letter { 52 < b }
        requires few { Below (count_bound + 9) self.old.stats }
        requires low { Low (count_bound + 9) self.old.phantoms }
        ensures { CellCounted columns column b self.old self.new }
    {
        match b {
            b'M' => {
                self.block(column);
                self.count(columns, column, Cell::Mine);
            }
            b'K' => self.count(columns, column, Cell::KeySound),
            _ => self.count_rare(columns, column, b),
        }
    }

    // One that is no M and no K.
    #[inline(always)]
    fn count_rare(&mut self, columns: usize, column: usize, b: u8)
        requires column_narrow { column < 10 }
        requires letter { 52 < b }
        requires no_mine { b ≡ 77 → ⊥ }
        requires no_keysound { b ≡ 75 → ⊥ }
        requires few { Below (count_bound + 9) self.old.stats }
        requires low { Low (count_bound + 9) self.old.phantoms }
        ensures { CellCounted columns column b self.old self.new }
    {
        if b < b'a' {
            match b {
                b'L' => {
                    self.block(column);
                    self.count(columns, column, Cell::Lift);
                }
                b'F' => {
                    self.block(column);
                    self.count(columns, column, Cell::Fake);
                }
                _ => {}
            }
        } else {
            match b {
                b'm' => self.count(columns, column, Cell::LowerMine),
                b'l' => self.count(columns, column, Cell::LowerLift),
                b'f' => self.count(columns, column, Cell::LowerFake),
                _ => {}
            }
        }
    }

    // The cell in a column, those before it counted. Most are a `0`, which changes nothing.
    #[inline(always)]
    fn count_column(&mut self, row: &[u8], column: usize)
        requires inside { column < length row.now }
        requires narrow { length row.now ≤ 10 }
        requires reached { Reached row.now column self.old }
        ensures { CountedOn row.now column self.old (column + 1) self.new }
    {
        let b = row[column];
        if b == b'0' {
            return;
        }
        if b <= b'4' {
            self.count_digit(row.len(), column, b);
        } else {
            self.count_letter(row.len(), column, b);
        }
    }

    // The cells of the first four columns. Cells are written one by one: in a loop each count would go through a register for the whole row.
    #[inline(always)]
    #[tactic(auto, using(crate::proofs::Line::reached_on))]
    fn count_four(&mut self, row: &[u8])
        requires wide { 4 ≤ length row.now }
        requires narrow { length row.now ≤ 10 }
        requires reached { Reached row.now 0 self.old }
        ensures { CountedOn row.now 0 self.old 4 self.new }
    {
        self.count_column(row, 0);
        self.count_column(row, 1);
        self.count_column(row, 2);
        self.count_column(row, 3);
    }

    // The cells of a row from its fifth on. No row has seven or nine.
    #[inline(always)]
    #[tactic(auto, using(crate::proofs::Line::reached_on))]
    fn count_rest(&mut self, row: &[u8])
        requires wide { 4 ≤ length row.now }
        requires narrow { length row.now ≤ 10 }
        requires gaps { (length row.now ≡ 7 → ⊥) × (length row.now ≡ 9 → ⊥) }
        requires reached { Reached row.now 4 self.old }
        ensures { CountedOn row.now 4 self.old (length row.now) self.new }
    {
        if row.len() == 4 {
            return;
        }
        self.count_column(row, 4);
        if row.len() == 5 {
            return;
        }
        self.count_column(row, 5);
        if row.len() == 6 {
            return;
        }
        self.count_column(row, 6);
        self.count_column(row, 7);
        if row.len() == 8 {
            return;
        }
        self.count_column(row, 8);
        self.count_column(row, 9);
    }

    // One row more, cell by cell. Its arrows, heads and tails are what these have grown by.
    #[inline(never)]
    fn count_cells(&mut self, row: &[u8])
        requires wide { 4 ≤ length row.now }
        requires narrow { length row.now ≤ 10 }
        requires gaps { (length row.now ≡ 7 → ⊥) × (length row.now ≡ 9 → ⊥) }
        requires rows_few { self.old.rows < row_count_bound }
        requires few { Few self.old }
        ensures { CountsRow row.now self.old self.new }
    {
        let arrows = self.stats.total_arrows;
        let heads = self.phantoms.heads;
        let tails = self.phantoms.tails;
        self.count_four(row);
        self.count_rest(row);
        let arrows = self.stats.total_arrows - arrows;
        let heads = self.phantoms.heads - heads;
        let tails = self.phantoms.tails - tails;
        row_tally::end_row(&mut self.stats, arrows, heads, tails);
        self.rows += 1;
    }

    // One row more: by its mask where it has one and no tap of it stands in a column of a phantom depth.
    #[inline(always)]
    fn count_row(&mut self, row: &[u8], table: &TapTable)
        requires wide { length row.now ≡ table.now.lanes.count }
        requires rows_few { self.old.rows < row_count_bound }
        requires few { Few self.old }
        ensures { CountsRow row.now self.old self.new }
    {
        match taps::free_taps(row, self.busy) {
            Taps::Mask(mask) => self.count_taps(mask, table),
            Taps::Other => self.count_cells(row),
        }
    }

    /// The open measure ends.
    pub fn end_measure(&mut self)
        ensures { (L : ℕ) → EndsMeasure (Counted L self.old) (Counted L self.new) }
    {
        self.before = self.stats.total_steps;
    }

    /// The density of the open measure.
    pub fn density(&self) -> u32
        requires { self.now.before ≤ self.now.stats.total_steps }
        ensures { (L : ℕ) (done : List (List Row)) (cur : List Row)
            → Counted L self.now done cur → result ≡ density_of cur }
    {
        self.stats.total_steps - self.before
    }

    /// The rows of a measure that stand in a text from `start` on, each with a newline byte after it.
    pub fn count_rows(&mut self, text: &[u8], start: usize, rows: usize, table: &TapTable)
        requires in_text { start + rows * (table.now.lanes.count + 1) ≤ length text.now }
        requires rows_few { self.old.rows + rows < row_count_bound }
        requires counted { HoldingOpen (Counted table.now.lanes.count self.old) [] }
        ensures { CountsAll table.now.lanes.count
            (rows_of table.now.lanes.count rows text.now start) self.old self.new }
    {
        let lanes = table.lanes.count;
        let mut i = 0;
        let mut at = start;
        while i < rows {
            let end = at + lanes;
            self.count_row(&text[at..end], table);
            at = end + 1;
            i += 1;
        }
    }
}
