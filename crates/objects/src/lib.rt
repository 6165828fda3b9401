// The object rows of the last beat, and the last of them, one row after the other and measure by measure.
#![tactic(auto)]

ghost use Rattle.std.specs.Prelude.{◌≡◌, [], ◌+◌, ◌-◌, ◌≤◌, ◌<◌, length};
ghost use Rattle.definitions.specs.Sizes.{count_bound, measures_bound, row_numbers_bound, row_count_bound};
ghost use Rattle.definitions.specs.Objects.{object_at};
ghost use Rattle.definitions.specs.declared.DepthEffect.TheVariants.{Blocks, Opens, Closes};
ghost use Rattle.objects.specs.Rows.{DepthsLow, NoDepths};
ghost use Rattle.objects.specs.Columns.{EffectDone, ColumnDone, ColumnsDone};
ghost use Rattle.reduction.specs.States.{AddsRow, EndsMeasure};
ghost use Rattle.objects.specs.LastHeld.{counted, LastHeld};

use beats::RowPlace;
use definitions::DepthEffect;
use taps::Taps;

/// The depth of each column, of up to ten.
#[derive(Clone, Copy)]
pub struct Depths {
    pub depths: [u32; 10],
}

/// The depths before the first row.
pub fn no_depths() -> Depths
    ensures { NoDepths result }
{
    Depths { depths: [0; 10] }
}

/// The depths of the columns, the last object row of the measures that have ended and that of the open one, by its number there; the rows of
/// the open one, and its number. A column without its bit in `busy` has the depth 0.
#[derive(Clone, Copy)]
pub struct LastScan {
    pub depths: Depths,
    pub busy: u32,
    pub found: Option<RowPlace>,
    pub row: Option<u32>,
    pub rows: u32,
    pub midx: u32,
}

impl LastScan {
    /// Before the first row.
    pub fn new() -> Self
        ensures { LastHeld result [] [] }
    {
        LastScan {
            depths: no_depths(),
            busy: 0,
            found: None,
            row: None,
            rows: 0,
            midx: 0,
        }
    }

    // One row more, an object row or not.
    fn count_row(&mut self, is_object: bool)
        requires { self.old.rows < row_numbers_bound }
        ensures { self.new ≡ counted self.old is_object }
    {
        if is_object {
            self.row = Some(self.rows);
        }
        self.rows += 1;
    }

    // A 1, M, L, F or K in a column: its row is an object row.
    #[inline(always)]
    fn block(&mut self, column: usize)
        requires { column < 10 }
        ensures { EffectDone column Blocks self.old self.new }
    {
        self.row = Some(self.rows);
        self.depths.depths[column] = 0;
        self.busy = taps::without_column(self.busy, column);
    }

    // A head in a column.
    #[inline(always)]
    fn open(&mut self, column: usize)
        requires column_narrow { column < 10 }
        requires depths_low { DepthsLow (count_bound + 9) self.old.depths }
        ensures { EffectDone column Opens self.old self.new }
    {
        self.depths.depths[column] += 1;
        self.busy = taps::with_column(self.busy, column);
    }

    // A tail in a column: where it closes something its row is an object row.
    #[inline(always)]
    fn close(&mut self, column: usize)
        requires { column < 10 }
        ensures { EffectDone column Closes self.old self.new }
    {
        let depth = self.depths.depths[column];
        if depth == 0 {
            return;
        }
        self.row = Some(self.rows);
        self.depths.depths[column] = depth - 1;
        if depth == 1 {
            self.busy = taps::without_column(self.busy, column);
        }
    }

    // A digit in a column. Which one is told by comparisons alone: a match over four bytes or more becomes a table, which costs each cell more.
    #[inline(always)]
    fn add_digit(&mut self, column: usize, b: u8)
        requires column_narrow { column < 10 }
        requires digit { b < 53 }
        requires depths_low { DepthsLow (count_bound + 9) self.old.depths }
        ensures { EffectDone column (object_at b) self.old self.new }
    {
        if b < b'3' {
            match b {
                b'1' => self.block(column),
                b'2' => self.open(column),
                _ => {}
            }
        } else if b == b'3' {
            self.close(column);
        } else {
            self.open(column);
        }
    }

    // Any cell.
    #[inline(always)]
    fn add_cell(&mut self, column: usize, b: u8)
        requires column_narrow { column < 10 }
        requires depths_low { DepthsLow (count_bound + 9) self.old.depths }
        ensures { EffectDone column (object_at b) self.old self.new }
    {
        if b < b'5' {
            self.add_digit(column, b);
            return;
        }
        match cells::object_effect(b) {
            DepthEffect::Nothing => {}
            DepthEffect::Blocks => self.block(column),
            DepthEffect::Opens => self.open(column),
            DepthEffect::Closes => self.close(column),
        }
    }

    // The cell in a column. Most are a `0`, which changes nothing.
    #[inline(always)]
    fn add_column(&mut self, cells: &[u8], column: usize)
        requires inside { column < length cells.now }
        requires narrow { length cells.now ≤ 10 }
        requires depths_low { DepthsLow (count_bound + 9) self.old.depths }
        ensures { ColumnDone cells.now column self.old self.new }
    {
        let b = cells[column];
        match b {
            b'0' => {}
            b'M' | b'K' => self.block(column),
            _ => self.add_cell(column, b),
        }
    }

    // The cells of four columns. They are written one by one, which costs less than a loop.
    #[inline(always)]
    fn add_four(&mut self, cells: &[u8], from: usize)
        requires inside { from + 4 ≤ length cells.now }
        requires narrow { length cells.now ≤ 10 }
        requires depths_low { DepthsLow (count_bound + from) self.old.depths }
        ensures { ColumnsDone cells.now from 4 self.old self.new }
    {
        self.add_column(cells, from);
        self.add_column(cells, from + 1);
        self.add_column(cells, from + 2);
        self.add_column(cells, from + 3);
    }

    // The cells from a column on, of which there are three at most.
    #[inline(always)]
    fn add_rest(&mut self, cells: &[u8], from: usize)
        requires few { length cells.now ≤ from + 3 }
        requires narrow { length cells.now ≤ 10 }
        requires depths_low { DepthsLow (count_bound + from) self.old.depths }
        ensures { ColumnsDone cells.now from (length cells.now - from) self.old self.new }
    {
        if cells.len() <= from {
            return;
        }
        self.add_column(cells, from);
        if cells.len() <= from + 1 {
            return;
        }
        self.add_column(cells, from + 1);
        if cells.len() <= from + 2 {
            return;
        }
        self.add_column(cells, from + 2);
    }

    // All cells of a row.
    #[inline(always)]
    fn add_columns(&mut self, cells: &[u8])
        requires wide { 4 ≤ length cells.now }
        requires narrow { length cells.now ≤ 10 }
        requires depths_low { DepthsLow count_bound self.old.depths }
        ensures { ColumnsDone cells.now 0 (length cells.now) self.old self.new }
    {
        self.add_four(cells, 0);
        if cells.len() < 8 {
            self.add_rest(cells, 4);
            return;
        }
        self.add_four(cells, 4);
        self.add_rest(cells, 8);
    }

    // One row more, by its cells. Each of ten columns has its depth, by which the laws of a row go.
    #[inline(never)]
    fn add_cells(&mut self, cells: &[u8])
        requires wide { 4 ≤ length cells.now }
        requires narrow { length cells.now ≤ 10 }
        requires rows_few { self.old.rows < row_numbers_bound }
        requires depths_low { DepthsLow count_bound self.old.depths }
        ensures { AddsRow cells.now (LastHeld self.old) (LastHeld self.new) }
    {
        let ten = self.depths.depths.len() == 10;
        prove!(ten);
        self.add_columns(cells);
        self.rows += 1;
    }

    /// One row more. One of taps alone, all in columns of the depth 0, is an object row where it has one, and leaves the depths.
    pub fn add_row(&mut self, cells: &[u8])
        requires wide { 4 ≤ length cells.now }
        requires narrow { length cells.now ≤ 10 }
        requires rows_few { self.old.rows < row_numbers_bound }
        requires depths_low { DepthsLow count_bound self.old.depths }
        ensures { AddsRow cells.now (LastHeld self.old) (LastHeld self.new) }
    {
        match taps::free_taps(cells, self.busy) {
            Taps::Mask(mask) => self.count_row(mask != 0),
            Taps::Other => self.add_cells(cells),
        }
    }

    /// The open measure ends.
    pub fn end_measure(&mut self)
        requires rows_few { self.old.rows < row_count_bound }
        requires measures_few { self.old.midx ≤ measures_bound }
        ensures held { EndsMeasure (LastHeld self.old) (LastHeld self.new) }
        ensures busy_stays { self.new.busy ≡ self.old.busy }
    {
        let LastScan {
            row,
            rows,
            midx,
            ..
        } = *self;
        self.row = None;
        self.rows = 0;
        self.midx += 1;
        if let Some(row) = row {
            self.found = Some(RowPlace {
                measure: midx,
                row,
                rows,
            });
        }
    }
}
