// One cell of a row that is not ordinary: what it does to the tally, and to the phantom depth, the object depth and the notes of its column, told by
// its byte, all in place.
ghost use Rattle.std.specs.Prelude.{◌≡◌, ◌+◌, ◌-◌, ◌≤◌, ◌<◌};
ghost use Rattle.definitions.specs.Sizes.{count_bound, row_numbers_bound};
ghost use Rattle.definitions.specs.Cells.{cell_of};
ghost use Rattle.definitions.specs.declared.Cell.TheVariants.{Mine, KeySound};
ghost use Rattle.definitions.specs.declared.Kind.TheVariants.{Tap};
ghost use Rattle.taps.specs.Taps.{bit};
ghost use Rattle.row_tally.specs.Bounds.{Below, EndsBelow};
ghost use Rattle.row_tally.specs.Raised.{row_end};
ghost use Rattle.row_walk.specs.Cells.{CellFits, Blocking, Lower, Opening, Closing, Sounding, CellDone, object_ended, with_cell, counted_in};

use crate::columns::Columns;
use definitions::{ArrowStats, Cell, Kind, direction};

/// What rows change: the columns, the tally, the number of records, the number of rows, how many of these there are up to the measure's last object
/// row, and whether a record was dropped. Where `last` is no more than before the measure, it has no object row.
#[derive(Clone, Copy)]
pub struct Run {
    pub columns: Columns,
    pub stats: ArrowStats,
    pub count: usize,
    pub row: u32,
    pub last: u32,
    pub invalid: bool,
}

impl Run {
    // A 1, M, L or F in a column where nothing is open.
    #[inline(always)]
    fn block_free(&mut self, column: usize, kind: Kind, slots: &mut [u8])
        requires fits { CellFits self.old column slots.old }
        requires free { bit column self.old.columns.busy ≡ 0 }
        ensures walked { Blocking kind column self.old slots.old self.new slots.new }
        ensures stats_stay { self.new.stats ≡ self.old.stats }
    {
        row_notes::put_note(
            row_notes::NO_HEAD,
            self.count,
            self.row,
            column,
            kind,
            slots,
        );
        self.count += 1;
        self.last = self.row + 1;
    }

    // The same in any column.
    #[inline(always)]
    fn block_busy(&mut self, column: usize, kind: Kind, slots: &mut [u8])
        requires { CellFits self.old column slots.old }
        ensures walked { Blocking kind column self.old slots.old self.new slots.new }
        ensures stats_stay { self.new.stats ≡ self.old.stats }
    {
        let head = self.columns.hold_heads[column];
        row_notes::put_note(head, self.count, self.row, column, kind, slots);
        self.count += 1;
        self.last = self.row + 1;
        self.invalid |= head != row_notes::NO_HEAD;
        self.columns.block(column);
    }

    // A 1, M, L or F.
    #[inline(always)]
    fn block(&mut self, column: usize, kind: Kind, slots: &mut [u8])
        requires { CellFits self.old column slots.old }
        ensures walked { Blocking kind column self.old slots.old self.new slots.new }
        ensures stats_stay { self.new.stats ≡ self.old.stats }
    {
        if self.columns.is_busy(column) {
            self.block_busy(column, kind, slots);
        } else {
            self.block_free(column, kind, slots);
        }
    }

    // An m, l or f.
    #[inline(always)]
    fn lower(&mut self, column: usize, kind: Kind, slots: &mut [u8])
        requires { CellFits self.old column slots.old }
        ensures walked { Lower kind column self.old slots.old self.new slots.new }
        ensures stats_stay { self.new.stats ≡ self.old.stats }
    {
        let head = self.columns.hold_heads[column];
        row_notes::put_note(head, self.count, self.row, column, kind, slots);
        self.count += 1;
        self.invalid |= head != row_notes::NO_HEAD;
        self.columns.drop_head(column);
    }

    // A 1. Taps, heads and tails stay calls of their own: written into each column of a row, they would be too much for one function.
    #[inline(never)]
    fn tap(&mut self, column: usize, slots: &mut [u8])
        requires { CellFits self.old column slots.old }
        ensures walked { Blocking Tap column self.old slots.old self.new slots.new }
        ensures stats_stay { self.new.stats ≡ self.old.stats }
    {
        self.block(column, Kind::Tap, slots);
    }

    // A 2 or 4 in a column where nothing is open.
    #[inline(always)]
    fn open_free(&mut self, column: usize, kind: Kind, slots: &mut [u8])
        requires fits { CellFits self.old column slots.old }
        requires free { bit column self.old.columns.busy ≡ 0 }
        ensures walked { Opening kind column self.old slots.old self.new slots.new }
        ensures stats_stay { self.new.stats ≡ self.old.stats }
    {
        let number = self.count;
        row_notes::put_note(row_notes::NO_HEAD, number, self.row, column, kind, slots);
        self.columns.open(column, number as u32);
        self.count = number + 1;
    }

    // The same in any column.
    #[inline(always)]
    fn open_busy(&mut self, column: usize, kind: Kind, slots: &mut [u8])
        requires { CellFits self.old column slots.old }
        ensures walked { Opening kind column self.old slots.old self.new slots.new }
        ensures stats_stay { self.new.stats ≡ self.old.stats }
    {
        let head = self.columns.hold_heads[column];
        row_notes::put_note(head, self.count, self.row, column, kind, slots);
        self.invalid |= head != row_notes::NO_HEAD;
        self.columns.open(column, self.count as u32);
        self.count += 1;
    }

    // A 2 or 4.
    #[inline(never)]
    fn open(&mut self, column: usize, kind: Kind, slots: &mut [u8])
        requires { CellFits self.old column slots.old }
        ensures walked { Opening kind column self.old slots.old self.new slots.new }
        ensures stats_stay { self.new.stats ≡ self.old.stats }
    {
        if self.columns.is_busy(column) {
            self.open_busy(column, kind, slots);
        } else {
            self.open_free(column, kind, slots);
        }
    }

    // Whether the tail makes its row an object row: it does where it ends an object depth.
    #[inline(always)]
    fn end_object(&mut self, column: usize)
        requires column_narrow { column < 10 }
        requires rows_few { self.old.row < row_numbers_bound }
        ensures { self.new ≡ object_ended self.old column }
    {
        if 0 < self.columns.object_depths[column] {
            self.last = self.row + 1;
        }
    }

    // A 3.
    #[inline(never)]
    fn close(&mut self, column: usize, slots: &mut [u8])
        requires { CellFits self.old column slots.old }
        ensures walked { Closing column self.old slots.old self.new slots.new }
        ensures stats_stay { self.new.stats ≡ self.old.stats }
    {
        row_notes::end_note(self.columns.hold_heads[column], self.row, slots);
        self.end_object(column);
        self.columns.close(column);
    }

    // A K.
    #[inline(always)]
    fn sound(&mut self, column: usize, slots: &mut [u8])
        requires { CellFits self.old column slots.old }
        ensures walked { Sounding column self.old slots.old self.new slots.new }
        ensures stats_stay { self.new.stats ≡ self.old.stats }
    {
        self.last = self.row + 1;
        self.columns.block_objects(column);
    }

    // The tally counts a cell of a row of so many.
    #[inline(always)]
    fn count(&mut self, columns: usize, column: usize, cell: Cell)
        requires { Below (count_bound + 9) self.old.stats }
        ensures { self.new ≡ with_cell self.old columns column cell }
    {
        row_tally::count_cell(&mut self.stats, direction(columns, column), cell, false);
    }

    // An M of a row of so many.
    #[inline(always)]
    fn walk_mine(&mut self, columns: usize, column: usize, slots: &mut [u8])
        requires { CellFits self.old column slots.old }
        ensures walked { CellDone Mine column self.old slots.old self.new slots.new }
        ensures counted { self.new.stats ≡ counted_in self.old columns column Mine }
    {
        self.block(column, Kind::Mine, slots);
        self.count(columns, column, Cell::Mine);
    }

    // A K.
    #[inline(always)]
    fn walk_keysound(&mut self, columns: usize, column: usize, slots: &mut [u8])
        requires { CellFits self.old column slots.old }
        ensures walked { CellDone KeySound column self.old slots.old self.new slots.new }
        ensures counted { self.new.stats ≡ counted_in self.old columns column KeySound }
    {
        self.sound(column, slots);
        self.count(columns, column, Cell::KeySound);
    }

    // A digit. Which one is told by comparisons alone: a match over four bytes or more becomes a table, which costs each cell more.
    #[inline(always)]
    fn walk_digit(&mut self, columns: usize, column: usize, b: u8, slots: &mut [u8])
        requires fits { CellFits self.old column slots.old }
        requires digit { b < 53 }
        ensures walked { CellDone (cell_of b) column
            self.old slots.old self.new slots.new }
        ensures counted { self.new.stats ≡ counted_in self.old columns column (cell_of b) }
    {
        if b < b'3' {
            match b {
                b'1' => {
                    self.tap(column, slots);
                    self.count(columns, column, Cell::Tap);
                }
                b'2' => {
                    self.open(column, Kind::Hold, slots);
                    self.count(columns, column, Cell::Hold);
                }
                _ => {}
            }
        } else if b == b'3' {
            self.close(column, slots);
            self.count(columns, column, Cell::Tail);
        } else {
            self.open(column, Kind::Roll, slots);
            self.count(columns, column, Cell::Roll);
        }
    }

    // A letter that is no M and no K.
    #[inline(never)]
    fn walk_rare(&mut self, columns: usize, column: usize, b: u8, slots: &mut [u8])
        requires fits { CellFits self.old column slots.old }
        requires letter { 52 < b }
        requires no_mine { b ≡ 77 → ⊥ }
        requires no_keysound { b ≡ 75 → ⊥ }
        ensures walked { CellDone (cell_of b) column
            self.old slots.old self.new slots.new }
        ensures counted { self.new.stats ≡ counted_in self.old columns column (cell_of b) }
    {
        match b {
            b'L' => {
                self.block(column, Kind::Lift, slots);
                self.count(columns, column, Cell::Lift);
            }
            b'F' => {
                self.block(column, Kind::Fake, slots);
                self.count(columns, column, Cell::Fake);
            }
            b'm' => {
                self.lower(column, Kind::Mine, slots);
                self.count(columns, column, Cell::LowerMine);
            }
            b'l' => {
                self.lower(column, Kind::Lift, slots);
                self.count(columns, column, Cell::LowerLift);
            }
            b'f' => {
                self.lower(column, Kind::Fake, slots);
                self.count(columns, column, Cell::LowerFake);
            }
            _ => {}
        }
    }

    // A letter.
    #[inline(always)]
    fn walk_letter(&mut self, columns: usize, column: usize, b: u8, slots: &mut [u8])
        requires fits { CellFits self.old column slots.old }
        requires letter { 52 < b }
        ensures walked { CellDone (cell_of b) column
            self.old slots.old self.new slots.new }
        ensures counted { self.new.stats ≡ counted_in self.old columns column (cell_of b) }
    {
        match b {
            b'M' => self.walk_mine(columns, column, slots),
            b'K' => self.walk_keysound(columns, column, slots),
            _ => self.walk_rare(columns, column, b, slots),
        }
    }

    /// Any cell, by its byte.
    #[inline(always)]
    pub fn walk_cell(&mut self, columns: usize, column: usize, b: u8, slots: &mut [u8])
        requires { CellFits self.old column slots.old }
        ensures walked { CellDone (cell_of b) column
            self.old slots.old self.new slots.new }
        ensures counted { self.new.stats ≡ counted_in self.old columns column (cell_of b) }
    {
        if b < b'5' {
            self.walk_digit(columns, column, b, slots);
        } else {
            self.walk_letter(columns, column, b, slots);
        }
    }

    /// The row ends, before which there were so many arrows, heads and tails.
    #[inline(always)]
    pub fn end_row(&mut self, arrows: u32, heads: u32, tails: u32)
        requires few { EndsBelow count_bound self.old.stats }
        requires arrows_few { (arrows ≤ self.old.stats.total_arrows)
            × (self.old.stats.total_arrows ≤ arrows + 10) }
        requires heads_few { (heads ≤ self.old.columns.phantoms.heads)
            × (self.old.columns.phantoms.heads ≤ heads + 10) }
        requires tails_few { tails ≤ self.old.columns.phantoms.tails }
        requires rows_few { self.old.row < 4294967295 }
        ensures counted { self.new.stats ≡ row_end self.old.stats
            (self.old.stats.total_arrows - arrows)
            (self.old.columns.phantoms.heads - heads)
            (self.old.columns.phantoms.tails - tails) }
        ensures row { self.new.row ≡ self.old.row + 1 }
        ensures columns_stay { self.new.columns ≡ self.old.columns }
        ensures invalid_stays { self.new.invalid ≡ self.old.invalid }
        ensures count_stays { self.new.count ≡ self.old.count }
        ensures last_stays { self.new.last ≡ self.old.last }
    {
        let arrows = self.stats.total_arrows - arrows;
        let heads = self.columns.phantoms.heads - heads;
        let tails = self.columns.phantoms.tails - tails;
        row_tally::end_row(&mut self.stats, arrows, heads, tails);
        self.row += 1;
    }
}
