// The columns of the main call's walk, of up to ten, and what a cell does to its own. Nothing is copied: a cell alters its column's numbers in place.
ghost use Rattle.std.specs.Prelude.{◌≡◌, ◌+◌, ◌-◌, ◌<◌, slice_index};
ghost use Rattle.definitions.specs.declared.DepthEffect.TheVariants.{Nothing, Blocks, Opens, Closes};
ghost use Rattle.phantoms.specs.Phantoms.{Low};
ghost use Rattle.row_tally.specs.Masked.{bit_is_set};
ghost use Rattle.row_notes.specs.Writer.{no_head};
ghost use Rattle.row_walk.specs.Columns.{Ten, Free, ColumnReady, ColumnPut};

use phantoms::Phantoms;

/// What the walk keeps of each column: its phantom depth, its object depth and its open head. A column without its bit in `busy` has the depths 0
/// and no open head.
#[derive(Clone, Copy)]
pub struct Columns {
    pub phantoms: Phantoms,
    pub object_depths: [u32; 10],
    pub hold_heads: [u32; 10],
    pub busy: u32,
}

impl Columns {
    /// Whether a column has its bit.
    #[inline(always)]
    pub fn is_busy(&self, column: usize) -> bool
        requires { column < 10 }
        ensures { result ≡ bit_is_set column self.now.busy }
    {
        (self.busy >> column) & 1 == 1
    }

    /// An m, l or f: the open head is dropped.
    #[inline(always)]
    #[tactic(auto, unfolding(phantoms::specs::Phantoms::with_effect))]
    pub fn drop_head(&mut self, column: usize)
        requires { ColumnReady self.old column }
        ensures { ColumnPut self.old column Nothing
            (slice_index self.old.object_depths column) no_head self.new }
    {
        self.hold_heads[column] = row_notes::NO_HEAD;
    }

    /// A K: the object depth is 0.
    #[inline(always)]
    #[tactic(auto, unfolding(phantoms::specs::Phantoms::with_effect))]
    pub fn block_objects(&mut self, column: usize)
        requires { ColumnReady self.old column }
        ensures { ColumnPut self.old column Nothing 0
            (slice_index self.old.hold_heads column) self.new }
    {
        self.object_depths[column] = 0;
    }

    /// A 1, M, L or F: both, and the phantom depth is met.
    #[inline(always)]
    #[tactic(auto, unfolding(phantoms::specs::Phantoms::with_effect))]
    pub fn block(&mut self, column: usize)
        requires { ColumnReady self.old column }
        ensures { ColumnPut self.old column Blocks 0 no_head self.new }
    {
        self.phantoms.block(column);
        self.object_depths[column] = 0;
        self.hold_heads[column] = row_notes::NO_HEAD;
    }

    /// A 2 or 4, whose record has this number.
    #[inline(always)]
    #[tactic(auto, unfolding(phantoms::specs::Phantoms::with_effect))]
    pub fn open(&mut self, column: usize, head: u32)
        requires ready { ColumnReady self.old column }
        requires low { Low 4294967294 self.old.phantoms }
        requires object_few { slice_index self.old.object_depths column < 4294967295 }
        ensures { ColumnPut self.old column Opens
            (slice_index self.old.object_depths column + 1) head self.new }
    {
        self.phantoms.open(column);
        self.object_depths[column] += 1;
        self.hold_heads[column] = head;
        self.busy = taps::with_column(self.busy, column);
    }

    // A column without an open head loses its bit where its depths are 0.
    #[inline(always)]
    fn tell_free(&mut self, column: usize)
        requires ready { ColumnReady self.old column }
        requires no_open_head { slice_index self.old.hold_heads column ≡ no_head }
        ensures phantoms_stay { self.new.phantoms ≡ self.old.phantoms }
        ensures object_depths_stay { self.new.object_depths ≡ self.old.object_depths }
        ensures heads_stay { self.new.hold_heads ≡ self.old.hold_heads }
        ensures free { Free self.new }
    {
        if (self.phantoms.depths[column] == 0) & (self.object_depths[column] == 0) {
            self.busy = taps::without_column(self.busy, column);
        }
    }

    // A 3, and the column keeps its bit.
    #[inline(always)]
    #[tactic(auto, unfolding(phantoms::specs::Phantoms::with_effect))]
    fn fall(&mut self, column: usize)
        requires ready { ColumnReady self.old column }
        requires low { Low 4294967294 self.old.phantoms }
        ensures { ColumnPut self.old column Closes
            (slice_index self.old.object_depths column - 1) no_head self.new }
    {
        self.phantoms.close(column);
        self.object_depths[column] = self.object_depths[column].saturating_sub(1);
        self.hold_heads[column] = row_notes::NO_HEAD;
    }

    /// A 3.
    #[inline(always)]
    pub fn close(&mut self, column: usize)
        requires ready { ColumnReady self.old column }
        requires low { Low 4294967294 self.old.phantoms }
        ensures { ColumnPut self.old column Closes
            (slice_index self.old.object_depths column - 1) no_head self.new }
    {
        self.fall(column);
        self.tell_free(column);
    }
}
