// The hold tracker, `track_holds_core` cell by cell: the open heads of each column.
#![tactic(auto)]

ghost use Rattle.std.specs.Prelude.{◌≡◌, false, [], ℕ, ◌+◌, ◌≤◌, ◌<◌};
ghost use Rattle.definitions.specs.declared.DepthEffect;
ghost use Rattle.taps.specs.Taps.{Marked};
ghost use Rattle.holds.specs.Stacks.{stack_of, Sized, TrackReady, TrackStepped, ended_at};

use definitions::DepthEffect;

/// How many open heads a column keeps.
const HOLD_STACK_CAP: u32 = 8;

/// The open heads of ten columns: column c has the places 8 * c to 8 * c + 7, and `depths` says how many of them are in use. `busy` has the
/// columns with an open head as a mask.
#[derive(Drop)]
pub struct Tracker {
    pub heads: [u32; 80],
    pub depths: [u32; 10],
    pub busy: u32,
}

impl Tracker {
    /// The tracker before the first row.
    #[tactic(auto, unfolding(crate::specs::Stacks::stack_of))]
    pub fn new() -> Self
        ensures open_heads { (c : ℕ) → c < 10 → stack_of result c ≡ [] }
        ensures sized { Sized result }
    {
        Tracker {
            heads: [0; 80],
            depths: [0; 10],
            busy: 0,
        }
    }

    /// A head, by its row or another number, on its column's stack. A ninth is not pushed.
    #[inline(always)]
    pub fn push(&mut self, row: u32, column: usize)
        requires { TrackReady column self.old }
        ensures { TrackStepped DepthEffect.Opens row column self.old self.new [] }
    {
        let depth = self.depths[column];
        if depth < HOLD_STACK_CAP {
            let at = 8 * column + depth as usize;
            self.heads[at] = row;
            self.depths[column] = depth + 1;
            self.busy = taps::with_column(self.busy, column);
        }
    }

    /// The stack of a column is emptied.
    #[inline(always)]
    pub fn clear(&mut self, column: usize)
        requires { TrackReady column self.old }
        ensures { (row : ℕ) → TrackStepped DepthEffect.Blocks row column self.old self.new [] }
    {
        self.depths[column] = 0;
        self.busy = taps::without_column(self.busy, column);
    }

    /// The newest head off its column's stack.
    #[inline(always)]
    pub fn pop(&mut self, column: usize) -> Option<u32>
        requires { TrackReady column self.old }
        ensures { (row : ℕ)
            → TrackStepped DepthEffect.Closes row column self.old self.new (ended_at row result) }
    {
        let depth = self.depths[column];
        if depth == 0 {
            return None;
        }
        let at = 8 * column + depth as usize - 1;
        self.depths[column] = depth - 1;
        self.busy = busy_after(self.busy, column, depth);
        Some(self.heads[at])
    }
}

// The mask of the busy columns, of which this one had so many heads and has one less.
#[inline(always)]
fn busy_after(busy: u32, column: usize, depth: u32) -> u32
    requires { column < 10 }
    ensures last { depth ≡ 1 → Marked busy column false result }
    ensures more { (depth ≡ 1 → ⊥) → result ≡ busy }
{
    if depth == 1 {
        return taps::without_column(busy, column);
    }
    busy
}
