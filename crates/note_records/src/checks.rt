// What is asked of all records before one of them is used: 7, and 13 from note to note. That a record has a note at all, 8, `note_of_ten` says.

ghost use Rattle.std.specs.Prelude.{◌≡◌, true, ◌&&◌, ◌+◌, ◌<◌, nat_lt};
ghost use Rattle.definitions.specs.Refusals.{refused_if};
ghost use Rattle.definitions.specs.declared.Refusal.TheVariants.{NoRecord};
ghost use Rattle.definitions.specs.Written.{uneven_records};
ghost use Rattle.note_records.specs.Limits.{from_place};

use definitions::{Note, Refusal};

/// The records have ten bytes each. A refusal (7) is the mistake of whoever stores them.
#[tactic(auto, unfolding(definitions::specs::Written::uneven_records))]
pub fn records_whole(records: &[u8]) -> Result<(), Refusal>
    ensures { result ≡ refused_if (uneven_records records.now) NoRecord }
{
    if records.len() % 10 != 0 {
        return Err(Refusal::NoRecord);
    }
    Ok(())
}

// A note stands at that place or past it, by row, then column.
fn stands_from(note: Note, row: u32, column: u32) -> bool
    ensures { result ≡ from_place row column note }
{
    row < note.row || (row == note.row && column <= note.column)
}

// It does, and its column is one of so many lanes.
fn stands_allowed(note: Note, row: u32, column: u32, lanes: usize) -> bool
    ensures { result ≡ (from_place row column note && nat_lt note.column lanes) }
{
    stands_from(note, row, column) && (note.column as usize) < lanes
}

/// The order of the notes before a place: the lowest place that the next note may have, and whether each note before stood where it may.
#[derive(Clone, Copy)]
pub struct Order {
    pub row: u32,
    pub column: u32,
    pub kept: bool,
}

impl Order {
    /// Before the first note.
    pub fn new() -> Order
        ensures row { result.row ≡ 0 }
        ensures column { result.column ≡ 0 }
        ensures kept { result.kept ≡ true }
    {
        Order {
            row: 0,
            column: 0,
            kept: true,
        }
    }

    /// The next note: it stands from the lowest place on, in a column of so many lanes.
    pub fn take(&mut self, note: Note, lanes: usize)
        requires column_narrow { note.column < 10 }
        ensures row { self.new.row ≡ note.row }
        ensures column { self.new.column ≡ note.column + 1 }
        ensures kept { self.new.kept ≡ (self.old.kept
            && (from_place self.old.row self.old.column note && nat_lt note.column lanes)) }
    {
        let allowed = stands_allowed(note, self.row, self.column, lanes);
        self.kept = self.kept && allowed;
        self.row = note.row;
        self.column = note.column + 1;
    }
}
