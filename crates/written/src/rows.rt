// The notes of one measure after the other, and whether it could be minimised further.

ghost use Rattle.std.specs.Prelude.{◌≡◌, not, ◌&&◌, ◌+◌, ◌%◌, ◌≤◌, ◌==◌, nat_lt};
ghost use Rattle.std.specs.List.{list_any};
ghost use Rattle.definitions.specs.Records.{number_of_tail};
ghost use Rattle.definitions.specs.Written.{shrinks, last_of, written_rows, notes_in};
ghost use Rattle.written.specs.Standing.{second_row, note_in_second, StandsFirst, Standing};
ghost use Rattle.written.specs.Apart.{Apart};

use definitions::{Lanes, Note, Tail};
use note_records::{NO_TAIL_ROW, limited_note};

// A tail's row, or a number that is no row.
fn tail_row(tail: Tail) -> u32
    ensures { result ≡ number_of_tail tail }
{
    match tail {
        Tail::Without => NO_TAIL_ROW,
        Tail::Row(row) => row,
    }
}

/// The last row that a note reaches.
pub fn last_row(note: Note) -> u32
    ensures { result ≡ last_of note.row note.tail }
{
    match note.tail {
        Tail::Without => note.row,
        Tail::Row(row) => row,
    }
}

// Whether the row is a second row of those from row `first` to before row `end`.
fn is_second(row: u32, first: u32, end: u32) -> bool
    ensures { result ≡ second_row first end row }
{
    first <= row && row < end && (row - first) % 2 == 1
}

// Whether a note stands or ends in one of these.
fn in_second(note: Note, first: u32, end: u32) -> bool
    ensures { result ≡ note_in_second first end note }
{
    is_second(note.row, first, end) || is_second(tail_row(note.tail), first, end)
}

// Whether so many rows could be minimised further, of which a note stands in a second one or none does.
fn can_halve(count: u32, found: bool) -> bool
    ensures { result ≡ (nat_lt 0 count && (count % 2 == 0 && not found)) }
{
    0 < count && count % 2 == 0 && !found
}

/// The place in the records before which all stand above the next measure, and of each column the tail of its last note there.
#[derive(Clone, Copy)]
pub struct NotesAbove {
    pub next: usize,
    pub tails: [u32; 10],
}

impl NotesAbove {
    /// Above row 0.
    pub fn new() -> NotesAbove
        ensures { StandsFirst result }
    {
        NotesAbove {
            next: 0,
            tails: [NO_TAIL_ROW; 10],
        }
    }

    // Whether a tail of the notes above stands in a second row.
    fn tail_in_second(&self, first: u32, end: u32) -> bool
        ensures { result ≡ list_any (second_row first end) self.now.tails }
    {
        self.tails.iter().any(|&tail| is_second(tail, first, end))
    }

    // Goes on below the rows before `end`. Whether a note stands or ends in a second row of these.
    fn take_rows(&mut self, records: &[u8], first: u32, end: u32, lanes: Lanes) -> bool
        requires apart { Apart lanes.count records.now }
        requires standing { Standing (notes_in records.now) first self.old }
        requires after { first ≤ end }
        requires few { end ≤ 4194304 }
        ensures value { result ≡ list_any (note_in_second first end) (notes_in records.now) }
        ensures standing { Standing (notes_in records.now) end self.new }
    {
        let (chunks, _) = records.as_chunks::<10>();
        let mut found = self.tail_in_second(first, end);
        while self.next < chunks.len() {
            let note = limited_note(&chunks[self.next]);
            if end <= note.row {
                return found;
            }
            found = found || in_second(note, first, end);
            self.tails[note.column as usize] = tail_row(note.tail);
            self.next += 1;
        }
        found
    }

    /// Whether the next measure could be minimised further: it has rows, even in number, and in no second one a note stands or ends.
    pub fn next_shrinks(&mut self, records: &[u8], first: u32, count: u32, lanes: Lanes) -> bool
        requires apart { Apart lanes.count records.now }
        requires standing { Standing (notes_in records.now) first self.old }
        requires few { first + count ≤ 4194304 }
        ensures value { result
            ≡ shrinks (written_rows lanes.count (notes_in records.now) first count) }
        ensures standing { Standing (notes_in records.now) (first + count) self.new }
    {
        let found = self.take_rows(records, first, first + count, lanes);
        can_halve(count, found)
    }
}
