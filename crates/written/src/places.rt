// Where the rows of the text that is written stand, and the notes put there.

ghost use Rattle.std.specs.Prelude.{◌≡◌, ◌+◌, ◌≤◌, ◌<◌, length, slice_set};
ghost use Rattle.definitions.specs.Sizes.{most_bytes};
ghost use Rattle.definitions.specs.Written.{letter_of, sum_of, written_length, last_of};
ghost use Rattle.written.specs.Places.{row_place, with_tail, with_note, MeasureAt, FirstPlace, PlaceOf};

use definitions::{Kind, Lanes, Note, Tail};

// The letter of a note.
fn letter(kind: Kind) -> u8
    ensures { result ≡ letter_of kind }
{
    match kind {
        Kind::Tap => b'1',
        Kind::Hold => b'2',
        Kind::Roll => b'4',
        Kind::Mine => b'M',
        Kind::Lift => b'L',
        Kind::Fake => b'F',
    }
}

// A tail's byte.
fn tail_byte() -> u8
    ensures { result ≡ 51 }
{
    b'3'
}

/// The place of a measure: its number, its first row, and where that begins in the text.
#[derive(Clone, Copy)]
pub struct Place {
    pub measure: usize,
    pub first: u32,
    pub at: usize,
}

impl Place {
    /// The first measure's.
    pub fn new() -> Place
        ensures stands { FirstPlace result }
        ensures first { result.first ≡ 0 }
    {
        Place {
            measure: 0,
            first: 0,
            at: 0,
        }
    }

    /// The place of the measure that has the row, which is this one or a later one.
    pub fn of_row(self, row: u32, counts: &[u32], lanes: Lanes) -> Place
        requires stands { MeasureAt lanes.count counts.now self }
        requires after { self.first ≤ row }
        requires row_below { row < sum_of counts.now }
        requires short { written_length lanes.count counts.now ≤ most_bytes }
        ensures { PlaceOf lanes.count counts.now row result }
    {
        let mut place = self;
        while place.measure < counts.len() {
            let count = counts[place.measure];
            if row - place.first < count {
                return place;
            }
            place = Place {
                measure: place.measure + 1,
                first: place.first + count,
                at: place.at + (lanes.count + 1) * count as usize + 2,
            };
        }
        unreachable!()
    }

    // Where the cell of a row of the measure stands.
    fn of_cell(self, row: u32, column: u32, counts: &[u32], lanes: Lanes) -> usize
        requires place { PlaceOf lanes.count counts.now row self }
        requires column { column < lanes.count }
        requires row_below { row < sum_of counts.now }
        requires short { written_length lanes.count counts.now ≤ most_bytes }
        ensures value { result ≡ row_place lanes.count counts.now row + column }
        ensures within { result < written_length lanes.count counts.now }
    {
        self.at + (lanes.count + 1) * (row - self.first) as usize + column as usize
    }

    // Puts a tail's `3`.
    fn put_tail(self, tail: Tail, column: u32, counts: &[u32], lanes: Lanes, text: &mut [u8])
        requires stands { MeasureAt lanes.count counts.now self }
        requires after { self.first ≤ last_of self.first tail }
        requires column { column < lanes.count }
        requires row_below { last_of 0 tail < sum_of counts.now }
        requires short { written_length lanes.count counts.now ≤ most_bytes }
        requires text_room { written_length lanes.count counts.now ≤ length text.old }
        ensures { text.new ≡ with_tail lanes.count counts.now column tail text.old }
    {
        match tail {
            Tail::Without => {}
            Tail::Row(row) => {
                let place = self.of_row(row, counts, lanes);
                text[place.of_cell(row, column, counts, lanes)] = tail_byte();
            }
        }
    }

    /// Puts a note's letter, in a row of this measure or a later one, and its tail. The answer is the place of the note's measure.
    pub fn put_note(self, note: Note, counts: &[u32], lanes: Lanes, text: &mut [u8]) -> Place
        requires stands { MeasureAt lanes.count counts.now self }
        requires after { self.first ≤ note.row }
        requires tail_after { note.row ≤ last_of note.row note.tail }
        requires column { note.column < lanes.count }
        requires row_below { last_of note.row note.tail < sum_of counts.now }
        requires short { written_length lanes.count counts.now ≤ most_bytes }
        requires text_room { written_length lanes.count counts.now ≤ length text.old }
        ensures place { PlaceOf lanes.count counts.now note.row result }
        ensures written { text.new ≡ with_note lanes.count counts.now note text.old }
    {
        let place = self.of_row(note.row, counts, lanes);
        text[place.of_cell(note.row, note.column, counts, lanes)] = letter(note.kind);
        place.put_tail(note.tail, note.column, counts, lanes, text);
        place
    }
}
