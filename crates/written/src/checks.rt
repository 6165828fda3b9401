// The checks of records and row counts, each looked for in all of them before the next is.

ghost use Rattle.std.specs.Prelude.{◌≡◌, false, not, ◌&&◌, ◌+◌, ◌≤◌, ◌<◌, nat_lt, nat_le, slice_index, slice_set, OnOk, IfOk, IfErr, IfSome, IfNone, Ok, Err};
ghost use Rattle.definitions.specs.Sizes.{most_bytes};
ghost use Rattle.definitions.specs.Refusals.{refused_if, long_text};
ghost use Rattle.definitions.specs.declared.Refusal.TheVariants.{ShortText, BadRecord, OtherCounts};
ghost use Rattle.definitions.specs.Written.{written_length, sum_of, notes_in, uneven_records, broken_records, last_of, some_past, some_shrink, written_measures, other_counts};
ghost use Rattle.definitions.specs.WriterMakes.{Made};
ghost use Rattle.note_records.specs.Limits.{from_place};
ghost use Rattle.written.specs.Apart.{Apart};
ghost use Rattle.written.specs.Found.{FirstWalked, Found};

use crate::rows::{NotesAbove, last_row};
use definitions::{Lanes, Note, Refusal};
use note_records::checks::Order;
use note_records::note_of_ten;

/// How much is to be written: bytes and rows.
#[derive(Clone, Copy)]
pub struct TextSize {
    pub bytes: usize,
    pub rows: u32,
}

// The rows of all measures together, where a text can have so many.
fn row_sum(counts: &[u32]) -> Option<u32>
    ensures sum { IfSome result (λ rows. rows ≡ sum_of counts.now) }
    ensures few { IfSome result (λ rows. rows ≤ 4194304) }
    ensures many { IfNone result (4194304 < sum_of counts.now) }
{
    let mut rows: u32 = 0;
    for &count in counts {
        if definitions::ROWS_BOUND - rows < count {
            return None;
        }
        rows += count;
    }
    Some(rows)
}

/// The size of the text to be written, which is not too long.
#[tactic(auto, unfolding(definitions::specs::Refusals::long_text))]
pub fn text_size(lanes: Lanes, counts: &[u32]) -> Result<TextSize, Refusal>
    ensures accepted { OnOk result (long_text (written_length lanes.count counts.now) ≡ Ok tt) }
    ensures bytes { IfOk result (λ size. size.bytes ≡ written_length lanes.count counts.now) }
    ensures rows { IfOk result (λ size. size.rows ≡ sum_of counts.now) }
    ensures short { IfOk result (λ size. size.bytes ≤ most_bytes) }
    ensures few { IfOk result (λ size. size.rows ≤ 4194304) }
    ensures refused { IfErr result (λ refusal.
        long_text (written_length lanes.count counts.now) ≡ Err refusal) }
{
    let measures = counts.len();
    if (definitions::MEASURES_BOUND as usize) < measures {
        return Err(Refusal::LongText);
    }
    let rows = match row_sum(counts) {
        Some(rows) => rows,
        None => return Err(Refusal::LongText),
    };
    let mut bytes = (lanes.count + 1) * rows as usize;
    if 0 < measures {
        bytes += 2 * (measures - 1);
    }
    if definitions::MOST_BYTES < bytes {
        return Err(Refusal::LongText);
    }
    Ok(TextSize { bytes, rows })
}

// The first row of its column that a note does not reach.
fn free_row(note: Note) -> u32
    requires { Made note }
    ensures { result ≡ last_of note.row note.tail + 1 }
{
    last_row(note) + 1
}

// A note reaches no row past so many.
fn reaches_within(note: Note, rows: u32) -> bool
    ensures { result ≡ nat_lt (last_of note.row note.tail) rows }
{
    last_row(note) < rows
}

/// What a walk over the records has found of the notes before a place: their order, of each column the first row that no note reaches, if they are
/// in order, whether none meets another, and whether all stand and end within the rows.
#[derive(Clone, Copy)]
pub struct Walked {
    pub order: Order,
    pub free: [u32; 10],
    pub apart: bool,
    pub within: bool,
}

impl Walked {
    // Before the first note.
    fn new() -> Walked
        ensures { FirstWalked result }
    {
        Walked {
            order: Order::new(),
            free: [0; 10],
            apart: true,
            within: true,
        }
    }

    // The next note: it stands from the lowest place on and in a lane's column, in a row that no note of its column reaches, and reaches no row past
    // the last.
    fn take(&mut self, note: Note, lanes: Lanes, rows: u32)
        requires { Made note }
        ensures row { self.new.order.row ≡ note.row }
        ensures column { self.new.order.column ≡ note.column + 1 }
        ensures kept { self.new.order.kept ≡ (self.old.order.kept
            && (from_place self.old.order.row self.old.order.column note
            && nat_lt note.column lanes.count)) }
        ensures free { self.new.free
            ≡ slice_set self.old.free note.column (last_of note.row note.tail + 1) }
        ensures apart { self.new.apart
            ≡ (self.old.apart && nat_le (slice_index self.old.free note.column) note.row) }
        ensures within { self.new.within
            ≡ (self.old.within && nat_lt (last_of note.row note.tail) rows) }
    {
        let column = note.column as usize;
        let within = reaches_within(note, rows);
        self.order.take(note, lanes.count);
        self.apart = self.apart && self.free[column] <= note.row;
        self.within = self.within && within;
        self.free[column] = free_row(note);
    }
}

/// Each record keeps the writer's limits. With that it is known of the notes of all records whether they are in order, meet, or pass the rows.
pub fn records_kept(records: &[u8], lanes: Lanes, rows: u32) -> Result<Walked, Refusal>
    requires { uneven_records records.now ≡ false }
    ensures accepted { OnOk result (broken_records records.now ≡ false) }
    ensures found { IfOk result (λ walked. Found lanes.count rows records.now walked) }
    ensures refused { IfErr result (λ refusal. refused_if (broken_records records.now) BadRecord
        ≡ Err refusal) }
{
    let mut walked = Walked::new();
    for bytes in records.as_chunks::<10>().0 {
        match note_of_ten(bytes) {
            Ok(note) => walked.take(note, lanes, rows),
            Err(_) => return Err(Refusal::BadRecord),
        }
    }
    Ok(walked)
}

// No measure could be minimised further.
fn none_shrinks(records: &[u8], lanes: Lanes, counts: &[u32]) -> bool
    requires apart { Apart lanes.count records.now }
    requires few { sum_of counts.now ≤ 4194304 }
    ensures { result
        ≡ not (some_shrink (written_measures lanes.count (notes_in records.now) counts.now)) }
{
    let mut above = NotesAbove::new();
    let mut first: u32 = 0;
    for &count in counts {
        if above.next_shrinks(records, first, count, lanes) {
            return false;
        }
        first += count;
    }
    true
}

/// The row counts are those of the notes, so many rows together, and no measure could be minimised further.
#[tactic(auto, unfolding(definitions::specs::Written::other_counts))]
pub fn counts_of_notes(
    records: &[u8],
    lanes: Lanes,
    counts: &[u32],
    within: bool,
) -> Result<(), Refusal>
    requires apart { Apart lanes.count records.now }
    requires within { not within ≡ some_past (sum_of counts.now) (notes_in records.now) }
    requires few { sum_of counts.now ≤ 4194304 }
    ensures { result ≡ refused_if
        (other_counts lanes.count (notes_in records.now) counts.now) OtherCounts }
{
    let given = !counts.is_empty();
    if given && within && none_shrinks(records, lanes, counts) {
        return Ok(());
    }
    Err(Refusal::OtherCounts)
}

/// The text slice has room for the text, and no byte more is asked.
pub fn room_for_text(bytes: usize, room: usize) -> Result<(), Refusal>
    ensures value { result ≡ refused_if (nat_lt room bytes) ShortText }
    ensures ok { OnOk result (bytes ≤ room) }
{
    if room < bytes {
        return Err(Refusal::ShortText);
    }
    Ok(())
}
