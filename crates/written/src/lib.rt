// From note records and a row count for each measure to a chart: the checks of records and counts in their order, and the text. Rows of zeros are
// written first, and then each note is put at its place, which is in the measure of the note before it or a later one. Nothing is written before the
// last check.
#![tactic(auto)]

pub mod checks;
pub mod places;
pub mod rows;

ghost use Rattle.std.specs.Prelude.{◌≡◌, [], ◌++◌, ◌+◌, ◌*◌, ◌≤◌, length, take, replicate};
ghost use Rattle.definitions.specs.Sizes.{most_bytes};
ghost use Rattle.definitions.specs.Figures.{row_text};
ghost use Rattle.definitions.specs.Refusals.{leaves};
ghost use Rattle.definitions.specs.Written.{written_text, written_length, notes_in};
ghost use Rattle.definitions.specs.Entries.{written_answer};
ghost use Rattle.written.specs.Apart.{Apart, CountsFit};

use definitions::{Lanes, Refusal, WrittenFigures};
use note_records::checks::records_whole;
use note_records::limited_note;
use places::Place;

// So many rows of zeros, each with its newline, from `at` on. The answer is where they end.
fn write_zeros(count: u32, lanes: Lanes, text: &mut [u8], at: usize) -> usize
    requires few { count ≤ 4194304 }
    requires text_room { at + (lanes.count + 1) * count ≤ length text.old }
    ensures written { take result text.new
        ≡ take at text.old ++ row_text (replicate count (replicate lanes.count 48)) }
    ensures size { result ≡ at + (lanes.count + 1) * count }
    ensures same_length { length text.new ≡ length text.old }
{
    let zeros = [b'0'; 10];
    let mut end = at;
    for _row in 0..count {
        output::put_line(text, end, &zeros[..lanes.count]);
        end += lanes.count + 1;
    }
    end
}

// The text of these row counts without a note; it ends where the answer says.
fn write_rows(counts: &[u32], lanes: Lanes, text: &mut [u8]) -> usize
    requires some_count { 1 ≤ length counts.now }
    requires short { written_length lanes.count counts.now ≤ most_bytes }
    requires text_room { written_length lanes.count counts.now ≤ length text.old }
    ensures written { take result text.new ≡ written_text lanes.count [] counts.now }
    ensures size { result ≡ written_length lanes.count counts.now }
    ensures same_length { length text.new ≡ length text.old }
{
    let mut at = write_zeros(counts[0], lanes, &mut *text, 0);
    for i in 1..counts.len() {
        output::put_comma(&mut *text, at);
        at = write_zeros(counts[i], lanes, &mut *text, at + 2);
    }
    at
}

// Puts the notes into the text without a note.
fn write_notes(records: &[u8], counts: &[u32], lanes: Lanes, text: &mut [u8])
    requires apart { Apart lanes.count records.now }
    requires counts { CountsFit lanes.count records.now counts.now }
    requires text_room { written_length lanes.count counts.now ≤ length text.old }
    requires zeros { take (written_length lanes.count counts.now) text.old
        ≡ written_text lanes.count [] counts.now }
    ensures written { take (written_length lanes.count counts.now) text.new
        ≡ written_text lanes.count (notes_in records.now) counts.now }
    ensures same_length { length text.new ≡ length text.old }
{
    let mut place = Place::new();
    for bytes in records.as_chunks::<10>().0 {
        place = place.put_note(limited_note(bytes), counts, lanes, &mut *text);
    }
}

/// The text of a chart with these notes and row counts, by `1`, `2`, `4`, `M`, `L`, `F`, `3` and `0`, with `,` between measures and no `;`.
/// Refusals: 12; 1, of the text to be written; 7 and 8, of whoever stores the records; 13 and 14, of whoever edits the notes; 15, of whoever counts
/// the rows; 2.
#[tactic(auto, unfolding(definitions::specs::Entries::written_answer))]
pub fn notes_to_chart(
    records: &[u8],
    lanes: usize,
    counts: &[u32],
    text: &mut [u8],
) -> Result<WrittenFigures, Refusal>
    ensures value { result ≡ written_answer lanes records.now counts.now text.old }
    ensures text_after { text.new
        ≡ leaves 0 result (written_text lanes (notes_in records.now) counts.now) text.old }
{
    let columns = Lanes::of_number(lanes)?.known();
    let size = checks::text_size(columns, counts)?;
    records_whole(records)?;
    let walked = checks::records_kept(records, columns, size.rows)?;
    if !walked.order.kept {
        return Err(Refusal::OutOfOrder);
    }
    if !walked.apart {
        return Err(Refusal::NotesMeet);
    }
    checks::counts_of_notes(records, columns, counts, walked.within)?;
    checks::room_for_text(size.bytes, text.len())?;
    let end = write_rows(counts, columns, &mut *text);
    write_notes(records, counts, columns, &mut *text);
    slices::zero_past(text, end, 0);
    Ok(WrittenFigures {
        bytes: size.bytes,
        measures: counts.len(),
        rows: size.rows,
        records: records.len() / 10,
    })
}
