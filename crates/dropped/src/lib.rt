// The list of a chart's dropped heads: minimised text in bytes, and a record of ten bytes for each head that has no note.
#![tactic(auto)]

ghost use Rattle.std.specs.Prelude.{◌≡◌, ◌+◌, ◌*◌, ◌≤◌, length, take};
ghost use Rattle.definitions.specs.Sizes.{most_bytes};
ghost use Rattle.definitions.specs.Lists.{padded};
ghost use Rattle.definitions.specs.Lanes.{most_rows_in};
ghost use Rattle.definitions.specs.Refusals.{leaves};
ghost use Rattle.definitions.specs.Figures.{minimised_text};
ghost use Rattle.definitions.specs.Dropped.{dropped_heads, dropped_records};
ghost use Rattle.definitions.specs.Entries.{measure_count, row_count, figures_of_dropped, dropped_answer};

use definitions::{DroppedFigures, Lanes, Refusal};
use measures::RowForm;

// Minimised text in bytes, measures and rows.
#[derive(Clone, Copy)]
struct Minimised {
    bytes: usize,
    measures: usize,
    rows: u32,
}

// The minimised text of a text is written. Out of line it leaves both loops their registers.
#[inline(never)]
fn minimise(data: &[u8], given: Lanes, text: &mut [u8]) -> Minimised
    requires text_length { length «data».now ≤ most_bytes }
    requires text_room { length «data».now + 1 ≤ length text.old }
    ensures text_is { take result.bytes text.new ≡ minimised_text given.count «data».now }
    ensures short { result.bytes ≤ length «data».now + 1 }
    ensures measures { result.measures ≡ measure_count given.count «data».now }
    ensures rows { result.rows ≡ row_count given.count «data».now }
{
    let mut chart = measures::chart_measures(data, given.known(), RowForm::Lines);
    let mut rows = 0;
    'measures: while let Some(measure) = chart.next(text) {
        rows += measure.rows as u32;
    }
    Minimised {
        bytes: chart.out,
        measures: chart.number,
        rows,
    }
}

// The call where it is accepted: the text is minimised, its heads are listed, and zeros stand past both.
fn list_chart(data: &[u8], lanes: Lanes, text: &mut [u8], list: &mut [u8]) -> DroppedFigures
    requires text_length { length «data».now ≤ most_bytes }
    requires text_room { length «data».now + 1 ≤ length text.old }
    requires list_room { 10 * lanes.count * most_rows_in lanes.count (length «data».now)
        ≤ length list.old }
    ensures value { result ≡ figures_of_dropped lanes.count «data».now }
    ensures text_after { text.new
        ≡ padded 0 (length text.old) (minimised_text lanes.count «data».now) }
    ensures list_after { list.new
        ≡ padded 0 (length list.old) (dropped_records (dropped_heads lanes.count «data».now)) }
{
    let minimised = minimise(data, lanes, text);
    let bytes = minimised.bytes;
    let rows = minimised.rows;
    let heads = dropped_list::list_heads(&text[0..bytes], rows, lanes, list);
    slices::zero_past(text, bytes, 0);
    DroppedFigures {
        bytes,
        measures: minimised.measures,
        rows,
        heads,
    }
}

/// The list of dropped heads of a text: for each 2 or 4 of the minimised rows that has no note its row, the row that dropped it, its column and the
/// reason. A refusal (12, 1, 2 or 6) is the caller's mistake.
#[tactic(auto, unfolding(definitions::specs::Entries::dropped_answer))]
pub fn dropped_holds(
    data: &[u8],
    lanes: usize,
    text: &mut [u8],
    list: &mut [u8],
) -> Result<DroppedFigures, Refusal>
    ensures value { result ≡ dropped_answer lanes «data».now text.old list.old }
    ensures text_after { text.new
        ≡ leaves 0 result (minimised_text lanes «data».now) text.old }
    ensures list_after { list.new
        ≡ leaves 0 result (dropped_records (dropped_heads lanes «data».now)) list.old }
{
    let columns = Lanes::of_number(lanes)?.known();
    let len = data.len();
    refusals::text_fits(len)?;
    refusals::room_for_text(len, text.len())?;
    refusals::room_for_notes(columns, len, list.len())?;
    Ok(list_chart(data, columns, text, list))
}
