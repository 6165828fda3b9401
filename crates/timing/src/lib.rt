// The minimised rows of a chart and their beats: each measure is minimised in the text slice when it ends, its rows back to back, and the
// beats of those rows are written with it.
#![tactic(auto)]

ghost use Rattle.std.specs.Prelude.{◌≡◌, ◌+◌, ◌≤◌, length};
ghost use Rattle.definitions.specs.Sizes.{most_bytes};
ghost use Rattle.definitions.specs.Lists.{padded};
ghost use Rattle.definitions.specs.Lanes.{most_rows_in};
ghost use Rattle.definitions.specs.Refusals.{leaves};
ghost use Rattle.definitions.specs.Tracker.{hold_at};
ghost use Rattle.definitions.specs.Correction.{is_opening};
ghost use Rattle.definitions.specs.Beats.{f32, beats as beats_of};
ghost use Rattle.definitions.specs.TimingRows.{has_some_head, timing_rows};
ghost use Rattle.definitions.specs.Entries.{figures_of_timing, timing_answer};

use definitions::{Lanes, Refusal, TimingFigures};
use measures::RowForm;

// Whether the byte is a 2 or 4.
#[tactic(auto, unfolding(definitions::specs::Tracker::hold_at, definitions::specs::Cells::cell_of))]
fn is_head(b: u8) -> bool
    ensures { result ≡ is_opening (hold_at b) }
{
    matches!(b, b'2' | b'4')
}

// Whether any of the bytes is. It looks at every byte, so that no turn of the loop branches on one.
fn has_head(bytes: &[u8]) -> bool
    ensures { result ≡ has_some_head bytes.now }
{
    let mut has = false;
    for &b in bytes {
        has |= is_head(b);
    }
    has
}

// The call where it is accepted: the beats of each measure's rows are written, and whether they have a 2 or 4 is asked; then zeros go past each answer.
fn timing_figures(data: &[u8], lanes: Lanes, text: &mut [u8], beats: &mut [f32]) -> TimingFigures
    requires text_length { length «data».now ≤ most_bytes }
    requires text_room { length «data».now + 1 ≤ length text.old }
    requires beats_room { most_rows_in lanes.count (length «data».now) ≤ length beats.old }
    ensures value { result ≡ figures_of_timing lanes.count «data».now }
    ensures text_after { text.new
        ≡ padded 0 (length text.old) (timing_rows lanes.count «data».now) }
    ensures beats_after { beats.new
        ≡ padded (f32 0) (length beats.old) (beats_of lanes.count «data».now) }
{
    let mut chart = measures::chart_measures(data, lanes, RowForm::BackToBack);
    let mut rows = 0;
    let mut heads = false;
    'measures: while let Some(measure) = chart.next(text) {
        let end = measure.start + measure.rows * lanes.count;
        beats::append_row_beats(beats, rows, measure.number as u32, measure.rows as u32);
        heads |= has_head(&text[measure.start..end]);
        rows += measure.rows;
    }
    slices::zero_past(text, chart.out, 0);
    slices::zero_past(beats, rows, 0.0);
    TimingFigures {
        bytes: chart.out,
        rows,
        heads,
    }
}

/// The minimised rows of a text, L bytes each, back to back, their beats, and whether any of them has a 2 or 4, as the Rust's function of that name. A
/// refusal (12, 1, 2 or 4) is the caller's mistake.
#[tactic(auto, unfolding(definitions::specs::Entries::timing_answer))]
pub fn minimize_timing_rows(
    data: &[u8],
    lanes: usize,
    text: &mut [u8],
    beats: &mut [f32],
) -> Result<TimingFigures, Refusal>
    ensures value { result ≡ timing_answer lanes «data».now text.old beats.old }
    ensures text_after { text.new
        ≡ leaves 0 result (timing_rows lanes «data».now) text.old }
    ensures beats_after { beats.new
        ≡ leaves (f32 0) result (beats_of lanes «data».now) beats.old }
{
    let columns = Lanes::of_number(lanes)?.known();
    let len = data.len();
    refusals::text_fits(len)?;
    refusals::room_for_text(len, text.len())?;
    refusals::room_for_beats(columns, len, beats.len())?;
    Ok(timing_figures(data, columns, text, beats))
}
