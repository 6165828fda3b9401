// The main call: minimised text, densities, row beats, typed notes, tally and last beat of a whole text, over its minimised measures.
#![tactic(auto)]

ghost use Rattle.std.specs.Prelude.{◌≡◌, [], ◌+◌, ◌*◌, ◌/◌, ◌≤◌, length};
ghost use Rattle.definitions.specs.Sizes.{most_bytes};
ghost use Rattle.definitions.specs.Lists.{padded};
ghost use Rattle.definitions.specs.Lanes.{most_rows_in};
ghost use Rattle.definitions.specs.Refusals.{leaves};
ghost use Rattle.definitions.specs.Figures.{minimised_text, densities as densities_of};
ghost use Rattle.definitions.specs.Beats.{f32, beats as beats_of};
ghost use Rattle.definitions.specs.Notes.{notes as notes_of};
ghost use Rattle.definitions.specs.Records.{records};
ghost use Rattle.definitions.specs.Entries.{figures_of_chart, main_answer};

use definitions::{ChartFigures, Lanes, Refusal};
use measure_walk::Walk;

/// The main call where it is accepted: the pass, the tally corrected over the minimised text read back, and the end: heads that are open are dropped,
/// and zeros stand past each answer.
pub fn chart_figures(
    data: &[u8],
    lanes: Lanes,
    text: &mut [u8],
    densities: &mut [u32],
    beats: &mut [f32],
    work: &mut [u16],
    slots: &mut [u8],
) -> ChartFigures
    requires text_length { length «data».now ≤ most_bytes }
    requires text_room { length «data».now + 1 ≤ length text.old }
    requires densities_room { (length «data».now + 1) / 2 + 1 ≤ length densities.old }
    requires beats_room { most_rows_in lanes.count (length «data».now) ≤ length beats.old }
    requires notes_room { 10 * lanes.count * most_rows_in lanes.count (length «data».now)
        ≤ length slots.old }
    requires work_room { most_rows_in lanes.count (length «data».now) ≤ length work.old }
    ensures value { result ≡ figures_of_chart lanes.count «data».now }
    ensures text_after { text.new
        ≡ padded 0 (length text.old) (minimised_text lanes.count «data».now) }
    ensures densities_after { densities.new
        ≡ padded 0 (length densities.old) (densities_of lanes.count «data».now) }
    ensures beats_after { beats.new
        ≡ padded (f32 0) (length beats.old) (beats_of lanes.count «data».now) }
    ensures work_after { work.new ≡ padded 0 (length work.old) [] }
    ensures notes_after { slots.new
        ≡ padded 0 (length slots.old) (records (notes_of lanes.count «data».now)) }
{
    let mut walk = Walk::new();
    let written = chart_pass::read_chart(data, lanes, text, densities, beats, slots, &mut walk);
    let stats = corrected_tally::corrected_stats(
        walk.run.stats,
        walk.phantoms(),
        &text[0..written.bytes],
        lanes,
        work,
    );
    let notes = row_notes::finish(walk.scratch(), slots);
    let rows = walk.run.row;
    slices::zero_past(beats, rows as usize, 0.0);
    slices::zero_past(text, written.bytes, 0);
    slices::zero_past(densities, written.measures, 0);
    let last = walk.found;
    ChartFigures {
        bytes: written.bytes,
        measures: written.measures,
        rows,
        notes,
        last_bits: beats::last_beat_bits(last),
        last_row: beats::last_note_row(last),
        stats,
    }
}

/// The main call, the Rust's function of that name: minimised text in bytes, densities in steps a measure, row beats, note records of ten bytes each,
/// the last beat, and the tally corrected over the minimised text read back. A refusal (12, 1 to 6) is the caller's mistake: another
/// lane number, too long a text, or too short a slice.
#[tactic(auto, unfolding(definitions::specs::Entries::main_answer))]
pub fn minimize_chart_count_rows_notes(
    data: &[u8],
    lanes: usize,
    text: &mut [u8],
    densities: &mut [u32],
    beats: &mut [f32],
    work: &mut [u16],
    slots: &mut [u8],
) -> Result<ChartFigures, Refusal>
    ensures value { result ≡ main_answer lanes «data».now
        text.old densities.old beats.old work.old slots.old }
    ensures text_after { text.new
        ≡ leaves 0 result (minimised_text lanes «data».now) text.old }
    ensures densities_after { densities.new
        ≡ leaves 0 result (densities_of lanes «data».now) densities.old }
    ensures beats_after { beats.new
        ≡ leaves (f32 0) result (beats_of lanes «data».now) beats.old }
    ensures work_after { work.new ≡ leaves 0 result [] work.old }
    ensures notes_after { slots.new
        ≡ leaves 0 result (records (notes_of lanes «data».now)) slots.old }
{
    let columns = Lanes::of_number(lanes)?.known();
    let len = data.len();
    refusals::text_fits(len)?;
    refusals::room_for_text(len, text.len())?;
    refusals::room_for_measures(len, densities.len())?;
    refusals::room_for_beats(columns, len, beats.len())?;
    refusals::room_for_work(columns, len, work.len())?;
    refusals::room_for_notes(columns, len, slots.len())?;
    Ok(chart_figures(data, columns, text, densities, beats, work, slots))
}
