// Each asks its call about a record's text, with slices that hold other numbers before, and compares all that it left with what is stored.
use chart::minimize_chart_count_rows_notes;
use compare::{all_zero, same_bytes, same_figures, same_floats, same_numbers};
use definitions::Refusal;
use dropped::dropped_holds;
use figures::Figures;
use judged::{process_rows_judgable, process_timing_rows};
use kept::process_chart_kept;
use presses::press_trace;
use scans::densities::measure_densities;
use scans::last_beat::chart_last_beat_impl;
use scans::spacing::equally_spaced_impl;
use stored::{Answer, Record, lent};
use timing::minimize_timing_rows;
use written::notes_to_chart;

/// The main call.
pub fn main_agrees(record: &Record, stored: &Answer) -> bool {
    let mut text = lent::text();
    let mut densities = lent::densities();
    let mut beats = lent::beats();
    let mut work = lent::work();
    let mut notes = lent::notes();
    let answered = minimize_chart_count_rows_notes(
        record.text,
        record.lanes,
        &mut text,
        &mut densities,
        &mut beats,
        &mut work,
        &mut notes,
    );
    has_figures(answered, stored)
        && same_bytes(&text, stored.text)
        && same_numbers(&densities, stored.measures)
        && same_floats(&beats, stored.beats)
        && same_bytes(&notes, stored.notes)
        && all_zero(&work)
}

/// The kept-row call.
pub fn kept_agrees(record: &Record, stored: &Answer) -> bool {
    let mut text = lent::text();
    let mut densities = lent::densities();
    let mut work = lent::work();
    let answered = process_chart_kept(
        record.text,
        record.lanes,
        &mut text,
        &mut densities,
        &mut work,
    );
    has_figures(answered, stored)
        && same_bytes(&text, stored.text)
        && same_numbers(&densities, stored.measures)
        && all_zero(&work)
}

/// The call for timing rows.
pub fn timing_rows_agree(record: &Record, stored: &Answer) -> bool {
    let mut text = lent::text();
    let mut beats = lent::beats();
    let answered = minimize_timing_rows(record.text, record.lanes, &mut text, &mut beats);
    has_figures(answered, stored)
        && same_bytes(&text, stored.text)
        && same_floats(&beats, stored.beats)
}

/// The densities.
pub fn densities_agree(record: &Record, stored: &Answer) -> bool {
    let mut densities = lent::densities();
    let answered = measure_densities(record.text, record.lanes, &mut densities);
    has_figures(answered, stored) && same_numbers(&densities, stored.measures)
}

/// The spacing.
pub fn spacing_agrees(record: &Record, stored: &Answer) -> bool {
    let mut spacing = lent::spacing();
    let answered = equally_spaced_impl(record.text, record.lanes, &mut spacing);
    has_figures(answered, stored) && same_bytes(&spacing, stored.measures)
}

/// The last beat.
pub fn last_beat_agrees(record: &Record, stored: &Answer) -> bool {
    let answered = chart_last_beat_impl(record.text, record.lanes);
    has_figures(answered, stored)
}

/// The tally with every row judged.
pub fn judged_agrees(record: &Record, stored: &Answer) -> bool {
    let mut work = lent::work();
    let answered = process_rows_judgable(record.text, record.lanes, &mut work);
    has_figures(answered, stored) && all_zero(&work)
}

/// The tally with the record's flags.
pub fn flagged_agrees(record: &Record, stored: &Answer) -> bool {
    let mut work = lent::work();
    let answered = process_timing_rows(record.text, record.lanes, record.flags, &mut work);
    has_figures(answered, stored) && all_zero(&work)
}

/// The list of dropped heads.
pub fn dropped_agrees(record: &Record, stored: &Answer) -> bool {
    let mut text = lent::text();
    let mut list = lent::notes();
    let answered = dropped_holds(record.text, record.lanes, &mut text, &mut list);
    has_figures(answered, stored)
        && same_bytes(&text, stored.text)
        && same_bytes(&list, stored.notes)
}

/// The chart that is written for stored records and row counts, at most 2,049 of them.
pub fn written_agrees(record: &Record, stored: &Answer) -> bool {
    let (given, after) = stored.measures.as_chunks::<4>();
    let mut counts = [0; 2049];
    if given.len() > counts.len() {
        return false;
    }
    for (i, count) in given.iter().enumerate() {
        if i < counts.len() {
            counts[i] = u32::from_le_bytes(*count);
        }
    }
    let mut text = lent::text();
    let counts = &counts[..given.len()];
    let answered = notes_to_chart(stored.notes, record.lanes, counts, &mut text);
    after.is_empty() && has_figures(answered, stored) && same_bytes(&text, stored.text)
}

/// The trace that stands as the answer's text, set against the records that stand as its notes: 23 places, and zeros past them.
pub fn pressed_agrees(stored: &Answer) -> bool {
    press_trace(stored.notes, stored.text).is_ok_and(|presses| {
        let mut figures = [0; 32];
        figures[..23].copy_from_slice(&presses.places());
        same_figures(&figures, stored.figures)
    })
}

// Whether a call was accepted, with the figures that are stored.
fn has_figures<F: Figures<32>>(answered: Result<F, Refusal>, stored: &Answer) -> bool {
    answered.is_ok_and(|figures| same_figures(&figures.places(), stored.figures))
}
