// The entries for callers in Rust and C, each thin over the proved call of the same work: Specification, Calls. "What a call is lent comes in the
// order of this table." Specification, Contracts: "An entry's contract says, for every input, all of its answer and all that each slice holds after
// it, refused calls too." "No entry asks anything of its caller." `lanes` is the lane count; another number than 4,
// 5, 6, 8 and 10 is refused with 12, before anything else is looked at. An entry returns 0 for accepted, else the number of a refusal, and then it has
// written nothing; 1 to 6, 19 and 20 are mistakes of whoever wires up the call, 12 of whoever gives the lane number. After an accepted call zeros follow
// each answer in its slice. Specification, Figures, has the places of `figures`, and Slices those of `note` and `chart`.
#![tactic(auto)]

ghost use Rattle.std.specs.Prelude.{◌≡◌, []};
ghost use Rattle.definitions.specs.Refusals.{number_told, replaces};
ghost use Rattle.definitions.specs.Figures.{minimised_text, densities as densities_of, spacings as spacings_of};
ghost use Rattle.definitions.specs.Beats.{f32, beats as beats_of};
ghost use Rattle.definitions.specs.Notes.{notes as notes_of};
ghost use Rattle.definitions.specs.Records.{records as records_of, note_of_record};
ghost use Rattle.definitions.specs.Dropped.{dropped_heads, dropped_records};
ghost use Rattle.definitions.specs.Written.{written_text, notes_in};
ghost use Rattle.definitions.specs.TimingRows.{timing_rows};
ghost use Rattle.definitions.specs.Entries.{measures_answer, places_of_measures, last_answer, places_of_last, main_answer, places_of_chart, judged_answer, places_of_judged, flagged_answer, kept_answer, places_of_kept, dropped_answer, places_of_dropped, written_answer, places_of_written, timing_answer, places_of_timing, figures_of_note};
ghost use Rattle.definitions.specs.Presses.{press_answer};
ghost use Rattle.definitions.specs.SmFile.{sm_answer, places_of_part};
ghost use Rattle.chart_sheet.specs.Forms.{sheet_in_form};
ghost use Rattle.chart_sheet.specs.Entry.{sheet_answer};
ghost use Rattle.padcheck.specs.Told.{leaves_by};

use figures::{sm_chart_places, tell};
use note_records::read_note;
use presses::press_trace;

/// The main call, the Rust's `minimize_chart_count_rows_notes`: minimised text in bytes, densities in steps a measure, row beats, note records of ten
/// bytes each, and in the figures the last beat and the corrected tally. Refusals: 12, 1 to 6.
#[unsafe(no_mangle)]
pub extern "C" fn padcheck_minimize_chart_count_rows_notes(
    data: &[u8],
    lanes: usize,
    text: &mut [u8],
    densities: &mut [u32],
    beats: &mut [f32],
    work: &mut [u16],
    notes: &mut [u8],
    figures: &mut [u64; 32],
) -> u32
    ensures value { result ≡ number_told (main_answer lanes «data».now
        text.old densities.old beats.old work.old notes.old) }
    ensures text_after { text.new
        ≡ leaves_by 0 result (minimised_text lanes «data».now) text.old }
    ensures densities_after { densities.new
        ≡ leaves_by 0 result (densities_of lanes «data».now) densities.old }
    ensures beats_after { beats.new
        ≡ leaves_by (f32 0) result (beats_of lanes «data».now) beats.old }
    ensures work_after { work.new ≡ leaves_by 0 result [] work.old }
    ensures notes_after { notes.new
        ≡ leaves_by 0 result (records_of (notes_of lanes «data».now)) notes.old }
    ensures figures_after { figures.new ≡ replaces (main_answer lanes «data».now
        text.old densities.old beats.old work.old notes.old) places_of_chart figures.old }
{
    let answer = chart::minimize_chart_count_rows_notes(
        data, lanes, text, densities, beats, work, notes,
    );
    tell(answer, figures)
}

/// The kept-row call, the Rust's `process_chart_in_impl` with its rows kept: minimised text, densities, and the tally corrected over the pass's own
/// rows. Refusals: 12, 1, 2, 3 and 5.
#[unsafe(no_mangle)]
pub extern "C" fn padcheck_process_chart_kept(
    data: &[u8],
    lanes: usize,
    text: &mut [u8],
    densities: &mut [u32],
    work: &mut [u16],
    figures: &mut [u64; 32],
) -> u32
    ensures value { result ≡ number_told (kept_answer lanes «data».now
        text.old densities.old work.old) }
    ensures text_after { text.new
        ≡ leaves_by 0 result (minimised_text lanes «data».now) text.old }
    ensures densities_after { densities.new
        ≡ leaves_by 0 result (densities_of lanes «data».now) densities.old }
    ensures work_after { work.new ≡ leaves_by 0 result [] work.old }
    ensures figures_after { figures.new
        ≡ replaces (kept_answer lanes «data».now text.old densities.old work.old)
        places_of_kept figures.old }
{
    let answer = kept::process_chart_kept(data, lanes, text, densities, work);
    tell(answer, figures)
}

/// The heads that have no note: minimised text, and a record of ten bytes for each 2 or 4 of its rows that is dropped, its row, the row that dropped it
/// or 4,294,967,295, its column, and the reason: 0 another head, 1 another cell, 2 the chart's end. Refusals: 12, 1, 2 and 6, the last of the list.
#[unsafe(no_mangle)]
pub extern "C" fn padcheck_dropped_holds(
    data: &[u8],
    lanes: usize,
    text: &mut [u8],
    list: &mut [u8],
    figures: &mut [u64; 32],
) -> u32
    ensures value { result ≡ number_told (dropped_answer lanes «data».now text.old list.old) }
    ensures text_after { text.new
        ≡ leaves_by 0 result (minimised_text lanes «data».now) text.old }
    ensures list_after { list.new ≡ leaves_by 0 result
        (dropped_records (dropped_heads lanes «data».now)) list.old }
    ensures figures_after { figures.new
        ≡ replaces (dropped_answer lanes «data».now text.old list.old)
        places_of_dropped figures.old }
{
    let answer = dropped::dropped_holds(data, lanes, text, list);
    tell(answer, figures)
}

/// From notes back to a chart: the text of note records at so many lanes with a row count for each measure. Refusals: 12; 1, of the text to be
/// written; 7 and 8, of whoever stores note records; 13 and 14, of whoever edits the notes; 15, of whoever counts the rows; 2, of a slice that is
/// shorter than the text.
#[unsafe(no_mangle)]
pub extern "C" fn padcheck_notes_to_chart(
    records: &[u8],
    lanes: usize,
    counts: &[u32],
    text: &mut [u8],
    figures: &mut [u64; 32],
) -> u32
    ensures value { result
        ≡ number_told (written_answer lanes records.now counts.now text.old) }
    ensures text_after { text.new ≡ leaves_by 0 result
        (written_text lanes (notes_in records.now) counts.now) text.old }
    ensures figures_after { figures.new
        ≡ replaces (written_answer lanes records.now counts.now text.old)
        places_of_written figures.old }
{
    let answer = written::notes_to_chart(records, lanes, counts, text);
    tell(answer, figures)
}

/// The Rust's `minimize_timing_rows`: minimised rows, L bytes each, back to back in `text`, their beats, and whether any has a 2 or 4. Refusals: 12, 1,
/// 2 and 4.
#[unsafe(no_mangle)]
pub extern "C" fn padcheck_minimize_timing_rows(
    data: &[u8],
    lanes: usize,
    text: &mut [u8],
    beats: &mut [f32],
    figures: &mut [u64; 32],
) -> u32
    ensures value { result ≡ number_told (timing_answer lanes «data».now text.old beats.old) }
    ensures text_after { text.new
        ≡ leaves_by 0 result (timing_rows lanes «data».now) text.old }
    ensures beats_after { beats.new
        ≡ leaves_by (f32 0) result (beats_of lanes «data».now) beats.old }
    ensures figures_after { figures.new
        ≡ replaces (timing_answer lanes «data».now text.old beats.old)
        places_of_timing figures.old }
{
    let answer = timing::minimize_timing_rows(data, lanes, text, beats);
    tell(answer, figures)
}

/// The Rust's `measure_densities`: for each measure how many of its minimised rows are steps. Refusals: 12, 1 and 3.
#[unsafe(no_mangle)]
pub extern "C" fn padcheck_measure_densities(
    data: &[u8],
    lanes: usize,
    densities: &mut [u32],
    figures: &mut [u64; 32],
) -> u32
    ensures value { result ≡ number_told (measures_answer lanes «data».now densities.old) }
    ensures densities_after { densities.new
        ≡ leaves_by 0 result (densities_of lanes «data».now) densities.old }
    ensures figures_after { figures.new
        ≡ replaces (measures_answer lanes «data».now densities.old) places_of_measures figures.old }
{
    let answer = scans::densities::measure_densities(data, lanes, densities);
    tell(answer, figures)
}

/// The Rust's `equally_spaced_impl`: for each measure 1 where it has no rows or each of its minimised rows is a step, else 0. Refusals: 12, 1 and 3.
#[unsafe(no_mangle)]
pub extern "C" fn padcheck_equally_spaced(
    data: &[u8],
    lanes: usize,
    spacing: &mut [u8],
    figures: &mut [u64; 32],
) -> u32
    ensures value { result ≡ number_told (measures_answer lanes «data».now spacing.old) }
    ensures spacing_after { spacing.new
        ≡ leaves_by 0 result (spacings_of lanes «data».now) spacing.old }
    ensures figures_after { figures.new
        ≡ replaces (measures_answer lanes «data».now spacing.old) places_of_measures figures.old }
{
    let answer = scans::spacing::equally_spaced_impl(data, lanes, spacing);
    tell(answer, figures)
}

/// The Rust's `chart_last_beat_impl`: the beat of the last object row, as the bits of an f64 and in 48ths of a beat. Refusals: 12 and 1.
#[unsafe(no_mangle)]
pub extern "C" fn padcheck_chart_last_beat(
    data: &[u8],
    lanes: usize,
    figures: &mut [u64; 32],
) -> u32
    ensures value { result ≡ number_told (last_answer lanes «data».now) }
    ensures figures_after { figures.new
        ≡ replaces (last_answer lanes «data».now) places_of_last figures.old }
{
    let answer = scans::last_beat::chart_last_beat_impl(data, lanes);
    tell(answer, figures)
}

/// The Rust's `process_rows_judgable`: the tally of minimised text with every row judged, for which no flags are lent. Refusals: 12, 1 and 5.
#[unsafe(no_mangle)]
pub extern "C" fn padcheck_process_rows_judgable(
    data: &[u8],
    lanes: usize,
    work: &mut [u16],
    figures: &mut [u64; 32],
) -> u32
    ensures value { result ≡ number_told (judged_answer lanes «data».now work.old) }
    ensures work_after { work.new ≡ leaves_by 0 result [] work.old }
    ensures figures_after { figures.new
        ≡ replaces (judged_answer lanes «data».now work.old) places_of_judged figures.old }
{
    let answer = judged::process_rows_judgable(data, lanes, work);
    tell(answer, figures)
}

/// The Rust's `process_timing_rows` with a flag byte a row in place of its timing data: 0 unjudged, else judged, and unjudged where there is no
/// flag, so without flags every row is. Refusals: 12, 1 and 5.
#[unsafe(no_mangle)]
pub extern "C" fn padcheck_process_timing_rows(
    data: &[u8],
    lanes: usize,
    flags: &[u8],
    work: &mut [u16],
    figures: &mut [u64; 32],
) -> u32
    ensures value { result ≡ number_told (flagged_answer lanes «data».now work.old flags.now) }
    ensures work_after { work.new ≡ leaves_by 0 result [] work.old }
    ensures figures_after { figures.new
        ≡ replaces (flagged_answer lanes «data».now work.old flags.now)
        places_of_judged figures.old }
{
    let answer = judged::process_timing_rows(data, lanes, flags, work);
    tell(answer, figures)
}

/// Note record number `index`, counted from 0: row, tail row or 4,294,967,295, column and kind. Refusals: 7 and 8, mistakes of whoever stores note
/// records.
#[unsafe(no_mangle)]
pub extern "C" fn padcheck_read_note(records: &[u8], index: usize, note: &mut [u64; 4]) -> u32
    ensures value { result ≡ number_told (note_of_record records.now index) }
    ensures note_after { note.new
        ≡ replaces (note_of_record records.now index) figures_of_note note.old }
{
    let answer = read_note(records, index);
    tell(answer, note)
}

/// A pad trace set against note records: hits, strays and misses, then the hits of the columns 0 to 9 and the misses of each. Refusals in this order: 7 and
/// 8, mistakes of whoever stores note records, 13 of whoever edits them, and 16 of whoever records the trace.
#[unsafe(no_mangle)]
pub extern "C" fn padcheck_press_trace(records: &[u8], trace: &[u8], presses: &mut [u64; 23]) -> u32
    ensures value { result ≡ number_told (press_answer records.now trace.now) }
    ensures presses_after { presses.new
        ≡ replaces (press_answer records.now trace.now) (λ f. f) presses.old }
{
    let answer = press_trace(records, trace);
    tell(answer, presses)
}

/// Chart number `k`, counted from 0, of an SM file: lane count, and the place and length of its note data in bytes. Refusals in this order: 1, 11, 9
/// and 10; 9 and 10 are mistakes of the file's author, 11 of whoever asks.
#[unsafe(no_mangle)]
pub extern "C" fn padcheck_sm_chart(file: &[u8], k: usize, chart: &mut [u64; 3]) -> u32
    ensures value { result ≡ number_told (sm_answer file.now k) }
    ensures chart_after { chart.new ≡ replaces (sm_answer file.now k) places_of_part chart.old }
{
    match files::sm::sm_chart(file, k) {
        Err(refusal) => refusal.number(),
        Ok(found) => {
            *chart = sm_chart_places(found.lanes, found.start, found.data.len());
            0
        }
    }
}

/// The sheet of a chart as bytes of ASCII, in form 0 (the card), 1 (print) or 2 (JSON), and all answers that it is made of. Refusals: 12, 1 to 6, 19
/// and 20, where 3 is of the densities or the spacing.
#[unsafe(no_mangle)]
pub extern "C" fn padcheck_chart_sheet(
    data: &[u8],
    lanes: usize,
    form: usize,
    text: &mut [u8],
    densities: &mut [u32],
    spacing: &mut [u8],
    beats: &mut [f32],
    work: &mut [u16],
    notes: &mut [u8],
    sheet: &mut [u8],
    figures: &mut [u64; 32],
) -> u32
    ensures value { result ≡ number_told (sheet_answer lanes form «data».now
        text.old densities.old spacing.old beats.old work.old notes.old sheet.old) }
    ensures text_after { text.new
        ≡ leaves_by 0 result (minimised_text lanes «data».now) text.old }
    ensures densities_after { densities.new
        ≡ leaves_by 0 result (densities_of lanes «data».now) densities.old }
    ensures spacing_after { spacing.new
        ≡ leaves_by 0 result (spacings_of lanes «data».now) spacing.old }
    ensures beats_after { beats.new
        ≡ leaves_by (f32 0) result (beats_of lanes «data».now) beats.old }
    ensures work_after { work.new ≡ leaves_by 0 result [] work.old }
    ensures notes_after { notes.new
        ≡ leaves_by 0 result (records_of (notes_of lanes «data».now)) notes.old }
    ensures sheet_after { sheet.new
        ≡ leaves_by 0 result (sheet_in_form form lanes «data».now) sheet.old }
    ensures figures_after { figures.new ≡ replaces (sheet_answer lanes form «data».now
        text.old densities.old spacing.old beats.old work.old notes.old sheet.old)
        (λ f. f) figures.old }
{
    let answer = chart_sheet::chart_sheet(
        data, lanes, form, text, densities, spacing, beats, work, notes, sheet,
    );
    tell(answer, figures)
}
