// A chart's sheet from its text: refusals in order, all answers of the text, the form that was asked for, and zeros past each answer.
#![tactic(auto)]

ghost use Rattle.std.specs.Prelude.{◌≡◌, [], ◌+◌, ◌*◌, ◌/◌, ◌≤◌, length, take, OnOk};
ghost use Rattle.definitions.specs.Sizes.{most_bytes};
ghost use Rattle.definitions.specs.Lists.{padded};
ghost use Rattle.definitions.specs.Lanes.{most_rows_in};
ghost use Rattle.definitions.specs.Refusals.{leaves};
ghost use Rattle.definitions.specs.Figures.{minimised_text, densities as densities_of, spacings as spacings_of};
ghost use Rattle.definitions.specs.Beats.{f32, beats as beats_of};
ghost use Rattle.definitions.specs.Notes.{notes as notes_of};
ghost use Rattle.definitions.specs.Records.{records as records_of};
ghost use Rattle.page.specs.Prints.{Prints};
ghost use Rattle.chart_sheet.specs.Forms.{form_of, sheet_in_form};
ghost use Rattle.chart_sheet.specs.Entry.{most_sheet_bytes, short_sheet, other_form, places_of_sheet, sheet_answer};

use definitions::{Lanes, Refusal};
use figures::Figures;
use page::{Full, Page};
use sheet::{SheetFigures, print_card};
use sheet_answers::sheet_answers;
use sheet_json::print_json;
use sheet_print::print_columns;

// The form that was asked for, printed on a page.
#[tactic(auto, unfolding(crate::specs::Forms::form_of))]
fn print_form(
    page: &mut Page,
    form: usize,
    figures: &SheetFigures,
    densities: &[u32],
    spacing: &[u8],
    records: &[u8],
) -> Result<(), Full>
    requires densities_in_bounds { figures.now.chart.measures ≤ length densities.now }
    requires spacing_in_bounds { length densities.now ≤ length spacing.now }
    ensures { Prints page.old
        (form_of form figures.now densities.now spacing.now records.now) page.new result }
{
    match form {
        0 => print_card(page, &figures.chart, densities, spacing, records),
        1 => print_columns(page, figures, densities, spacing, records),
        _ => print_json(page, figures, densities, spacing, records),
    }
}

// The same from the first place of a slice that has room for it: how many bytes it has.
fn put_form(
    out: &mut [u8],
    form: usize,
    figures: &SheetFigures,
    densities: &[u32],
    spacing: &[u8],
    records: &[u8],
) -> usize
    requires sheet_room { length (form_of form figures.now densities.now spacing.now records.now)
        ≤ length out.old }
    requires densities_in_bounds { figures.now.chart.measures ≤ length densities.now }
    requires spacing_in_bounds { length densities.now ≤ length spacing.now }
    ensures value { result
        ≡ length (form_of form figures.now densities.now spacing.now records.now) }
    ensures within { result ≤ length out.new }
    ensures out_after { take result out.new
        ≡ form_of form figures.now densities.now spacing.now records.now }
{
    let mut page = Page::new(out);
    match print_form(&mut page, form, figures, densities, spacing, records) {
        Ok(()) => page.len(),
        Err(_) => unreachable!(),
    }
}

// The sheet of an accepted text; the figures have its bytes in place 7.
fn write_sheet(
    data: &[u8],
    lanes: Lanes,
    form: usize,
    text: &mut [u8],
    densities: &mut [u32],
    spacing: &mut [u8],
    beats: &mut [f32],
    work: &mut [u16],
    notes: &mut [u8],
    sheet: &mut [u8],
) -> [u64; 32]
    requires text_length { length «data».now ≤ most_bytes }
    requires text_room { length «data».now + 1 ≤ length text.old }
    requires densities_room { (length «data».now + 1) / 2 + 1 ≤ length densities.old }
    requires spacing_room { (length «data».now + 1) / 2 + 1 ≤ length spacing.old }
    requires beats_room { most_rows_in lanes.count (length «data».now) ≤ length beats.old }
    requires work_room { most_rows_in lanes.count (length «data».now) ≤ length work.old }
    requires notes_room { 10 * lanes.count * most_rows_in lanes.count (length «data».now)
        ≤ length notes.old }
    requires sheet_room { most_sheet_bytes (length «data».now) ≤ length sheet.old }
    requires form_known { form ≤ 2 }
    ensures value { result ≡ places_of_sheet form lanes.count «data».now }
    ensures text_after { text.new
        ≡ padded 0 (length text.old) (minimised_text lanes.count «data».now) }
    ensures densities_after { densities.new
        ≡ padded 0 (length densities.old) (densities_of lanes.count «data».now) }
    ensures spacing_after { spacing.new
        ≡ padded 0 (length spacing.old) (spacings_of lanes.count «data».now) }
    ensures beats_after { beats.new
        ≡ padded (f32 0) (length beats.old) (beats_of lanes.count «data».now) }
    ensures work_after { work.new ≡ padded 0 (length work.old) [] }
    ensures notes_after { notes.new
        ≡ padded 0 (length notes.old) (records_of (notes_of lanes.count «data».now)) }
    ensures sheet_after { sheet.new
        ≡ padded 0 (length sheet.old) (sheet_in_form form lanes.count «data».now) }
{
    let figures = sheet_answers(data, lanes, text, densities, spacing, beats, work, notes);
    let measures = figures.chart.measures;
    let end = figures.chart.notes * 10;
    let bytes = put_form(
        sheet,
        form,
        &figures,
        &densities[..measures],
        &spacing[..measures],
        &notes[..end],
    );
    slices::zero_past(sheet, bytes, 0);
    let mut places = figures.chart.places();
    places[7] = bytes as u64;
    places
}

// The sheet slice has room for every form of such a text.
#[tactic(auto, unfolding(crate::specs::Entry::short_sheet))]
fn room_for_sheet(len: usize, room: usize) -> Result<(), Refusal>
    requires text_length { len ≤ most_bytes }
    ensures value { result ≡ short_sheet len room }
    ensures ok { OnOk result (most_sheet_bytes len ≤ room) }
{
    if room < 42 * (len + 1) + 3000 {
        return Err(Refusal::ShortSheet);
    }
    Ok(())
}

// The form is one of the three.
#[tactic(auto, unfolding(crate::specs::Entry::other_form))]
fn form_known(form: usize) -> Result<(), Refusal>
    ensures value { result ≡ other_form form }
    ensures ok { OnOk result (form ≤ 2) }
{
    if 2 < form {
        return Err(Refusal::OtherForm);
    }
    Ok(())
}

/// The sheet of a chart, in bytes: form 0 is the card, 1 print, 2 JSON. The answer has the 32 figures. A refusal (12, 1 to 6, 19 or 20) is the
/// caller's mistake.
#[tactic(auto, unfolding(crate::specs::Entry::sheet_answer))]
pub fn chart_sheet(
    data: &[u8],
    lanes: usize,
    form: usize,
    text: &mut [u8],
    densities: &mut [u32],
    spacing: &mut [u8],
    beats: &mut [f32],
    work: &mut [u16],
    notes: &mut [u8],
    sheet: &mut [u8],
) -> Result<[u64; 32], Refusal>
    ensures value { result ≡ sheet_answer lanes form «data».now
        text.old densities.old spacing.old beats.old work.old notes.old sheet.old }
    ensures text_after { text.new
        ≡ leaves 0 result (minimised_text lanes «data».now) text.old }
    ensures densities_after { densities.new
        ≡ leaves 0 result (densities_of lanes «data».now) densities.old }
    ensures spacing_after { spacing.new
        ≡ leaves 0 result (spacings_of lanes «data».now) spacing.old }
    ensures beats_after { beats.new
        ≡ leaves (f32 0) result (beats_of lanes «data».now) beats.old }
    ensures work_after { work.new ≡ leaves 0 result [] work.old }
    ensures notes_after { notes.new
        ≡ leaves 0 result (records_of (notes_of lanes «data».now)) notes.old }
    ensures sheet_after { sheet.new
        ≡ leaves 0 result (sheet_in_form form lanes «data».now) sheet.old }
{
    let columns = Lanes::of_number(lanes)?.known();
    let len = data.len();
    refusals::text_fits(len)?;
    refusals::room_for_text(len, text.len())?;
    refusals::room_for_measures(len, densities.len())?;
    refusals::room_for_measures(len, spacing.len())?;
    refusals::room_for_beats(columns, len, beats.len())?;
    refusals::room_for_work(columns, len, work.len())?;
    refusals::room_for_notes(columns, len, notes.len())?;
    room_for_sheet(len, sheet.len())?;
    form_known(form)?;
    Ok(write_sheet(
        data, columns, form, text, densities, spacing, beats, work, notes, sheet,
    ))
}
