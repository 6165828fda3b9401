// The form `json` of a sheet: one object on one line.
#![tactic(auto)]

ghost use Rattle.std.specs.Prelude.{length};
ghost use Rattle.definitions.specs.Records.{note_of_record};
ghost use Rattle.page.specs.Prints.{Prints};
ghost use Rattle.sheet_json.specs.Json.{separator, named, figure, last_beat_of, json_heads, member, members, json_tallies, entry_of_density, entries_of_densities, truth, entry_of_spacing, entries_of_spacings, value_of_tail, value_of_note, value_of_record, entry_of_record, entries_of_records, json_lists, json_of};

use definitions::{ArrowStats, ChartFigures, Note, Tail};
use note_records::{kind_number, read_note};
use page::{Full, Page};
use sheet::{FIELD_COUNT, SheetFigures, fields_of};

// Between two entries.
fn separator(page: &mut Page, k: usize) -> Result<(), Full>
    ensures { Prints page.old (separator k) page.new result }
{
    if k != 0 {
        page.text(",")?;
    }
    Ok(())
}

// A name and a number.
#[tactic(auto, using(page::proofs::Pages::keeps_then), unfolding(crate::specs::Json::named))]
fn named(page: &mut Page, name: &str, n: u64) -> Result<(), Full>
    ensures { Prints page.old (named name.now n) page.new result }
{
    page.text("\"")?;
    page.text(name)?;
    page.text("\":")?;
    page.number(n)?;
    Ok(())
}

// After another.
#[tactic(auto, using(page::proofs::Pages::keeps_then), unfolding(crate::specs::Json::figure))]
fn figure(page: &mut Page, name: &str, n: u64) -> Result<(), Full>
    ensures { Prints page.old (figure name.now n) page.new result }
{
    page.text(",")?;
    named(page, name, n)?;
    Ok(())
}

// The last beat in whole beats, what is left in 48ths, and all in 48ths.
#[tactic(auto, using(page::proofs::Pages::keeps_then), unfolding(crate::specs::Json::last_beat_of))]
fn last_beat(page: &mut Page, last: u64) -> Result<(), Full>
    ensures { Prints page.old (last_beat_of last) page.new result }
{
    page.text(",\"last_beat\":{")?;
    named(page, "beats", last / 48)?;
    figure(page, "over_48", last % 48)?;
    figure(page, "in_48ths", last)?;
    Ok(())
}

#[tactic(auto, using(page::proofs::Pages::keeps_then), unfolding(crate::specs::Json::json_heads))]
fn heads(page: &mut Page, figures: &ChartFigures) -> Result<(), Full>
    ensures { Prints page.old (json_heads figures.now) page.new result }
{
    page.text("{")?;
    named(page, "measures", figures.measures as u64)?;
    figure(page, "rows", figures.rows as u64)?;
    figure(page, "notes", figures.notes as u64)?;
    last_beat(page, figures.last_row)?;
    Ok(())
}

// Field i of a tally.
#[tactic(auto, using(page::proofs::Pages::keeps_then), unfolding(crate::specs::Json::member))]
fn member(page: &mut Page, i: usize, name: &str, count: u64) -> Result<(), Full>
    ensures { Prints page.old (member i name.now count) page.new result }
{
    separator(page, i)?;
    named(page, name, count)?;
    Ok(())
}

#[tactic(auto, using(page::proofs::Listing::in_list), unfolding(crate::specs::Json::members, sheet::specs::Sheet::field_count))]
fn members(page: &mut Page, stats: &ArrowStats) -> Result<(), Full>
    ensures { Prints page.old (members stats.now) page.new result }
{
    let fields = fields_of(stats);
    for i in 0..FIELD_COUNT {
        let field = &fields[i];
        member(page, i, field.name(), field.count())?;
    }
    Ok(())
}

// The three tallies.
#[tactic(auto, using(page::proofs::Pages::keeps_then), unfolding(crate::specs::Json::json_tallies))]
fn tallies(page: &mut Page, figures: &SheetFigures) -> Result<(), Full>
    ensures { Prints page.old (json_tallies figures.now) page.new result }
{
    page.text("},\"main\":{")?;
    members(page, &figures.chart.stats)?;
    page.text("},\"kept\":{")?;
    members(page, &figures.kept.stats)?;
    page.text("},\"judged\":{")?;
    members(page, &figures.judged)?;
    Ok(())
}

#[tactic(auto, using(page::proofs::Pages::keeps_then), unfolding(crate::specs::Json::entry_of_density))]
fn density_entry(page: &mut Page, k: usize, density: u64) -> Result<(), Full>
    ensures { Prints page.old (entry_of_density k density) page.new result }
{
    separator(page, k)?;
    page.number(density)?;
    Ok(())
}

#[tactic(auto, using(page::proofs::Listing::in_list))]
fn density_entries(page: &mut Page, densities: &[u32]) -> Result<(), Full>
    ensures { Prints page.old (entries_of_densities densities.now (length densities.now))
        page.new result }
{
    for k in 0..densities.len() {
        density_entry(page, k, densities[k] as u64)?;
    }
    Ok(())
}

fn truth(page: &mut Page, spaced: u64) -> Result<(), Full>
    ensures { Prints page.old (truth spaced) page.new result }
{
    if spaced == 0 {
        page.text("false")
    } else {
        page.text("true")
    }
}

#[tactic(auto, using(page::proofs::Pages::keeps_then), unfolding(crate::specs::Json::entry_of_spacing))]
fn spacing_entry(page: &mut Page, k: usize, spaced: u64) -> Result<(), Full>
    ensures { Prints page.old (entry_of_spacing k spaced) page.new result }
{
    separator(page, k)?;
    truth(page, spaced)?;
    Ok(())
}

#[tactic(auto, using(page::proofs::Listing::in_list))]
fn spacing_entries(page: &mut Page, spacing: &[u8]) -> Result<(), Full>
    ensures { Prints page.old (entries_of_spacings spacing.now (length spacing.now))
        page.new result }
{
    for k in 0..spacing.len() {
        spacing_entry(page, k, spacing[k] as u64)?;
    }
    Ok(())
}

// A tail's row, or null.
fn tail_value(page: &mut Page, tail: Tail) -> Result<(), Full>
    ensures { Prints page.old (value_of_tail tail) page.new result }
{
    match tail {
        Tail::Without => page.text("null"),
        Tail::Row(row) => page.number(row as u64),
    }
}

// Row, column, kind and tail.
#[tactic(auto, using(page::proofs::Pages::keeps_then), unfolding(crate::specs::Json::value_of_note))]
fn note_value(page: &mut Page, note: Note) -> Result<(), Full>
    ensures { Prints page.old (value_of_note note) page.new result }
{
    page.text("[")?;
    page.field(note.row as u64, b',')?;
    page.field(note.column as u64, b',')?;
    page.field(kind_number(note.kind) as u64, b',')?;
    tail_value(page, note.tail)?;
    page.text("]")?;
    Ok(())
}

// A record; one that cannot be read is null.
fn record_value(page: &mut Page, records: &[u8], index: usize) -> Result<(), Full>
    ensures { Prints page.old (value_of_record (note_of_record records.now index)) page.new result }
{
    match read_note(records, index) {
        Ok(note) => note_value(page, note),
        Err(_) => page.text("null"),
    }
}

#[tactic(auto, using(page::proofs::Pages::keeps_then), unfolding(crate::specs::Json::entry_of_record))]
fn record_entry(page: &mut Page, records: &[u8], index: usize) -> Result<(), Full>
    ensures { Prints page.old (entry_of_record index (note_of_record records.now index))
        page.new result }
{
    separator(page, index)?;
    record_value(page, records, index)?;
    Ok(())
}

#[tactic(auto, using(page::proofs::Listing::in_list))]
fn record_entries(page: &mut Page, records: &[u8], count: usize) -> Result<(), Full>
    ensures { Prints page.old (entries_of_records records.now count) page.new result }
{
    for k in 0..count {
        record_entry(page, records, k)?;
    }
    Ok(())
}

// The three lists, and the end of the object.
#[tactic(auto, using(page::proofs::Pages::keeps_then), unfolding(crate::specs::Json::json_lists))]
fn lists(page: &mut Page, densities: &[u32], spacing: &[u8], records: &[u8]) -> Result<(), Full>
    ensures { Prints page.old (json_lists densities.now spacing.now records.now) page.new result }
{
    page.text("},\"densities\":[")?;
    density_entries(page, densities)?;
    page.text("],\"equally_spaced\":[")?;
    spacing_entries(page, spacing)?;
    page.text("],\"note_records\":[")?;
    record_entries(page, records, records.len() / 10)?;
    page.text("]}")?;
    Ok(())
}

/// The whole form.
#[tactic(auto, using(page::proofs::Pages::keeps_then), unfolding(crate::specs::Json::json_of))]
pub fn print_json(
    page: &mut Page,
    figures: &SheetFigures,
    densities: &[u32],
    spacing: &[u8],
    records: &[u8],
) -> Result<(), Full>
    ensures { Prints page.old (json_of figures.now densities.now spacing.now records.now)
        page.new result }
{
    heads(page, &figures.chart)?;
    tallies(page, figures)?;
    lists(page, densities, spacing, records)?;
    Ok(())
}
