// The lines that the program card prints on a page, and the figures and fields that every form of a sheet prints.
#![tactic(auto)]

ghost use Rattle.std.specs.Prelude.{◌≤◌, length};
ghost use Rattle.definitions.specs.Records.{note_of_record};
ghost use Rattle.sheet.specs.Sheet.{line_of_figure, line_of_measure, field_of_tail, line_of_note, line_of_record, lines_of_measures, lines_of_records, lines_of_head, sheet_of};
ghost use Rattle.page.specs.Prints.{Prints};

mod fields;

use definitions::{ArrowStats, ChartFigures, KeptFigures, Note, Tail};
pub use fields::{FIELD_COUNT, Field, fields_of};
use note_records::{kind_number, read_note};
use page::{Full, Page};

/// What the forms of a sheet print of a text: the main call's answer, the kept-row call's, and the judged tally of the minimised text.
#[derive(Clone, Copy)]
pub struct SheetFigures {
    pub chart: ChartFigures,
    pub kept: KeptFigures,
    pub judged: ArrowStats,
}

// A name, with its blank, and a number.
#[tactic(auto, using(page::proofs::Pages::keeps_then), unfolding(crate::specs::Sheet::line_of_figure))]
fn figure_line(page: &mut Page, name: &str, n: u64) -> Result<(), Full>
    ensures { Prints page.old (line_of_figure name.now n) page.new result }
{
    page.text(name)?;
    page.field(n, b'\n')?;
    Ok(())
}

// The seven figures at the head.
#[tactic(auto, unfolding(crate::specs::Sheet::lines_of_head))]
fn head_lines(page: &mut Page, figures: &ChartFigures) -> Result<(), Full>
    ensures { Prints page.old (lines_of_head figures.now) page.new result }
{
    figure_line(page, "measures ", figures.measures as u64)?;
    figure_line(page, "rows ", figures.rows as u64)?;
    figure_line(page, "arrows ", figures.stats.total_arrows as u64)?;
    figure_line(page, "steps ", figures.stats.total_steps as u64)?;
    figure_line(page, "keys ", figures.stats.keysounds as u64)?;
    figure_line(page, "notes ", figures.notes as u64)?;
    figure_line(page, "last ", figures.last_row)?;
    Ok(())
}

// A measure: its number, density and spacing.
#[tactic(auto, using(page::proofs::Pages::keeps_then), unfolding(crate::specs::Sheet::line_of_measure))]
fn measure_line(page: &mut Page, m: u64, density: u64, spaced: u64) -> Result<(), Full>
    ensures { Prints page.old (line_of_measure m density spaced) page.new result }
{
    page.text("m ")?;
    page.field(m, b' ')?;
    page.field(density, b' ')?;
    page.field(spaced, b'\n')?;
    Ok(())
}

// The row of a tail, or `-`.
fn tail_field(page: &mut Page, tail: Tail) -> Result<(), Full>
    ensures { Prints page.old (field_of_tail tail) page.new result }
{
    match tail {
        Tail::Without => page.text("-\n"),
        Tail::Row(row) => page.field(row as u64, b'\n'),
    }
}

// A note: its row, column, kind and tail.
#[tactic(auto, unfolding(crate::specs::Sheet::line_of_note))]
fn note_line(page: &mut Page, note: Note) -> Result<(), Full>
    ensures { Prints page.old (line_of_note note) page.new result }
{
    page.text("n ")?;
    page.field(note.row as u64, b' ')?;
    page.field(note.column as u64, b' ')?;
    page.field(kind_number(note.kind) as u64, b' ')?;
    tail_field(page, note.tail)?;
    Ok(())
}

// The line of a record; one that cannot be read has none.
fn record_line(page: &mut Page, records: &[u8], index: usize) -> Result<(), Full>
    ensures { Prints page.old (line_of_record (note_of_record records.now index)) page.new result }
{
    match read_note(records, index) {
        Ok(note) => note_line(page, note),
        Err(_) => Ok(()),
    }
}

#[tactic(auto, using(page::proofs::Listing::in_list))]
fn measure_lines(
    page: &mut Page,
    densities: &[u32],
    spacing: &[u8],
    count: usize,
) -> Result<(), Full>
    requires densities_in_bounds { count ≤ length densities.now }
    requires spacing_in_bounds { count ≤ length spacing.now }
    ensures { Prints page.old (lines_of_measures densities.now spacing.now count) page.new result }
{
    for k in 0..count {
        measure_line(page, k as u64, densities[k] as u64, spacing[k] as u64)?;
    }
    Ok(())
}

#[tactic(auto, using(page::proofs::Listing::in_list))]
fn record_lines(page: &mut Page, records: &[u8], count: usize) -> Result<(), Full>
    ensures { Prints page.old (lines_of_records records.now count) page.new result }
{
    for k in 0..count {
        record_line(page, records, k)?;
    }
    Ok(())
}

/// The whole card.
#[tactic(auto, using(page::proofs::Pages::keeps_then), unfolding(crate::specs::Sheet::sheet_of))]
pub fn print_card(
    page: &mut Page,
    figures: &ChartFigures,
    densities: &[u32],
    spacing: &[u8],
    records: &[u8],
) -> Result<(), Full>
    requires densities_in_bounds { figures.now.measures ≤ length densities.now }
    requires spacing_in_bounds { figures.now.measures ≤ length spacing.now }
    ensures { Prints page.old (sheet_of figures.now densities.now spacing.now records.now)
        page.new result }
{
    head_lines(page, figures)?;
    measure_lines(page, densities, spacing, figures.measures)?;
    record_lines(page, records, figures.notes)?;
    Ok(())
}
