// The form `print` of a sheet, for a printout.
#![tactic(auto)]

ghost use Rattle.std.specs.Prelude.{◌≡◌, ◌≤◌, length};
ghost use Rattle.definitions.specs.Records.{note_of_record};
ghost use Rattle.page.specs.Prints.{Prints};
ghost use Rattle.sheet_print.specs.Print.{line_of_count, three, line_of_last_beat, print_heads, line_of_tally, lines_of_tally, head_of_tally, print_tallies, start_of_line, mark, entry_of_density, lines_of_densities, head_of_densities, word_of_held, line_of_held, held_line_of_record, lines_of_held, head_of_held, print_of};

use definitions::{ChartFigures, Kind, Note, Tail};
use note_records::{kind_number, read_note};
use page::{Full, Page};
use sheet::{FIELD_COUNT, Field, SheetFigures, fields_of};

// A name and a number in nine columns.
#[tactic(auto, using(page::proofs::Pages::keeps_then), unfolding(crate::specs::Print::line_of_count))]
fn count_line(page: &mut Page, name: &str, n: u64) -> Result<(), Full>
    ensures { Prints page.old (line_of_count name.now n) page.new result }
{
    page.text(name)?;
    page.aligned(n, 9)?;
    page.text("\n")?;
    Ok(())
}

// Three numbers in nine columns each.
#[tactic(auto, using(page::proofs::Pages::keeps_then), unfolding(crate::specs::Print::three))]
fn three_columns(page: &mut Page, a: u64, b: u64, c: u64) -> Result<(), Full>
    ensures { Prints page.old (three a b c) page.new result }
{
    page.aligned(a, 9)?;
    page.aligned(b, 9)?;
    page.aligned(c, 9)?;
    page.text("\n")?;
    Ok(())
}

// The last beat in whole beats and what is left in 48ths.
#[tactic(auto, using(page::proofs::Pages::keeps_then), unfolding(crate::specs::Print::line_of_last_beat))]
fn last_line(page: &mut Page, last: u64) -> Result<(), Full>
    ensures { Prints page.old (line_of_last_beat last) page.new result }
{
    page.text("last beat   ")?;
    page.aligned(last / 48, 9)?;
    page.text(" + ")?;
    page.number(last % 48)?;
    page.text("/48\n")?;
    Ok(())
}

#[tactic(auto, using(page::proofs::Pages::keeps_then), unfolding(crate::specs::Print::print_heads))]
fn head_lines(page: &mut Page, figures: &ChartFigures) -> Result<(), Full>
    ensures { Prints page.old (print_heads figures.now) page.new result }
{
    count_line(page, "measures    ", figures.measures as u64)?;
    count_line(page, "rows        ", figures.rows as u64)?;
    count_line(page, "notes       ", figures.notes as u64)?;
    last_line(page, figures.last_row)?;
    count_line(page, "in 48ths    ", figures.last_row)?;
    Ok(())
}

// A field of the three tallies.
#[tactic(auto, using(page::proofs::Pages::keeps_then), unfolding(crate::specs::Print::line_of_tally))]
fn tally_line(page: &mut Page, main: &Field, kept: &Field, judged: &Field) -> Result<(), Full>
    ensures { Prints page.old (line_of_tally main.now.0 main.now.1 kept.now.1 judged.now.1)
        page.new result }
{
    page.left_aligned(main.name(), 12)?;
    three_columns(page, main.count(), kept.count(), judged.count())?;
    Ok(())
}

#[tactic(auto, using(page::proofs::Listing::in_list), unfolding(crate::specs::Print::lines_of_tally, sheet::specs::Sheet::field_count))]
fn tally_lines(page: &mut Page, figures: &SheetFigures) -> Result<(), Full>
    ensures { Prints page.old (lines_of_tally figures.now) page.new result }
{
    let main = fields_of(&figures.chart.stats);
    let kept = fields_of(&figures.kept.stats);
    let judged = fields_of(&figures.judged);
    for i in 0..FIELD_COUNT {
        tally_line(page, &main[i], &kept[i], &judged[i])?;
    }
    Ok(())
}

#[tactic(auto, unfolding(crate::specs::Print::head_of_tally))]
fn tally_head(page: &mut Page) -> Result<(), Full>
    ensures { Prints page.old head_of_tally page.new result }
{
    page.text("\n                 main     kept   judged\n")
}

#[tactic(auto, using(page::proofs::Pages::keeps_then), unfolding(crate::specs::Print::print_tallies))]
fn tallies(page: &mut Page, figures: &SheetFigures) -> Result<(), Full>
    ensures { Prints page.old (print_tallies figures.now) page.new result }
{
    tally_head(page)?;
    tally_lines(page, figures)?;
    Ok(())
}

#[tactic(auto, unfolding(crate::specs::Print::head_of_densities))]
fn density_head(page: &mut Page) -> Result<(), Full>
    ensures { Prints page.old head_of_densities page.new result }
{
    page.text("\ndensities, 16 measures to a line; = equally spaced, - not")
}

// Where measure k begins a line, the end of the line before and its number.
fn line_start(page: &mut Page, k: u64) -> Result<(), Full>
    ensures { Prints page.old (start_of_line k) page.new result }
{
    if k % 16 == 0 {
        page.text("\n")?;
        page.aligned(k, 7)?;
        page.text(":")?;
    }
    Ok(())
}

fn spacing_mark(spaced: u64) -> u8
    ensures { result ≡ mark spaced }
{
    if spaced == 0 { b'-' } else { b'=' }
}

// A measure: its density and spacing.
#[tactic(auto, using(page::proofs::Pages::keeps_then), unfolding(crate::specs::Print::entry_of_density))]
fn density_entry(page: &mut Page, k: u64, density: u64, spaced: u64) -> Result<(), Full>
    ensures { Prints page.old (entry_of_density k density spaced) page.new result }
{
    line_start(page, k)?;
    page.aligned(density, 3)?;
    page.byte(spacing_mark(spaced))?;
    Ok(())
}

#[tactic(auto, using(page::proofs::Listing::in_list))]
fn density_lines(page: &mut Page, densities: &[u32], spacing: &[u8]) -> Result<(), Full>
    requires { length densities.now ≤ length spacing.now }
    ensures { Prints page.old (lines_of_densities densities.now spacing.now (length densities.now))
        page.new result }
{
    for k in 0..densities.len() {
        density_entry(page, k as u64, densities[k] as u64, spacing[k] as u64)?;
    }
    Ok(())
}

#[tactic(auto, unfolding(crate::specs::Print::head_of_held))]
fn held_head(page: &mut Page) -> Result<(), Full>
    ensures { Prints page.old head_of_held page.new result }
{
    page.text("\n\nholds and rolls\n          row   column     tail\n")
}

fn held_word(page: &mut Page, kind: Kind) -> Result<(), Full>
    ensures { Prints page.old (word_of_held kind) page.new result }
{
    if kind_number(kind) == 2 {
        page.text("roll")
    } else {
        page.text("hold")
    }
}

// A hold or roll: row, column and tail row. A note without a tail has no line.
fn held_line(page: &mut Page, note: Note) -> Result<(), Full>
    ensures { Prints page.old (line_of_held note note.tail) page.new result }
{
    match note.tail {
        Tail::Without => Ok(()),
        Tail::Row(tail) => {
            held_word(page, note.kind)?;
            three_columns(page, note.row as u64, note.column as u64, tail as u64)
        }
    }
}

// The line of a record; one that cannot be read has none.
fn held_record(page: &mut Page, records: &[u8], index: usize) -> Result<(), Full>
    ensures { Prints page.old (held_line_of_record (note_of_record records.now index))
        page.new result }
{
    match read_note(records, index) {
        Ok(note) => held_line(page, note),
        Err(_) => Ok(()),
    }
}

#[tactic(auto, using(page::proofs::Listing::in_list))]
fn held_lines(page: &mut Page, records: &[u8], count: usize) -> Result<(), Full>
    ensures { Prints page.old (lines_of_held records.now count) page.new result }
{
    for k in 0..count {
        held_record(page, records, k)?;
    }
    Ok(())
}

/// The whole form.
#[tactic(auto, using(page::proofs::Pages::keeps_then), unfolding(crate::specs::Print::print_of))]
pub fn print_columns(
    page: &mut Page,
    figures: &SheetFigures,
    densities: &[u32],
    spacing: &[u8],
    records: &[u8],
) -> Result<(), Full>
    requires { length densities.now ≤ length spacing.now }
    ensures { Prints page.old (print_of figures.now densities.now spacing.now records.now)
        page.new result }
{
    head_lines(page, &figures.chart)?;
    tallies(page, figures)?;
    density_head(page)?;
    density_lines(page, densities, spacing)?;
    held_head(page)?;
    held_lines(page, records, records.len() / 10)?;
    Ok(())
}
