// The answers that a sheet is made of: what the main call, the kept-row call, the judged tally of the minimised text and the spacing scan say of one
// accepted text.
#![tactic(auto)]

ghost use Rattle.std.specs.Prelude.{◌≡◌, [], ◌+◌, ◌-◌, ◌*◌, ◌/◌, ◌≤◌, length, take};
ghost use Rattle.definitions.specs.Sizes.{most_bytes};
ghost use Rattle.definitions.specs.Lists.{padded};
ghost use Rattle.definitions.specs.Lanes.{most_rows_in};
ghost use Rattle.definitions.specs.Figures.{minimised_text, densities as densities_of, spacings as spacings_of};
ghost use Rattle.definitions.specs.Beats.{f32, beats as beats_of};
ghost use Rattle.definitions.specs.Notes.{notes as notes_of};
ghost use Rattle.definitions.specs.Records.{records};
ghost use Rattle.sheet_answers.specs.Answers.{sheet_figures};
ghost use Rattle.definitions.specs.Judged.{judged_tally};

use definitions::{ArrowStats, KeptFigures, Lanes};
use sheet::SheetFigures;

// The judged tally of a minimised text. Its last byte is a newline, and the rows before it are read without it: so the text is no longer than the
// one that it was minimised from.
#[tactic(auto, unfolding(definitions::specs::Judged::judged_tally))]
fn judge_minimised(minimised: &[u8], lanes: Lanes, work: &mut [u16]) -> ArrowStats
    requires text_length { length minimised.now - 1 ≤ most_bytes }
    requires work_room { most_rows_in lanes.count (length minimised.now - 1) ≤ length work.old }
    ensures value { result
        ≡ judged_tally lanes.count (take (length minimised.now - 1) minimised.now) }
    ensures work_after { work.new ≡ padded 0 (length work.old) [] }
{
    let end = minimised.len().saturating_sub(1);
    judged::judge_accepted(&minimised[..end], lanes, None, work)
}

/// All answers of an accepted text, and zeros past each in the lent slices. The main call's serve the kept-row call too: their tallies are the same.
pub fn sheet_answers(
    data: &[u8],
    lanes: Lanes,
    text: &mut [u8],
    densities: &mut [u32],
    spacing: &mut [u8],
    beats: &mut [f32],
    work: &mut [u16],
    notes: &mut [u8],
) -> SheetFigures
    requires text_length { length «data».now ≤ most_bytes }
    requires text_room { length «data».now + 1 ≤ length text.old }
    requires densities_room { (length «data».now + 1) / 2 + 1 ≤ length densities.old }
    requires spacing_room { (length «data».now + 1) / 2 + 1 ≤ length spacing.old }
    requires beats_room { most_rows_in lanes.count (length «data».now) ≤ length beats.old }
    requires work_room { most_rows_in lanes.count (length «data».now) ≤ length work.old }
    requires notes_room { 10 * lanes.count * most_rows_in lanes.count (length «data».now)
        ≤ length notes.old }
    ensures value { result ≡ sheet_figures lanes.count «data».now }
    ensures text_after { text.new
        ≡ padded 0 (length text.old) (minimised_text lanes.count «data».now) }
    ensures densities_after { densities.new
        ≡ padded 0 (length densities.old) (densities_of lanes.count «data».now) }
    ensures spacing_after { spacing.new
        ≡ padded 0 (length spacing.old) (spacings_of lanes.count «data».now) }
    ensures beats_after { beats.new
        ≡ padded (f32 0) (length beats.old) (beats_of lanes.count «data».now) }
    ensures work_after { work.new ≡ padded 0 (length work.old) [] }
    ensures notes_after { notes.new
        ≡ padded 0 (length notes.old) (records (notes_of lanes.count «data».now)) }
{
    let chart = chart::chart_figures(data, lanes, text, densities, beats, work, notes);
    let judged = judge_minimised(&text[..chart.bytes], lanes, work);
    scans::spacing::fill_spacing(data, lanes, spacing);
    SheetFigures {
        chart,
        kept: KeptFigures {
            bytes: chart.bytes,
            measures: chart.measures,
            rows: chart.rows,
            stats: chart.stats,
        },
        judged,
    }
}
