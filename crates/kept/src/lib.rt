// The kept-row call: minimised text, densities and tally of a whole text.
#![tactic(auto)]

ghost use Rattle.std.specs.Prelude.{◌≡◌, [], ◌+◌, ◌/◌, ◌≤◌, length};
ghost use Rattle.definitions.specs.Sizes.{most_bytes};
ghost use Rattle.definitions.specs.Lists.{padded};
ghost use Rattle.definitions.specs.Lanes.{most_rows_in};
ghost use Rattle.definitions.specs.Refusals.{leaves};
ghost use Rattle.definitions.specs.Figures.{minimised_text, densities as densities_of};
ghost use Rattle.definitions.specs.Entries.{figures_of_kept, kept_answer};

use definitions::{KeptFigures, Lanes, Refusal};

/// The kept-row call where it is accepted: the pass, the tally corrected over its own rows, as the text read back has them, and zeros past each answer.
pub fn keep_figures(
    data: &[u8],
    lanes: Lanes,
    text: &mut [u8],
    densities: &mut [u32],
    work: &mut [u16],
) -> KeptFigures
    requires text_length { length «data».now ≤ most_bytes }
    requires text_room { length «data».now + 1 ≤ length text.old }
    requires densities_room { (length «data».now + 1) / 2 + 1 ≤ length densities.old }
    requires work_room { most_rows_in lanes.count (length «data».now) ≤ length work.old }
    ensures value { result ≡ figures_of_kept lanes.count «data».now }
    ensures text_after { text.new
        ≡ padded 0 (length text.old) (minimised_text lanes.count «data».now) }
    ensures densities_after { densities.new
        ≡ padded 0 (length densities.old) (densities_of lanes.count «data».now) }
    ensures work_after { work.new ≡ padded 0 (length work.old) [] }
{
    let kept = kept_pass::keep_chart(data, lanes, text, densities);
    let stats = corrected_tally::corrected_stats(
        kept.counting.stats,
        kept.counting.phantoms,
        &text[0..kept.bytes],
        lanes,
        work,
    );
    slices::zero_past(text, kept.bytes, 0);
    slices::zero_past(densities, kept.measures, 0);
    KeptFigures {
        bytes: kept.bytes,
        measures: kept.measures,
        rows: kept.counting.rows,
        stats,
    }
}

/// The Rust's `process_chart_in_impl` with its rows kept: minimised text in bytes, densities in steps a measure, and the tally corrected over the pass's
/// own rows. A refusal (12, 1, 2, 3 or 5) is the caller's mistake.
#[tactic(auto, unfolding(definitions::specs::Entries::kept_answer))]
pub fn process_chart_kept(
    data: &[u8],
    lanes: usize,
    text: &mut [u8],
    densities: &mut [u32],
    work: &mut [u16],
) -> Result<KeptFigures, Refusal>
    ensures value { result ≡ kept_answer lanes «data».now text.old densities.old work.old }
    ensures text_after { text.new
        ≡ leaves 0 result (minimised_text lanes «data».now) text.old }
    ensures densities_after { densities.new
        ≡ leaves 0 result (densities_of lanes «data».now) densities.old }
    ensures work_after { work.new ≡ leaves 0 result [] work.old }
{
    let columns = Lanes::of_number(lanes)?.known();
    let len = data.len();
    refusals::text_fits(len)?;
    refusals::room_for_text(len, text.len())?;
    refusals::room_for_measures(len, densities.len())?;
    refusals::room_for_work(columns, len, work.len())?;
    Ok(keep_figures(data, columns, text, densities, work))
}
