// The kept-row pass over a whole text: each minimised measure is counted.
#![tactic(auto)]

ghost use Rattle.std.specs.Prelude.{◌+◌, ◌/◌, ◌≤◌, length};
ghost use Rattle.definitions.specs.Sizes.{most_bytes};
ghost use Rattle.kept_pass.specs.Kept.{KeptAll};

use definitions::Lanes;
use measure_tally::Counting;
use measures::RowForm;
use taps::TapTable;

/// What is counted of a chart, and its minimised text in bytes and measures.
#[derive(Clone, Copy)]
pub struct Kept {
    pub counting: Counting,
    pub bytes: usize,
    pub measures: usize,
}

// Each measure, as it ends, is counted and its density is stored. The table of the tap masks is lent.
fn keep_measures(data: &[u8], text: &mut [u8], densities: &mut [u32], table: &TapTable) -> Kept
    requires text_length { length «data».now ≤ most_bytes }
    requires text_room { length «data».now + 1 ≤ length text.old }
    requires densities_room { (length «data».now + 1) / 2 + 1 ≤ length densities.old }
    ensures { KeptAll table.now.lanes.count «data».now result text.new densities.new }
{
    let mut chart = measures::chart_measures(data, table.lanes, RowForm::Lines);
    let mut counting = Counting::new();
    'measures: while let Some(measure) = chart.next(text) {
        counting.count_rows(text, measure.start, measure.rows, table);
        densities[measure.number] = counting.density();
        counting.end_measure();
    }
    Kept {
        counting,
        bytes: chart.out,
        measures: chart.number,
    }
}

/// The whole text.
pub fn keep_chart(data: &[u8], lanes: Lanes, text: &mut [u8], densities: &mut [u32]) -> Kept
    requires text_length { length «data».now ≤ most_bytes }
    requires text_room { length «data».now + 1 ≤ length text.old }
    requires densities_room { (length «data».now + 1) / 2 + 1 ≤ length densities.old }
    ensures { KeptAll lanes.count «data».now result text.new densities.new }
{
    let table = TapTable::for_lanes(lanes);
    keep_measures(data, text, densities, &table)
}
