// The main call's pass over a whole text: each minimised measure is walked over, which counts and notes its rows, and its beats are written.
#![tactic(auto)]

ghost use Rattle.std.specs.Prelude.{◌≡◌, ◌+◌, ◌*◌, ◌/◌, ◌≤◌, length, take};
ghost use Rattle.definitions.specs.Sizes.{most_bytes};
ghost use Rattle.definitions.specs.Lanes.{most_rows_in};
ghost use Rattle.definitions.specs.Reduction.{minimised};
ghost use Rattle.definitions.specs.Beats.{beats as beats_of};
ghost use Rattle.tap_walk.specs.Noted.{Noted};
ghost use Rattle.measure_walk.specs.Views.{noting};
ghost use Rattle.kept_pass.specs.Kept.{KeptAll};
ghost use Rattle.chart_pass.specs.ChartPass.{NothingWalked, kept_of};

use definitions::Lanes;
use measure_walk::Walk;
use measures::RowForm;
use taps::TapTable;

/// The minimised text in bytes and measures.
#[derive(Clone, Copy)]
pub struct Minimised {
    pub bytes: usize,
    pub measures: usize,
}

// Each measure, as it ends, is walked over, and its beats and its density are stored. The table of the tap masks is lent.
fn read_measures(
    data: &[u8],
    text: &mut [u8],
    densities: &mut [u32],
    beats: &mut [f32],
    slots: &mut [u8],
    table: &TapTable,
    walk: &mut Walk,
) -> Minimised
    requires text_length { length «data».now ≤ most_bytes }
    requires text_room { length «data».now + 1 ≤ length text.old }
    requires densities_room { (length «data».now + 1) / 2 + 1 ≤ length densities.old }
    requires beats_room { most_rows_in table.now.lanes.count (length «data».now)
        ≤ length beats.old }
    requires notes_room { 10 * table.now.lanes.count
        * most_rows_in table.now.lanes.count (length «data».now) ≤ length slots.old }
    requires nothing_walked { NothingWalked walk.old }
    ensures kept { KeptAll table.now.lanes.count «data».now
        (kept_of walk.new result) text.new densities.new }
    ensures noted { Noted table.now.lanes.count (noting walk.new) slots.new
        (minimised table.now.lanes.count «data».now) }
    ensures beats_after { take walk.new.run.row beats.new
        ≡ beats_of table.now.lanes.count «data».now }
{
    let mut chart = measures::chart_measures(data, table.lanes, RowForm::Lines);
    'measures: while let Some(measure) = chart.next(text) {
        let before = walk.run.row as usize;
        beats::append_row_beats(beats, before, measure.number as u32, measure.rows as u32);
        walk.walk_rows(text, measure.start, measure.rows, slots, table);
        densities[measure.number] = walk.density();
        walk.end_measure();
    }
    Minimised {
        bytes: chart.out,
        measures: chart.number,
    }
}

/// The whole text. The walk is lent as `Walk::new` makes it, and has gone over all measures afterwards.
pub fn read_chart(
    data: &[u8],
    lanes: Lanes,
    text: &mut [u8],
    densities: &mut [u32],
    beats: &mut [f32],
    slots: &mut [u8],
    walk: &mut Walk,
) -> Minimised
    requires text_length { length «data».now ≤ most_bytes }
    requires text_room { length «data».now + 1 ≤ length text.old }
    requires densities_room { (length «data».now + 1) / 2 + 1 ≤ length densities.old }
    requires beats_room { most_rows_in lanes.count (length «data».now) ≤ length beats.old }
    requires notes_room { 10 * lanes.count * most_rows_in lanes.count (length «data».now)
        ≤ length slots.old }
    requires nothing_walked { NothingWalked walk.old }
    ensures kept { KeptAll lanes.count «data».now (kept_of walk.new result) text.new densities.new }
    ensures noted { Noted lanes.count (noting walk.new) slots.new
        (minimised lanes.count «data».now) }
    ensures beats_after { take walk.new.run.row beats.new ≡ beats_of lanes.count «data».now }
{
    let table = TapTable::for_lanes(lanes);
    read_measures(data, text, densities, beats, slots, &table, walk)
}
