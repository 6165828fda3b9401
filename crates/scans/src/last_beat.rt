// Last beat: the last object row among the raw rows. A row and its measure's row count, divided by the same stride, give the same beat.
ghost use Rattle.std.specs.Prelude.{◌≡◌, ◌≤◌, length};
ghost use Rattle.definitions.specs.Sizes.{most_bytes};
ghost use Rattle.definitions.specs.Measures.{chart};
ghost use Rattle.definitions.specs.Objects.{objects_from, last_of};
ghost use Rattle.beats.specs.Places.{place_of, Placed};
ghost use Rattle.definitions.specs.Entries.{figures_of_last, last_answer};

use beats::RowPlace;
use definitions::{Lanes, LastBeat, Refusal};
use objects::LastScan;
use reader::charts::ChartLine;

// The last object row of an accepted text at L lanes, among its raw rows: one loop for each lane count, so that the compiler knows how long a row is.
fn scan_at<const L: usize>(data: &[u8]) -> Option<RowPlace>
    requires within { (4 ≤ L) × (L ≤ 10) }
    requires gaps { (L ≡ 7 → ⊥) × (L ≡ 9 → ⊥) }
    requires text_length { length «data».now ≤ most_bytes }
    ensures placed { Placed result }
    ensures value { place_of result
        ≡ last_of (objects_from (λ c. 0) 0 (chart L «data».now)) }
{
    let lanes = Lanes { count: L };
    let mut last = LastScan::new();
    for line in reader::charts::chart_lines(data, lanes) {
        match line {
            ChartLine::Row(row) => last.add_row(row),
            ChartLine::Comma => last.end_measure(),
        }
    }
    last.end_measure();
    last.found
}

// The last object row of an accepted text, among its raw rows.
fn scan_last(data: &[u8], lanes: Lanes) -> Option<RowPlace>
    requires { length «data».now ≤ most_bytes }
    ensures placed { Placed result }
    ensures value { place_of result
        ≡ last_of (objects_from (λ c. 0) 0 (chart lanes.count «data».now)) }
{
    match lanes.count {
        4 => scan_at::<4>(data),
        5 => scan_at::<5>(data),
        6 => scan_at::<6>(data),
        8 => scan_at::<8>(data),
        _ => scan_at::<10>(data),
    }
}

// The beat of the last object row of an accepted text, 0 where there is none.
fn last_figures(data: &[u8], lanes: Lanes) -> LastBeat
    requires { length «data».now ≤ most_bytes }
    ensures { result ≡ figures_of_last lanes.count «data».now }
{
    let last = scan_last(data, lanes);
    LastBeat {
        beat: beats::calc_last_beat(last),
        bits: beats::last_beat_bits(last),
        row: beats::last_note_row(last),
    }
}

/// The beat of a text's last object row, as an f64, by its bits and in 48ths of a beat, as the Rust's function of that name. A refusal (12 or 1)
/// is the caller's mistake.
#[tactic(auto, unfolding(definitions::specs::Entries::last_answer))]
pub fn chart_last_beat_impl(data: &[u8], lanes: usize) -> Result<LastBeat, Refusal>
    ensures { result ≡ last_answer lanes «data».now }
{
    let columns = Lanes::of_number(lanes)?;
    refusals::text_fits(data.len())?;
    Ok(last_figures(data, columns))
}
