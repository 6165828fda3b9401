// Densities: for each measure the rows with a 1, 2 or 4.
ghost use Rattle.std.specs.Prelude.{◌≡◌, ◌+◌, ◌/◌, ◌≤◌, length};
ghost use Rattle.definitions.specs.Sizes.{most_bytes};
ghost use Rattle.definitions.specs.Lists.{padded};
ghost use Rattle.definitions.specs.Refusals.{leaves};
ghost use Rattle.definitions.specs.Figures.{densities as densities_of};
ghost use Rattle.definitions.specs.Entries.{measures_answer};

use definitions::{Lanes, Refusal};
use reader::charts::ChartLine;

// The densities of an accepted text at L lanes, with zeros after them: one loop for each lane count, so that the compiler knows how long a row is.
fn fill_at<const L: usize>(data: &[u8], densities: &mut [u32]) -> usize
    requires within { (4 ≤ L) × (L ≤ 10) }
    requires gaps { (L ≡ 7 → ⊥) × (L ≡ 9 → ⊥) }
    requires text_length { length «data».now ≤ most_bytes }
    requires densities_room { (length «data».now + 1) / 2 + 1 ≤ length densities.old }
    ensures value { result ≡ length (densities_of L «data».now) }
    ensures densities_after { densities.new
        ≡ padded 0 (length densities.old) (densities_of L «data».now) }
{
    let lanes = Lanes { count: L };
    let mut m = 0;
    let mut steps: u32 = 0;
    for line in reader::charts::chart_lines(data, lanes) {
        match line {
            ChartLine::Row(row) => steps += u32::from(cells::row_has_note(row)),
            ChartLine::Comma => {
                densities[m] = steps;
                m += 1;
                steps = 0;
            }
        }
    }
    densities[m] = steps;
    m += 1;
    slices::zero_past(densities, m, 0);
    m
}

// The densities of an accepted text, with zeros after them.
fn fill_densities(data: &[u8], lanes: Lanes, densities: &mut [u32]) -> usize
    requires text_length { length «data».now ≤ most_bytes }
    requires densities_room { (length «data».now + 1) / 2 + 1 ≤ length densities.old }
    ensures value { result ≡ length (densities_of lanes.count «data».now) }
    ensures densities_after { densities.new
        ≡ padded 0 (length densities.old) (densities_of lanes.count «data».now) }
{
    match lanes.count {
        4 => fill_at::<4>(data, densities),
        5 => fill_at::<5>(data, densities),
        6 => fill_at::<6>(data, densities),
        8 => fill_at::<8>(data, densities),
        _ => fill_at::<10>(data, densities),
    }
}

/// For each measure its minimised rows with a 1, 2 or 4, as the Rust's function of that name. The answer counts the measures. A refusal (12, 1 or 3)
/// is the caller's mistake.
#[tactic(auto, using(crate::proofs::Raw::densities_count), unfolding(definitions::specs::Entries::measures_answer))]
pub fn measure_densities(data: &[u8], lanes: usize, densities: &mut [u32]) -> Result<usize, Refusal>
    ensures value { result ≡ measures_answer lanes «data».now densities.old }
    ensures densities_after { densities.new
        ≡ leaves 0 result (densities_of lanes «data».now) densities.old }
{
    let columns = Lanes::of_number(lanes)?;
    let len = data.len();
    refusals::text_fits(len)?;
    refusals::room_for_measures(len, densities.len())?;
    Ok(fill_densities(data, columns, densities))
}
