// Spacing: for each measure whether its minimised rows all have a 1, 2 or 4, by counting its rows, its steps and the doublings of its stride.
ghost use Rattle.std.specs.Prelude.{◌≡◌, List, [], ◌∷◌, ◌++◌, ◌+◌, ◌/◌, ◌≤◌, ◌<◌, length};
ghost use Rattle.definitions.specs.Sizes.{most_bytes, row_numbers_bound};
ghost use Rattle.definitions.specs.Lists.{padded};
ghost use Rattle.definitions.specs.Refusals.{leaves};
ghost use Rattle.definitions.specs.Lines.{Row};
ghost use Rattle.definitions.specs.Reduction.{reduce};
ghost use Rattle.definitions.specs.Figures.{spacing as spacing_of, spacings};
ghost use Rattle.definitions.specs.Entries.{measures_answer};
ghost use Rattle.scans.specs.Spaces.{Spaces};

use definitions::{Lanes, Refusal};
use reader::charts::ChartLine;

/// What the spacing scan keeps of the open measure: its rows, those with a 1, 2 or 4, and how many times its stride may be doubled as far as
/// its rows allow it. A row that is all zero allows any stride, another one those that divide its number.
#[derive(Clone, Copy)]
pub struct MeasureSpacing {
    pub rows: usize,
    pub steps: u32,
    pub shift: u32,
}

impl MeasureSpacing {
    // A measure without rows.
    fn new() -> Self
        ensures { Spaces result [] }
    {
        MeasureSpacing {
            rows: 0,
            steps: 0,
            shift: 64,
        }
    }

    // The open measure with one row more. Where the stride is 1 for good and some row is no step, no row can make the measure spaced again, and
    // none is looked at. It is written into the loop, where the measure then stays in registers.
    #[inline(always)]
    fn add_row(&mut self, row: &[u8])
        requires rows_few { self.old.rows < row_numbers_bound }
        requires steps_few { self.old.steps < row_numbers_bound }
        ensures { (cur : List Row) → Spaces self.old cur
            → Spaces self.new (cur ++ (row.now ∷ [])) }
    {
        let number = self.rows;
        self.rows += 1;
        if (self.shift == 0) & ((self.steps as usize) != number) {
            return;
        }
        let has_note = cells::row_has_note(row);
        self.steps += u32::from(has_note);
        if !cells::is_all_zero(row) {
            self.shift = self.shift.min(number.trailing_zeros());
        }
    }

    // Whether the measure's minimised rows all have a 1, 2 or 4: as many rows have one as stay.
    fn is_spaced(&self) -> bool
        requires { self.now.rows ≤ row_numbers_bound }
        ensures { (cur : List Row) → Spaces self.now cur → result ≡ spacing_of (reduce cur) }
    {
        if self.rows == 0 {
            return true;
        }
        let shift = self.shift.min(self.rows.trailing_zeros());
        self.steps as usize == self.rows >> shift
    }
}

// The spacing of an accepted text at L lanes, with zeros after it: one loop for each lane count, so that the compiler knows how long a row is.
fn fill_at<const L: usize>(data: &[u8], spacing: &mut [u8]) -> usize
    requires within { (4 ≤ L) × (L ≤ 10) }
    requires gaps { (L ≡ 7 → ⊥) × (L ≡ 9 → ⊥) }
    requires text_length { length «data».now ≤ most_bytes }
    requires spacing_room { (length «data».now + 1) / 2 + 1 ≤ length spacing.old }
    ensures value { result ≡ length (spacings L «data».now) }
    ensures spacing_after { spacing.new ≡ padded 0 (length spacing.old) (spacings L «data».now) }
{
    let lanes = Lanes { count: L };
    let mut m = 0;
    let mut measure = MeasureSpacing::new();
    for line in reader::charts::chart_lines(data, lanes) {
        match line {
            ChartLine::Row(row) => measure.add_row(row),
            ChartLine::Comma => {
                spacing[m] = u8::from(measure.is_spaced());
                m += 1;
                measure = MeasureSpacing::new();
            }
        }
    }
    spacing[m] = u8::from(measure.is_spaced());
    m += 1;
    slices::zero_past(spacing, m, 0);
    m
}

/// The spacing of an accepted text, with zeros after it.
pub fn fill_spacing(data: &[u8], lanes: Lanes, spacing: &mut [u8]) -> usize
    requires text_length { length «data».now ≤ most_bytes }
    requires spacing_room { (length «data».now + 1) / 2 + 1 ≤ length spacing.old }
    ensures value { result ≡ length (spacings lanes.count «data».now) }
    ensures spacing_after { spacing.new
        ≡ padded 0 (length spacing.old) (spacings lanes.count «data».now) }
{
    match lanes.count {
        4 => fill_at::<4>(data, spacing),
        5 => fill_at::<5>(data, spacing),
        6 => fill_at::<6>(data, spacing),
        8 => fill_at::<8>(data, spacing),
        _ => fill_at::<10>(data, spacing),
    }
}

/// For each measure whether it has no rows or each of its minimised rows has a 1, 2 or 4, 1 or 0, as the Rust's function of that name. The answer counts
/// the measures. A refusal (12, 1 or 3) is the caller's mistake.
#[tactic(auto, using(crate::proofs::Raw::spacings_count), unfolding(definitions::specs::Entries::measures_answer))]
pub fn equally_spaced_impl(data: &[u8], lanes: usize, spacing: &mut [u8]) -> Result<usize, Refusal>
    ensures value { result ≡ measures_answer lanes «data».now spacing.old }
    ensures spacing_after { spacing.new
        ≡ leaves 0 result (spacings lanes «data».now) spacing.old }
{
    let columns = Lanes::of_number(lanes)?;
    let len = data.len();
    refusals::text_fits(len)?;
    refusals::room_for_measures(len, spacing.len())?;
    Ok(fill_spacing(data, columns, spacing))
}
