ghost use Rattle.std.specs.Prelude.{◌≡◌, ◌≤◌, Ok, Err, OnOk, IfOk, IfErr};
ghost use Rattle.definitions.specs.Tally.{direction as direction_of};

use crate::Refusal;

// The directions of six columns: left, up-left, down, up, up-right, right.
const SIX_COLUMNS: [usize; 6] = [0, 4, 1, 2, 5, 3];

/// The direction of a column of so many: 0 left, 1 down, 2 up, 3 right, 4 up-left, 5 up-right. But for six columns it goes by fours.
#[tactic(auto, unfolding(crate::specs::Tally::direction))]
pub fn direction(columns: usize, column: usize) -> usize
    ensures { result ≡ direction_of columns column }
{
    if columns == 6 {
        if column < 6 { SIX_COLUMNS[column] } else { 0 }
    } else {
        column % 4
    }
}

/// A lane count: how many columns a row has, from 4 to 10 but neither 7 nor 9.
#[derive(Clone, Copy)]
pub struct Lanes {
    pub count: usize,
    pub ghost within: { (4 ≤ count) × (count ≤ 10) },
    pub ghost gaps: { (count ≡ 7 → ⊥) × (count ≡ 9 → ⊥) },
}

impl Lanes {
    ghost use Rattle.definitions.specs.Refusals.{other_lanes};

    /// The lane count that the caller's number is: 4, 5, 6, 8 or 10. Any other number is refused.
    #[tactic(auto, unfolding(crate::specs::Lanes::is_lane_count, crate::specs::Refusals::other_lanes))]
    pub fn of_number(given: usize) -> Result<Lanes, Refusal>
        ensures accepted { OnOk result (other_lanes given ≡ Ok tt) }
        ensures count { IfOk result (λ lanes. lanes.count ≡ given) }
        ensures refused { IfErr result (λ refusal. other_lanes given ≡ Err refusal) }
    {
        match given {
            4 | 5 | 6 | 8 | 10 => Ok(Lanes { count: given }),
            _ => Err(Refusal::OtherLanes),
        }
    }

    /// The same count. The numbers stand here one by one, so that the compiler knows each of them where it writes a loop over a row's cells: what `?`
    /// hands on has been in memory, and it knows nothing of that.
    pub fn known(self) -> Lanes
        ensures { result.count ≡ self.count }
    {
        let count = match self.count {
            5 => 5,
            6 => 6,
            8 => 8,
            10 => 10,
            _ => 4,
        };
        Lanes { count }
    }
}
