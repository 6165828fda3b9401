ghost use Rattle.std.specs.Prelude.{◌≡◌, ◌<◌};
ghost use Rattle.taps.specs.Taps.{wide_row, masks, mask_counts, CountsMasks, unpack};

use crate::counts::TAP_MASK_COUNTS;
use crate::five_counts::FIVE_COUNTS;
use definitions::{Lanes, RowSum};

// Whether rows of so many cells are counted without `TAP_MASK_COUNTS`: "Rows of 4 and 8 lanes alone use it."
fn is_wide(columns: usize) -> bool
    ensures { result ≡ wide_row columns }
{
    !matches!(columns, 4 | 8)
}

/// What each mask of taps counts up to at a lane count. A pass makes one for its text and lends it: a look into a constant itself
/// would write out all its entries each time.
#[derive(Drop)]
pub struct TapTable {
    pub lanes: Lanes,
    pub wide: bool,
    pub counts: [u16; 256],
    pub ghost two_fives: { wide ≡ wide_row lanes.count },
    pub ghost rule: { CountsMasks wide counts },
}

impl TapTable {
    /// `TAP_MASK_COUNTS`, or for wide rows the table of five columns and five.
    pub fn for_lanes(lanes: Lanes) -> TapTable
        ensures { result.lanes.count ≡ lanes.count }
    {
        if is_wide(lanes.count) {
            return TapTable {
                lanes,
                wide: true,
                counts: FIVE_COUNTS,
            };
        }
        TapTable {
            lanes,
            wide: false,
            counts: TAP_MASK_COUNTS,
        }
    }

    // A mask's counts: the table's entry, or the sum of two where the table is of five columns and five.
    fn entry(&self, mask: u16) -> u16
        requires { mask < masks self.now.wide }
        ensures { result ≡ mask_counts mask }
    {
        let m = usize::from(mask);
        if self.wide {
            return self.counts[m % 32] + self.counts[32 + m / 32];
        }
        self.counts[m]
    }

    /// What a row of taps alone adds up to.
    #[tactic(auto, using(crate::proofs::Masks::and_15, crate::proofs::Masks::and_3), unfolding(crate::specs::Taps::unpack))]
    pub fn sum(&self, mask: u16) -> RowSum
        requires { mask < masks self.now.wide }
        ensures { result ≡ unpack (mask_counts mask) }
    {
        let n = u32::from(self.entry(mask));
        RowSum {
            arrows: n & 15,
            left: (n >> 4) & 3,
            down: (n >> 6) & 3,
            up: (n >> 8) & 3,
            right: (n >> 10) & 3,
            ..RowSum::default()
        }
    }
}
