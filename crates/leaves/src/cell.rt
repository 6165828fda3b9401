// Cells and tap masks.
ghost use Rattle.std.specs.Prelude.{◌≡◌};
ghost use Rattle.definitions.specs.Cells.{cell_of};
ghost use Rattle.definitions.specs.Figures.{is_step};
ghost use Rattle.definitions.specs.Objects.{object_at};
ghost use Rattle.definitions.specs.Tracker.{hold_at};
ghost use Rattle.definitions.specs.Tally.{sum_counts};
ghost use Rattle.taps.specs.Taps.{mask_counts, unpack};
ghost use Rattle.leaves.specs.Answers.{number_of_cell, number_of_effect, number_of_taps, mask_number};

use definitions::Lanes;
use taps::{TapTable, Taps};

/// The number of the cell that a byte is, in the order of `Cell`.
#[unsafe(no_mangle)]
pub extern "C" fn leaves_cell_of(b: u8) -> u32
    ensures { result ≡ number_of_cell (cell_of b) }
{
    cells::cell_of(b) as u32
}

/// The number of what a byte does to an open head, in the order of `DepthEffect`.
#[unsafe(no_mangle)]
pub extern "C" fn leaves_hold_effect(b: u8) -> u32
    ensures { result ≡ number_of_effect (hold_at b) }
{
    cells::hold_effect(b) as u32
}

/// The number of what a byte does to an object depth, in the order of `DepthEffect`.
#[unsafe(no_mangle)]
pub extern "C" fn leaves_object_effect(b: u8) -> u32
    ensures { result ≡ number_of_effect (object_at b) }
{
    cells::object_effect(b) as u32
}

/// Whether a row has a 1, 2 or 4.
#[unsafe(no_mangle)]
pub extern "C" fn leaves_row_has_note(row: &[u8]) -> bool
    ensures { result ≡ is_step row.now }
{
    cells::row_has_note(row)
}

// The mask, 256 for another row.
fn taps_number(taps: Taps) -> u32
    ensures { result ≡ number_of_taps taps }
{
    match taps {
        Taps::Mask(mask) => u32::from(mask),
        Taps::Other => 256,
    }
}

/// The mask of four cells: 256 for another row, 257 for fewer cells.
#[tactic(auto, unfolding(crate::specs::Answers::mask_number))]
#[unsafe(no_mangle)]
pub extern "C" fn leaves_tap_mask4(row: &[u8]) -> u32
    ensures { result ≡ mask_number 4 row.now }
{
    if row.len() < 4 {
        return 257;
    }
    taps_number(taps::tap_mask4(row))
}

/// The mask of eight cells: 256 for another row, 257 for fewer cells.
#[tactic(auto, unfolding(crate::specs::Answers::mask_number))]
#[unsafe(no_mangle)]
pub extern "C" fn leaves_tap_mask8(row: &[u8]) -> u32
    ensures { result ≡ mask_number 8 row.now }
{
    if row.len() < 8 {
        return 257;
    }
    taps_number(taps::tap_mask8(row))
}

/// The sum's fields in their order.
#[unsafe(no_mangle)]
pub extern "C" fn leaves_tap_sum(mask: u8, sum: &mut [u32; 14])
    ensures { sum.new ≡ sum_counts (unpack (mask_counts mask)) }
{
    let s = TapTable::for_lanes(Lanes { count: 8 }).sum(mask as u16);
    *sum = [
        s.arrows,
        s.left,
        s.down,
        s.up,
        s.right,
        s.holds,
        s.rolls,
        s.tails,
        s.mines,
        s.lifts,
        s.fakes,
        s.keysounds,
        s.up_left,
        s.up_right,
    ];
}
