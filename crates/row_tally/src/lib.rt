// Tallies that are raised cell by cell: the tally with one row more, and the same of judged rows.
#![tactic(auto)]

ghost use Rattle.std.specs.Prelude.{◌≡◌, ℕ, true, false, ◌+◌, ◌-◌, ◌≤◌, ◌<◌};
ghost use Rattle.definitions.specs.Sizes.{count_bound};
ghost use Rattle.definitions.specs.Tally.{empty_stats, tally_with_row, empty_sum};
ghost use Rattle.definitions.specs.Correction.{tally_with_steps};
ghost use Rattle.definitions.specs.Lines.{Row};
ghost use Rattle.definitions.specs.Judged.{sum_of_fakes, judged_sum, judge_row};
ghost use Rattle.taps.specs.Taps.{mask_of_line, masks};
ghost use Rattle.taps.specs.declared.Taps.TheVariants.{Mask};
ghost use Rattle.definitions.specs.declared.Cell.TheVariants.{Tap};
ghost use Rattle.row_tally.specs.Bounds.{Under, Below, EndsBelow};
ghost use Rattle.row_tally.specs.Sums.{sum_with_cell, add_by};
ghost use Rattle.row_tally.specs.Taps.{TapsCounted, TapsJudged, TapsAdded};
ghost use Rattle.row_tally.specs.Raised.{with_cells, step_counted, row_end, judged_row_end};

use definitions::{ArrowStats, Cell, RowSum};
use taps::TapTable;

/// The tally of no rows.
pub fn no_stats() -> ArrowStats
    ensures { result ≡ empty_stats }
{
    ArrowStats::default()
}

// One arrow more in the tally that is lent, of a direction: left, down, up, right, up-left, up-right. No step yet.
#[inline(always)]
#[tactic(auto, unfolding(crate::specs::Raised::with_cells, crate::specs::Sums::sum_with_cell))]
fn count_arrow(stats: &mut ArrowStats, direction: usize)
    requires few { Below (count_bound + 9) stats.old }
    ensures { stats.new ≡ with_cells stats.old (sum_with_cell empty_sum direction Tap true) }
{
    stats.total_arrows += 1;
    match direction {
        0 => stats.left += 1,
        1 => stats.down += 1,
        2 => stats.up += 1,
        3 => stats.right += 1,
        4 => stats.up_left += 1,
        5 => stats.up_right += 1,
        _ => {}
    }
}

/// One cell more of a row, in a column of a direction, counted in the tally that is lent. On a judged row an L is an arrow too. Steps, jumps, hands
/// and what is held are told where the row ends (`end_row`, `end_judged_row`). Where the cell is known its match folds away.
#[inline(always)]
#[tactic(auto, unfolding(crate::specs::Raised::with_cells, crate::specs::Sums::sum_with_cell))]
pub fn count_cell(stats: &mut ArrowStats, direction: usize, cell: Cell, judged: bool)
    requires few { Below (count_bound + 9) stats.old }
    ensures { stats.new ≡ with_cells stats.old (add_by judged empty_sum direction cell) }
{
    match cell {
        Cell::Tap => count_arrow(stats, direction),
        Cell::Hold => {
            count_arrow(stats, direction);
            stats.holds += 1;
        }
        Cell::Roll => {
            count_arrow(stats, direction);
            stats.rolls += 1;
        }
        Cell::Mine | Cell::LowerMine => stats.mines += 1,
        Cell::Lift | Cell::LowerLift => {
            if judged {
                count_arrow(stats, direction);
            }
            stats.lifts += 1;
        }
        Cell::Fake | Cell::LowerFake => stats.fakes += 1,
        Cell::KeySound => stats.keysounds += 1,
        Cell::Tail | Cell::Empty => {}
    }
}

// A row's sum is added, and the row's end is yet to be told.
#[inline(always)]
#[tactic(auto, unfolding(crate::specs::Raised::with_cells))]
fn add_cells(stats: &mut ArrowStats, s: RowSum)
    requires few { Below count_bound stats.old }
    requires sum_few { Under 10 s }
    ensures { stats.new ≡ with_cells stats.old s }
{
    stats.total_arrows += s.arrows;
    stats.left += s.left;
    stats.down += s.down;
    stats.up += s.up;
    stats.right += s.right;
    stats.mines += s.mines;
    stats.holds += s.holds;
    stats.rolls += s.rolls;
    stats.lifts += s.lifts;
    stats.fakes += s.fakes;
    stats.keysounds += s.keysounds;
    stats.up_left += s.up_left;
    stats.up_right += s.up_right;
}

// What is held after a row: the larger of 0 and holding + heads − tails.
fn held_after(holding: u32, heads: u32, tails: u32) -> u32
    requires { holding + heads ≤ 4294967295 }
    ensures { result ≡ holding + heads - tails }
{
    (holding + heads).saturating_sub(tails)
}

// A step of so many arrows: a jump where it has 2 or more. It is told by a branch, since steps and jumps that are raised as one pair cost more.
#[inline(always)]
fn count_step(stats: &mut ArrowStats, arrows: u32)
    requires steps_few { stats.old.total_steps < 4294967295 }
    requires jumps_few { stats.old.jumps < 4294967295 }
    ensures { stats.new ≡ step_counted stats.old arrows }
{
    stats.total_steps += 1;
    if 2 <= arrows {
        stats.jumps += 1;
    }
}

/// A row's cells are counted, so many arrows, heads and tails among them: a step, jump and hand where it is one, and what is held after it. A hand is
/// a step whose arrows plus the holds before the row make 3 or more.
#[inline(always)]
#[tactic(auto, unfolding(crate::specs::Raised::with_end))]
pub fn end_row(stats: &mut ArrowStats, arrows: u32, heads: u32, tails: u32)
    requires few { EndsBelow count_bound stats.old }
    requires arrows_few { arrows ≤ 10 }
    requires heads_few { heads ≤ 10 }
    ensures { stats.new ≡ row_end stats.old arrows heads tails }
{
    if 0 < arrows {
        count_step(stats, arrows);
        stats.hands += u32::from(3 <= arrows + stats.holding);
    }
    stats.holding = held_after(stats.holding, heads, tails);
}

/// A judged tally's row, whose cells are counted, so many arrows among them and so many mines and fakes, and before which `held` holds are open: a
/// step, jump and hand where it is one, and nothing is held.
#[inline(always)]
#[tactic(auto, unfolding(crate::specs::Raised::with_end))]
pub fn end_judged_row(stats: &mut ArrowStats, judged: bool, arrows: u32, others: u32, held: u32)
    requires few { EndsBelow count_bound stats.old }
    requires arrows_few { arrows ≤ 10 }
    requires others_few { others ≤ 20 }
    requires held_few { held ≤ count_bound }
    ensures { stats.new ≡ judged_row_end stats.old judged arrows others held }
{
    if 0 < arrows {
        count_step(stats, arrows);
        stats.hands += u32::from(judged & (3 <= arrows + held));
    } else if judged & (0 < others) & (3 <= held) {
        stats.hands += 1;
    }
    stats.holding = 0;
}

// A row's sum is added, and the row ends.
#[inline(always)]
#[tactic(auto, unfolding(crate::specs::Raised::with_cells, crate::specs::Raised::with_end, definitions::specs::Tally::tally_with_row))]
fn add_row_into(stats: &mut ArrowStats, s: RowSum)
    requires few { Below count_bound stats.old }
    requires sum_few { Under 10 s }
    ensures { stats.new ≡ tally_with_row stats.old s }
{
    add_cells(stats, s);
    end_row(stats, s.arrows, s.holds + s.rolls, s.tails);
}

/// One row more that is not judged, of so many fakes.
#[tactic(auto, unfolding(crate::specs::Raised::with_end, definitions::specs::Judged::judge_row))]
pub fn count_fakes(stats: &mut ArrowStats, fakes: u32)
    requires few { Below count_bound stats.old }
    requires fakes_few { fakes ≤ 10 }
    ensures { (held : ℕ) → stats.new ≡ judge_row stats.old false held (sum_of_fakes fakes) }
{
    stats.fakes += fakes;
    end_judged_row(stats, false, 0, fakes, 0);
}

/// One row of taps alone more; one without a tap changes nothing. It is written into its loops, since a sum that is handed over costs them a tenth.
#[inline(always)]
pub fn count_taps(stats: &mut ArrowStats, mask: u16, table: &TapTable)
    requires mask_known { mask < masks table.now.wide }
    requires few { Below count_bound stats.old }
    ensures { TapsCounted mask stats.old stats.new }
{
    if mask == 0 {
        return;
    }
    add_row_into(stats, table.sum(mask));
}

/// One row of taps alone more in a judged tally, before which `held` holds are open.
pub fn judge_taps(stats: &mut ArrowStats, judged: bool, held: u32, mask: u16, table: &TapTable)
    requires mask_known { mask < masks table.now.wide }
    requires few { Below count_bound stats.old }
    requires held_few { held ≤ count_bound }
    ensures { TapsJudged judged held mask stats.old stats.new }
{
    if mask == 0 {
        count_fakes(stats, 0);
        return;
    }
    let s = table.sum(mask);
    if judged {
        add_cells(stats, s);
        end_judged_row(stats, true, s.arrows, s.mines + s.fakes, held);
    } else {
        count_fakes(stats, s.arrows);
    }
}

/// The cells of one row of taps alone, whose end is yet to be told: its arrows.
#[inline(always)]
pub fn add_taps(stats: &mut ArrowStats, mask: u16, table: &TapTable) -> u32
    requires mask_known { mask < masks table.now.wide }
    requires few { Below count_bound stats.old }
    ensures value { (row : Row) → mask_of_line row ≡ Mask mask
        → TapsAdded stats.old stats.new result row }
    ensures arrows_few { result ≤ 10 }
{
    let s = table.sum(mask);
    add_cells(stats, s);
    s.arrows
}

/// The same of a row that is not judged: a fake for each tap.
#[inline(always)]
#[tactic(auto, unfolding(crate::specs::Raised::with_cells))]
pub fn add_fakes(stats: &mut ArrowStats, mask: u16, table: &TapTable)
    requires mask_known { mask < masks table.now.wide }
    requires few { Below count_bound stats.old }
    ensures { (row : Row) → mask_of_line row ≡ Mask mask
        → stats.new ≡ with_cells stats.old (judged_sum false row) }
{
    stats.fakes += table.sum(mask).arrows;
}

/// A tally that keeps the steps of another.
pub fn with_steps(t: ArrowStats, steps: u32) -> ArrowStats
    ensures { result ≡ tally_with_steps steps t }
{
    ArrowStats {
        total_steps: steps,
        ..t
    }
}
