// The ends of rows whose cells are counted: over their entries in the work slice alone, without the text.
ghost use Rattle.std.specs.Prelude.{◌≡◌, ℕ, Bool, List, true, false, ◌≤◌, ◌<◌, length};
ghost use Rattle.definitions.specs.Sizes.{row_numbers_bound};
ghost use Rattle.definitions.specs.Lines.{Row};
ghost use Rattle.definitions.specs.Tally.{tally};
ghost use Rattle.definitions.specs.Correction.{paired_only};
ghost use Rattle.definitions.specs.Judged.{judged_rows};
ghost use Rattle.paired_tally.specs.Paired.{PairedRows};
ghost use Rattle.paired_tally.specs.Ends.{Counted};

use crate::{PairedTally, entry};
use definitions::ArrowStats;

/// The tally of rows with their paired heads alone, once their ends are told too.
pub fn end_rows(counted: &PairedTally, work: &[u16], rows: usize) -> ArrowStats
    requires entries_room { rows ≤ length work.now }
    requires rows_few { rows < row_numbers_bound }
    requires reached { Counted true rows counted.now work.now }
    ensures { (J : ℕ → Bool) (L : ℕ) (all : List Row) → length all ≡ rows → L ≤ 10
        → PairedRows true J L all counted.now work.now → result ≡ tally (paired_only all) }
{
    let mut stats = counted.stats;
    for i in 0..rows {
        let arrows = entry::arrows(work[i]);
        let heads = entry::heads(work[i]);
        let tails = entry::ends(work[i]);
        row_tally::end_row(&mut stats, arrows, heads, tails);
    }
    stats
}

/// The judged tally of rows, once their ends are told too. By its entry an unjudged row has no arrow, mine or fake, so that it ends as a judged one would.
pub fn end_judged_rows(counted: &PairedTally, work: &[u16], rows: usize) -> ArrowStats
    requires entries_room { rows ≤ length work.now }
    requires rows_few { rows < row_numbers_bound }
    requires reached { Counted false rows counted.now work.now }
    ensures { (J : ℕ → Bool) (L : ℕ) (all : List Row) → length all ≡ rows → L ≤ 10
        → PairedRows false J L all counted.now work.now → result ≡ judged_rows L J all }
{
    let mut stats = counted.stats;
    let mut active = 0;
    for i in 0..rows {
        let arrows = entry::arrows(work[i]);
        let others = entry::others(work[i]);
        let opened = entry::heads(work[i]);
        let ends = entry::ends(work[i]);
        row_tally::end_judged_row(&mut stats, true, arrows, others, active);
        active += opened;
        active -= ends;
    }
    stats
}
