// Rows of taps alone in columns without an open head: they are counted by their mask, and leave the open heads.
ghost use Rattle.std.specs.Prelude.{◌≡◌, true, false, ◌+◌, ◌*◌, ◌≤◌, ◌<◌, length, slice_index};
ghost use Rattle.definitions.specs.Lists.{number_of_bool};
ghost use Rattle.definitions.specs.Lines.{Row};
ghost use Rattle.definitions.specs.Sizes.{count_bound};
ghost use Rattle.taps.specs.Taps.{mask_of_line, masks};
ghost use Rattle.taps.specs.declared.Taps.TheVariants.{Mask};
ghost use Rattle.row_tally.specs.Bounds.{Below};
ghost use Rattle.paired_tally.specs.Free.{FreeCounted};

use crate::PairedTally;
use taps::TapTable;

// The entry of a row of so many taps that is counted, judged or of a plain tally.
#[inline(always)]
fn taps_entry(arrows: u32, judged: bool) -> u16
    requires { arrows ≤ 10 }
    ensures { result ≡ arrows + 8192 * number_of_bool judged }
{
    if judged {
        return 8192 + arrows as u16;
    }
    arrows as u16
}

impl PairedTally {
    // One row more of taps alone in columns without an open head.
    #[inline(always)]
    pub(crate) fn add_free(
        &mut self,
        row: u32,
        mask: u16,
        plain: bool,
        judged: bool,
        table: &TapTable,
        work: &mut [u16],
    )
        requires mask_known { mask < masks table.now.wide }
        requires few { Below count_bound self.old.stats }
        requires entry_room { row < length work.old }
        requires entry_clear { slice_index work.old row ≡ 0 }
        ensures { (cells : Row) → mask_of_line cells ≡ Mask mask
            → FreeCounted plain judged row cells self.old work.old self.new work.new }
    {
        let at = row as usize;
        if mask == 0 {
            if !plain {
                work[at] = taps_entry(0, judged);
            }
            return;
        }
        if plain {
            let arrows = row_tally::add_taps(&mut self.stats, mask, table);
            work[at] = taps_entry(arrows, false);
            return;
        }
        if judged {
            let arrows = row_tally::add_taps(&mut self.stats, mask, table);
            work[at] = taps_entry(arrows, true);
            return;
        }
        row_tally::add_fakes(&mut self.stats, mask, table);
    }
}
