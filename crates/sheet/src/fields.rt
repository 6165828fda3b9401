// The fields of a tally, each with its name.
ghost use Rattle.std.specs.Prelude.{◌≡◌};
ghost use Rattle.sheet.specs.Sheet.{named_fields};

use definitions::ArrowStats;
use std::marker::Model;

/// How many fields a tally has.
pub const FIELD_COUNT: usize = 17;

/// A field of a tally: its name and its count.
#[derive(Drop)]
pub struct Field(&'static str, u32);

impl Model for Field {
    ghost use Rattle.std.specs.Prelude.{List, ℕ};

    ghost Value = { List ℕ × ℕ };

    ghost view = { λ f. (f.0.now, f.1) };
}

impl Field {
    /// The field's name, as `ArrowStats` has it.
    pub fn name(&self) -> &'static str
        ensures { result.now ≡ self.now.0 }
    {
        self.0
    }

    /// What it counts.
    pub fn count(&self) -> u64
        ensures { result ≡ self.now.1 }
    {
        self.1 as u64
    }
}

/// The fields of a tally in their order.
#[tactic(auto, unfolding(crate::specs::Sheet::named_fields))]
pub fn fields_of(stats: &ArrowStats) -> [Field; FIELD_COUNT]
    ensures { result ≡ named_fields stats.now }
{
    [
        Field("total_arrows", stats.total_arrows),
        Field("left", stats.left),
        Field("down", stats.down),
        Field("up", stats.up),
        Field("right", stats.right),
        Field("total_steps", stats.total_steps),
        Field("jumps", stats.jumps),
        Field("hands", stats.hands),
        Field("mines", stats.mines),
        Field("holds", stats.holds),
        Field("rolls", stats.rolls),
        Field("lifts", stats.lifts),
        Field("fakes", stats.fakes),
        Field("holding", stats.holding),
        Field("keysounds", stats.keysounds),
        Field("up_left", stats.up_left),
        Field("up_right", stats.up_right),
    ]
}
