// The phantom depths of a chart's rows, its heads and tails, and whether its tally is counted anew.
#![tactic(auto)]

ghost use Rattle.std.specs.Prelude.{◌≡◌, List, [], ℕ, ◌≤◌, ◌<◌, nat_lt};
ghost use Rattle.definitions.specs.Lists.{some_column};
ghost use Rattle.definitions.specs.Lines.{Row};
ghost use Rattle.definitions.specs.Correction.{corrects};
ghost use Rattle.definitions.specs.declared.DepthEffect.TheVariants.{Blocks, Opens, Closes};
ghost use Rattle.phantoms.specs.Phantoms.{phantom_at, Low, Counts, with_effect};

/// The phantom depth of each column, of up to ten; the heads and tails so far; and whether a 1, M, L or F met a phantom depth.
#[derive(Clone, Copy)]
pub struct Phantoms {
    pub depths: [u32; 10],
    pub heads: u32,
    pub tails: u32,
    pub met: bool,
}

/// Before the first row.
pub fn no_phantoms() -> Phantoms
    ensures { (L : ℕ) → L ≤ 10 → Counts L [] result }
{
    Phantoms {
        depths: [0; 10],
        heads: 0,
        tails: 0,
        met: false,
    }
}

impl Phantoms {
    /// A 1, M, L or F in a column.
    #[inline(always)]
    #[tactic(auto, using(crate::proofs::Effects::blocked), unfolding(crate::specs::Phantoms::with_effect))]
    pub fn block(&mut self, column: usize)
        requires { column < 10 }
        ensures { self.new ≡ with_effect self.old column Blocks }
    {
        self.met |= 0 < self.depths[column];
    }

    /// A head in a column.
    #[inline(always)]
    #[tactic(auto, unfolding(crate::specs::Phantoms::with_effect))]
    pub fn open(&mut self, column: usize)
        requires column_narrow { column < 10 }
        requires low { Low 4294967294 self.old }
        ensures { self.new ≡ with_effect self.old column Opens }
    {
        self.depths[column] += 1;
        self.heads += 1;
    }

    /// A tail in a column.
    #[inline(always)]
    #[tactic(auto, unfolding(crate::specs::Phantoms::with_effect))]
    pub fn close(&mut self, column: usize)
        requires column_narrow { column < 10 }
        requires low { Low 4294967294 self.old }
        ensures { self.new ≡ with_effect self.old column Closes }
    {
        self.depths[column] = self.depths[column].saturating_sub(1);
        self.tails += 1;
    }
}

// Whether a phantom depth of the first columns is left over.
fn is_left_over(p: Phantoms, lanes: usize) -> bool
    ensures { result ≡ some_column lanes (λ c. nat_lt 0 (phantom_at p c)) }
{
    p.depths.iter().take(lanes).any(|&depth| 0 < depth)
}

/// Whether the tally of the rows that were counted, of so many lanes, is counted anew.
pub fn is_corrected(p: Phantoms, lanes: usize) -> bool
    ensures { (rows : List Row) → Counts lanes rows p → result ≡ corrects lanes rows }
{
    (0 < p.heads) & ((p.heads != p.tails) | p.met | is_left_over(p, lanes))
}
