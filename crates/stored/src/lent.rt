// Arrays to lend to an entry: they hold the answers of every text of at most 4,095 bytes, and other numbers before the call.
ghost use Rattle.std.specs.Prelude.{◌≡◌, length};
ghost use Rattle.stored.specs.Lent.{lent_text, lent_densities, lent_spacing, lent_beats, lent_work, lent_notes, lent_figures, lent_chart};

/// For minimised text.
#[tactic(auto, unfolding(crate::specs::Lent::lent_text))]
pub fn text() -> [u8; 4096]
    ensures value { result ≡ lent_text }
    ensures size { 4096 ≡ length result }
{
    [165; 4096]
}

/// For densities, one a measure.
#[tactic(auto, unfolding(crate::specs::Lent::lent_densities))]
pub fn densities() -> [u32; 2049]
    ensures value { result ≡ lent_densities }
    ensures size { 2049 ≡ length result }
{
    [2779096485; 2049]
}

/// For the spacing, a byte a measure.
#[tactic(auto, unfolding(crate::specs::Lent::lent_spacing))]
pub fn spacing() -> [u8; 2049]
    ensures value { result ≡ lent_spacing }
    ensures size { 2049 ≡ length result }
{
    [165; 2049]
}

/// For the beats of rows.
#[tactic(auto, unfolding(crate::specs::Lent::lent_beats))]
pub fn beats() -> [f32; 820]
    ensures value { result ≡ lent_beats }
    ensures size { 820 ≡ length result }
{
    [1.5; 820]
}

/// The work slice.
#[tactic(auto, unfolding(crate::specs::Lent::lent_work))]
pub fn work() -> [u16; 820]
    ensures value { result ≡ lent_work }
    ensures size { 820 ≡ length result }
{
    [42405; 820]
}

/// For note records of ten bytes.
#[tactic(auto, unfolding(crate::specs::Lent::lent_notes))]
pub fn notes() -> [u8; 40960]
    ensures value { result ≡ lent_notes }
    ensures size { 40960 ≡ length result }
{
    [165; 40960]
}

/// For the 32 figures of a call on a text.
#[tactic(auto, unfolding(crate::specs::Lent::lent_figures))]
pub fn figures() -> [u64; 32]
    ensures value { result ≡ lent_figures }
    ensures size { 32 ≡ length result }
{
    [165; 32]
}

/// For the three numbers of a chart inside an SM file.
#[tactic(auto, unfolding(crate::specs::Lent::lent_chart))]
pub fn chart() -> [u64; 3]
    ensures value { result ≡ lent_chart }
    ensures size { 3 ≡ length result }
{
    [165; 3]
}
