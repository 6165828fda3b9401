// Zeros past the answer, in a slice that is lent for writing.
#![tactic(auto)]

ghost use Rattle.std.specs.Prelude.{◌≡◌, ◌≤◌, length, true, replicate};
ghost use Rattle.slices.specs.Zeroed.{zeroed};

use std::num::f32_to_bits_with_nan;

// How many elements are looked at, and then written or left, at a time. No more than so many are written without a look.
const PART: usize = 16384;

/// A number that is told from others by its bits: `-0.0` is not `0.0`.
pub trait Bits: Copy {
    /// The bits in which numbers differ from one, those of all of them together.
    type Difference: Copy;

    /// That there are none.
    ghost none: { Self.Difference → Type 0 };

    fn no_difference() -> Self::Difference;

    /// The bits before, and those in which this number differs.
    fn joined(self, it: Self, before: Self::Difference) -> Self::Difference
        ensures same { none result → self ≡ it }
        ensures none_before { none result → none before };

    fn is_none(difference: Self::Difference) -> bool
        ensures { result ≡ true → none difference };
}

impl Bits for u8 {
    type Difference = u8;

    ghost none = { λ d. d ≡ 0 };

    fn no_difference() -> u8 {
        0
    }

    #[tactic(auto, using(crate::proofs::Zeroed::same_where_none, crate::proofs::Zeroed::none_before))]
    fn joined(self, it: u8, before: u8) -> u8 {
        before | (self ^ it)
    }

    fn is_none(difference: u8) -> bool {
        difference == 0
    }
}

impl Bits for u16 {
    type Difference = u16;

    ghost none = { λ d. d ≡ 0 };

    fn no_difference() -> u16 {
        0
    }

    #[tactic(auto, using(crate::proofs::Zeroed::same_where_none, crate::proofs::Zeroed::none_before))]
    fn joined(self, it: u16, before: u16) -> u16 {
        before | (self ^ it)
    }

    fn is_none(difference: u16) -> bool {
        difference == 0
    }
}

impl Bits for u32 {
    type Difference = u32;

    ghost none = { λ d. d ≡ 0 };

    fn no_difference() -> u32 {
        0
    }

    #[tactic(auto, using(crate::proofs::Zeroed::same_where_none, crate::proofs::Zeroed::none_before))]
    fn joined(self, it: u32, before: u32) -> u32 {
        before | (self ^ it)
    }

    fn is_none(difference: u32) -> bool {
        difference == 0
    }
}

impl Bits for f32 {
    type Difference = u32;

    ghost none = { λ d. d ≡ 0 };

    fn no_difference() -> u32 {
        0
    }

    #[tactic(auto, using(crate::proofs::Zeroed::same_where_none, crate::proofs::Zeroed::none_before, crate::proofs::Zeroed::same_bits))]
    fn joined(self, it: f32, before: u32) -> u32 {
        before | (f32_to_bits_with_nan(self) ^ f32_to_bits_with_nan(it))
    }

    fn is_none(difference: u32) -> bool {
        difference == 0
    }
}

// Whether all are `it`: both halves in turns, since two runs of memory are read faster than one. The middle one of an odd number is in both. No turn
// ends the loop, so that it is compiled to vectors, but for floats, and it stands by itself, so that what the asking costs can be told from what else
// a call does.
#[inline(never)]
fn are_all<T: Bits>(part: &[T], it: T) -> bool
    ensures { result ≡ true → part.now ≡ replicate (length part.now) it }
{
    let after = part.len() / 2;
    let half = part.len() - after;
    let mut met = T::no_difference();
    for i in 0..half {
        met = part[i].joined(it, met);
        met = part[after + i].joined(it, met);
    }
    T::is_none(met)
}

// All of a part are `zero` afterwards. Where they are so already nothing is written: a page that no one wrote to yet takes no memory then.
fn zero_part<T: Bits>(part: &mut [T], zero: T)
    requires no_failure { T.Clone.is_infallible zero }
    requires itself { (x : T) → T.Clone.is_clone zero x → x ≡ zero }
    ensures { part.new ≡ replicate (length part.old) zero }
{
    if !are_all(part, zero) {
        part.fill(zero);
    }
}

/// `zero` from place `from` to the end. Its clone is asked to be itself, as that of a number is.
pub fn zero_past<T: Bits>(s: &mut [T], from: usize, zero: T)
    requires in_bounds { from ≤ length s.old }
    requires no_failure { T.Clone.is_infallible zero }
    requires itself { (x : T) → T.Clone.is_clone zero x → x ≡ zero }
    ensures { s.new ≡ zeroed zero from s.old }
{
    if s.len() - from <= PART {
        s[from..].fill(zero);
        return;
    }
    let mut at = from;
    while at < s.len() {
        let end = at + usize::min(s.len() - at, PART);
        zero_part(&mut s[at..end], zero);
        at = end;
    }
}
