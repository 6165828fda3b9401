// The stored samples of answers, as tests/vectors/README.md has them: what is taken off the front of their bytes, and the arrays to lend.
#![tactic(auto)]

ghost use Rattle.std.specs.Prelude.{◌≡◌, ◌↔◌, ◌≤◌, length, IsSome, IfSome};
ghost use Rattle.stored.specs.Layout.{Begins, number_bytes, long_bytes, number_at, long_at};

mod answer;
pub mod lent;
mod record;
pub mod sample;

pub use answer::{Answer, Answers};
pub use record::Record;

#[tactic(auto, unfolding(crate::specs::Layout::number_bytes, crate::specs::Layout::number_at), using(std::proofs::lemmas::Nat::le_bytes_4))]
fn number_of(bytes: [u8; 4]) -> u32
    ensures bytes { number_bytes result ≡ bytes }
    ensures number { result ≡ number_at bytes 0 }
{
    u32::from_le_bytes(bytes)
}

#[tactic(auto, unfolding(crate::specs::Layout::long_at))]
fn long_of(bytes: [u8; 8]) -> u64
    ensures bytes { long_bytes result ≡ bytes }
    ensures number { result ≡ long_at bytes 0 }
{
    u64::from_le_bytes(bytes)
}

/// The next number of four bytes, low byte first.
#[tactic(auto, unfolding(crate::specs::Layout::number_at))]
pub fn number(rest: &mut &[u8]) -> Option<u32>
    ensures value { IfSome result (λ n. Begins rest.old.now (number_bytes n) rest.new.now) }
    ensures number { IfSome result (λ n. n ≡ number_at rest.old.now 0) }
    ensures variant { IsSome result ↔ (4 ≤ length rest.old.now) }
{
    let (bytes, after) = rest.split_first_chunk::<4>()?;
    *rest = after;
    Some(number_of(*bytes))
}

/// The next number of eight bytes, low byte first.
pub fn long(rest: &mut &[u8]) -> Option<u64>
    ensures value { IfSome result (λ n. Begins rest.old.now (long_bytes n) rest.new.now) }
    ensures number { IfSome result (λ n. n ≡ long_at rest.old.now 0) }
    ensures variant { IsSome result ↔ (8 ≤ length rest.old.now) }
{
    let (bytes, after) = rest.split_first_chunk::<8>()?;
    *rest = after;
    Some(long_of(*bytes))
}

/// The next bytes, so many.
pub fn bytes<'a>(rest: &mut &'a [u8], n: u32) -> Option<&'a [u8]>
    ensures value { IfSome result (λ part. Begins rest.old.now part.now rest.new.now) }
    ensures size { IfSome result (λ part. length part.now ≡ n) }
    ensures variant { IsSome result ↔ (n ≤ length rest.old.now) }
{
    rest.split_off(..n as usize)
}

/// The next 256 bytes, which are figures.
pub fn figures<'a>(rest: &mut &'a [u8]) -> Option<&'a [u8; 256]>
    ensures value { IfSome result (λ f. Begins rest.old.now f.now rest.new.now) }
    ensures size { IfSome result (λ f. length f.now ≡ 256) }
    ensures variant { IsSome result ↔ (256 ≤ length rest.old.now) }
{
    let (figures, after) = rest.split_first_chunk::<256>()?;
    *rest = after;
    Some(figures)
}
