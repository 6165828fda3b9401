ghost use Rattle.std.specs.Prelude.{◌≡◌, ◌↔◌, ◌^◌, ◌<◌, length, IsSome, IfSome};

use crate::{Answers, bytes, long, number};

/// A stored text with its lane number, its flags and the answers of each call. Four bytes say how long the text is, and the flags.
#[derive(Clone, Copy)]
pub struct Record<'a> {
    pub lanes: usize,
    pub text: &'a [u8],
    pub flags: &'a [u8],
    pub answers: Answers<'a>,
    pub ghost lengths: { (length text.now < 2 ^ 32) × (length flags.now < 2 ^ 32) },
}

impl<'a> Record<'a> {
    ghost use Rattle.stored.specs.Layout.{record_bytes, record_length};

    /// The record that all of `data` is, without the four bytes of its length.
    pub fn read(data: &'a [u8]) -> Option<Record<'a>>
        ensures value { IfSome result (λ r. «data».now ≡ record_bytes r) }
        ensures variant { IsSome result ↔ (record_length «data».now ≡ length «data».now) }
    {
        let mut rest = data;
        let text = number(&mut rest)?;
        let flags = number(&mut rest)?;
        let record = Record {
            lanes: long(&mut rest)? as usize,
            text: bytes(&mut rest, text)?,
            flags: bytes(&mut rest, flags)?,
            answers: Answers::read(&mut rest)?,
        };
        if !rest.is_empty() {
            return None;
        }
        Some(record)
    }
}
