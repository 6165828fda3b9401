// The file of a stored sample: its head, and its records one after the other.
ghost use Rattle.std.specs.Prelude.{◌≡◌, ◌↔◌, ◌+◌, ◌≤◌, IfOk, IsSome, IfSome, vec_len};
ghost use Rattle.stored.specs.Layout.{number_at, long_at, IsHead, IsRecordLength};

use crate::{long, number};
use std::alloc::Global;
use std::io;
use std::io::Read;

// No record is longer, in bytes.
const MOST_RECORD_BYTES: u32 = 65536;

/// The next n bytes, or as many as the input has.
pub fn read_up_to<R: Read>(alloc: Global, reader: &mut R, n: u32) -> io::Result<Vec<u8>> {
    let mut bytes = Vec::new(alloc);
    reader.by_ref().take(u64::from(n)).read_to_end(&mut bytes)?;
    Ok(bytes)
}

// The number of records in a head: mark, seed, number.
fn records_in(head: &[u8], mark: u64) -> Option<u32>
    ensures value { IfSome result (λ n. n ≡ long_at head.now 16) }
    ensures variant { IsSome result ↔ IsHead mark head.now }
{
    let mut rest = head;
    if long(&mut rest)? != mark {
        return None;
    }
    let _seed = long(&mut rest)?;
    u32::try_from(long(&mut rest)?).ok()
}

/// How many records the sample has, by its head; none where it does not begin with this mark.
pub fn read_head<R: Read>(alloc: Global, reader: &mut R, mark: u64) -> io::Result<Option<u32>> {
    let head = read_up_to(alloc, reader, 24)?;
    Ok(records_in(&head, mark))
}

// The length of a record without the four bytes of the length itself.
fn length_in(head: &[u8]) -> Option<u32>
    ensures value { IfSome result (λ n. n + 4 ≡ number_at head.now 0) }
    ensures variant { IsSome result ↔ IsRecordLength head.now }
{
    let mut rest = head;
    let len = number(&mut rest)?.checked_sub(4)?;
    if len > MOST_RECORD_BYTES {
        return None;
    }
    Some(len)
}

/// The next record, without the four bytes of its length; none where the file has less.
pub fn read_record<R: Read>(alloc: Global, reader: &mut R) -> io::Result<Option<Vec<u8>>>
    ensures { IfOk result (λ r. IfSome r (λ bytes. vec_len bytes ≤ 65536)) }
{
    let head = read_up_to(alloc, reader, 4)?;
    let Some(len) = length_in(&head) else {
        return Ok(None);
    };
    let record = read_up_to(alloc, reader, len)?;
    if record.len() != len as usize {
        return Ok(None);
    }
    Ok(Some(record))
}
