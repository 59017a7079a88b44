// Reads records.
ghost use Rattle.std.specs.Prelude.{◌≡◌, ◌+◌, ◌*◌, ◌<◌, ◌≤◌, ◌++◌, length, drop, map};
ghost use Rattle.model.specs.Transactions.{outside};
ghost use Rattle.journal.specs.Parsing.{entry_of, entries_of, parsed, outlined, laid, RecordIn};

use crate::layout::*;
use crate::types::{Fault, Record};
use model::{Entry, KEYS};

// The key and the value that six bytes write.
fn entry_of(bytes: &[u8; WRITE]) -> Entry
    ensures { result ≡ entry_of bytes.now }
{
    let [high, low, a, b, c, d] = *bytes;
    Entry {
        key: u16::from_be_bytes([high, low]) as u32,
        value: u32::from_be_bytes([a, b, c, d]),
    }
}

// The bytes of each write, behind the head.
fn parts(bytes: &[u8], count: usize) -> &[[u8; WRITE]]
    requires { 6 + 6 * count ≤ length bytes.now }
    ensures { map entry_of result.now ≡ entries_of count (drop 6 bytes.now) }
{
    let (parts, _) = bytes[HEAD..].as_chunks();
    &parts[..count]
}

// Whether a key is above 4,095.
fn stray(parts: &[[u8; WRITE]]) -> bool
    ensures { result ≡ outside (map entry_of parts.now) }
{
    parts
        .iter()
        .map(|part| entry_of(part))
        .any(|w| w.key >= KEYS)
}

// The record's writes go to the front of writes, each by its index: of what a `zip` of `iter_mut` wrote no clause says
// anything.
fn lay(parts: &[[u8; WRITE]], writes: &mut [Entry])
    requires { length parts.now ≤ length writes.old }
    ensures { writes.new ≡ map entry_of parts.now ++ drop (length parts.now) writes.old }
{
    for (i, part) in parts.iter().enumerate() {
        writes[i] = entry_of(part);
    }
}

// The record at the front, when it must have this number; None where the bytes end before it does.
pub fn front(bytes: &[u8], number: u32) -> Result<Option<Record>, Fault>
    ensures { result ≡ outlined (parsed number bytes.now) }
{
    let Some(&kind) = bytes.first() else {
        return Ok(None);
    };
    if kind != KIND {
        return Err(Fault::UnknownKind);
    }
    let Some((&[_, a, b, c, d, count], rest)) = bytes.split_first_chunk::<HEAD>() else {
        return Ok(None);
    };
    let count = count as usize;
    if rest.len() < WRITE * count {
        return Ok(None);
    }
    if u32::from_be_bytes([a, b, c, d]) != number {
        return Err(Fault::WrongNumber);
    }
    if count > MOST_WRITES {
        return Err(Fault::TooManyWrites);
    }
    if stray(parts(bytes, count)) {
        return Err(Fault::KeyOutOfBounds);
    }
    Ok(Some(Record {
        bytes: HEAD + WRITE * count,
        count,
    }))
}

// The same, and its writes go to the front of writes where it is whole; all else there is as it was.
// A whole record has the bytes that `encode` writes.
pub fn decode(bytes: &[u8], number: u32, writes: &mut [Entry; 64]) -> Result<Option<Record>, Fault>
    ensures answer { result ≡ outlined (parsed number bytes.now) }
    ensures writes { writes.new ≡ laid (parsed number bytes.now) writes.old }
    ensures whole { RecordIn number bytes.now (parsed number bytes.now) }
{
    let Some(found) = front(bytes, number)? else {
        return Ok(None);
    };
    lay(parts(bytes, found.count), writes);
    Ok(Some(found))
}
