// Writes records.
ghost use Rattle.std.specs.Prelude.{◌≡◌, ◌+◌, ◌*◌, ◌<◌, ◌≤◌, false, length};
ghost use Rattle.std.specs.List.{flat_map, AllByRecursion};
ghost use Rattle.model.specs.Transactions.{outside};
ghost use Rattle.journal.specs.Records.{written, entry_bytes, head_bytes, FineEntry, Encoded};
ghost use Rattle.journal.specs.Parsing.{ReadBack};

use crate::layout::*;
use crate::types::Unfit;
use model::{Entry, outside};

// Writes bytes at a place.
fn put(out: &mut [u8], at: usize, bytes: &[u8])
    requires { at + length bytes.now ≤ length out.old }
    ensures { out.new ≡ written at bytes.now out.old }
{
    out[at..at + bytes.len()].copy_from_slice(bytes);
}

fn put_entry(out: &mut [u8], at: usize, e: Entry)
    requires room { at + 6 ≤ length out.old }
    requires key { e.key ≤ 4095 }
    ensures bytes { out.new ≡ written at (entry_bytes e) out.old }
    ensures fine { FineEntry e }
{
    let key = e.key as u16;
    put(out, at, &key.to_be_bytes());
    put(out, at + 2, &e.value.to_be_bytes());
}

// The entries one behind the other, each by its index: of what was written through `chunks_exact_mut` no clause says anything.
fn put_entries(out: &mut [u8], at: usize, entries: &[Entry])
    requires room { at + 6 * length entries.now ≤ length out.old }
    requires keys { outside entries.now ≡ false }
    ensures bytes { out.new ≡ written at (flat_map entry_bytes entries.now) out.old }
    ensures fine { AllByRecursion FineEntry entries.now }
{
    for (i, e) in entries.iter().enumerate() {
        put_entry(out, at + WRITE * i, *e);
    }
}

// What stands in front of the writes.
fn put_head(out: &mut [u8], number: u32, count: u8)
    requires { 6 ≤ length out.old }
    ensures { out.new ≡ written 0 (head_bytes number count) out.old }
{
    out[0] = KIND;
    put(out, 1, &number.to_be_bytes());
    out[5] = count;
}

// The commit's record goes to the start of out, and the answer is how many bytes it has; or why it gets none, and nothing
// is changed. What is written is read back.
pub fn encode(out: &mut [u8], number: u32, writes: &[Entry]) -> Result<usize, Unfit>
    ensures bytes { Encoded number writes.now out.old out.new result }
    ensures back { ReadBack number writes.now out.new result }
{
    let count = writes.len();
    if count > MOST_WRITES {
        return Err(Unfit::TooManyWrites);
    }
    let size = HEAD + WRITE * count;
    if out.len() < size {
        return Err(Unfit::NoRoom);
    }
    if outside(writes) {
        return Err(Unfit::KeyOutOfBounds);
    }
    put_head(out, number, count as u8);
    put_entries(out, HEAD, writes);
    Ok(size)
}
