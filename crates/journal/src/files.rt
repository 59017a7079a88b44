// Goes through the records of a file.
ghost use Rattle.std.specs.Prelude.{◌≡◌, ◌≤◌, length, drop};
ghost use Rattle.journal.specs.Parsing.{parsed, outlined};
ghost use Rattle.journal.specs.Files.{flawed, replayed, surveyed, ReadIn};

use crate::reader::front;
use crate::types::{Fault, Flaw, Record, Survey};

// The record at this byte, as `front` has it.
fn record_at(bytes: &[u8], at: usize, number: u32) -> Result<Option<Record>, Flaw>
    requires { at ≤ length bytes.now }
    ensures { result ≡ flawed at (outlined (parsed number (drop at bytes.now))) }
{
    front(&bytes[at..], number).map_err(|why| Flaw { at: at as u64, why })
}

// All records in bytes, the first of which must have this number. What is good has the bytes that `encode` writes.
pub fn survey(bytes: &[u8], number: u32) -> Result<Survey, Flaw>
    ensures answer { result ≡ surveyed number (replayed number bytes.now) }
    ensures records { ReadIn number bytes.now (replayed number bytes.now) }
{
    // records differ in size, so the place is counted
    let mut at = 0;
    let mut next = number;
    loop {
        let Some(found) = record_at(bytes, at, next)? else {
            break;
        };
        if next == u32::MAX {
            return Err(Flaw {
                at: at as u64,
                why: Fault::WrongNumber,
            });
        }
        next += 1;
        at += found.bytes;
    }
    Ok(Survey { bytes: at, next })
}
