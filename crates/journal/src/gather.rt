// Records gathered before they are written to a file.
ghost use Rattle.std.specs.Prelude.{◌≡◌, ◌+◌, ◌≤◌, true, [], length, nat_le};

use crate::layout::LARGEST_RECORD;
use crate::types::Unfit;
use crate::writer::encode;
use model::Entry;

// Lent memory whose first len bytes are records, so that none is asked for when a commit comes.
#[derive(Drop)]
pub struct Journal<'a> {
    bytes: &'a mut [u8],
    len: usize,
    ghost within: { len ≤ length bytes.now },
}

impl<'a> Journal<'a> {
    ghost use Rattle.journal.specs.Held.{held_of, room_of};

    // No records, in this memory.
    pub fn over(bytes: &'a mut [u8]) -> Journal<'a>
        ensures held { held_of result ≡ [] }
        ensures room { room_of result ≡ length bytes.old }
    {
        Journal { bytes, len: 0 }
    }
}

impl Journal<'_> {
    ghost use Rattle.journal.specs.Held.{held_of, room_of, Appended, Gathered, FineOnOk, RoomForAny};

    // The commit's record goes behind the others; where it does not fit, has more than 64 writes or a key above
    // 4,095, all is as it was. Where the records so far are a file up to this number, they are one with the commit.
    pub fn append(&mut self, number: u32, writes: &[Entry]) -> Result<(), Unfit>
        ensures bytes { Appended number writes.now self.old self.new result }
        ensures file { Gathered number writes.now self.old self.new result }
        ensures fine { FineOnOk writes.now result }
    {
        let n = encode(&mut self.bytes[self.len..], number, writes)?;
        self.len += n;
        Ok(())
    }

    // How many more bytes have room.
    pub fn free(&self) -> usize
        ensures { result ≡ room_of self.now }
    {
        self.bytes.len() - self.len
    }

    // Whether there is room for the record of any commit that can be.
    pub fn has_room(&self) -> bool
        ensures room { result ≡ nat_le 390 (room_of self.now) }
        ensures any { result ≡ true → RoomForAny self.now }
    {
        self.free() >= LARGEST_RECORD
    }

    // The records so far.
    pub fn held(&self) -> &[u8]
        ensures { result.now ≡ held_of self.now }
    {
        &self.bytes[..self.len]
    }

    // No records again.
    pub fn clear(&mut self)
        ensures held { held_of self.new ≡ [] }
        ensures room { room_of self.new ≡ length (held_of self.old) + room_of self.old }
    {
        self.len = 0;
    }
}
