// The words in which a program keeps the versions.
ghost use Rattle.std.specs.Prelude.{◌≡◌, ℕ, true, [], IfOk};
ghost use Rattle.versions.specs.Rooms.{SetSized, Sized};
ghost use Rattle.versions.specs.Sizes.{sized};
ghost use Rattle.versions.specs.Store.{held, size, spaces};
ghost use Rattle.versions.specs.History.{Holds};

use crate::store::Versions;
use crate::words::{KEYS, PLACES, ROOM, Words};
use std::alloc::{AllocError, Global};

// One set of words: what is lent as one slice each.
#[derive(Drop)]
pub struct Set {
    pub heads: Vec<u32>,
    pub next: Vec<u32>,
    pub number: Vec<u32>,
    pub value: Vec<u32>,
}

// Two sets, and the stack that a sweep needs.
#[derive(Drop)]
pub struct Room {
    pub first: Set,
    pub second: Set,
    pub stack: Vec<u32>,
}

impl Set {
    fn new(heap: Global) -> Result<Set, AllocError>
        ensures { IfOk result SetSized }
    {
        Ok(Set {
            heads: vec![in heap; 0u32; KEYS]?,
            next: vec![in heap; 0u32; PLACES]?,
            number: vec![in heap; 0u32; PLACES]?,
            value: vec![in heap; 0u32; PLACES]?,
        })
    }
}

impl Set {
    // The words, lent to a store of versions.
    pub fn lend(&mut self) -> Words<'_>
        ensures sized { SetSized self.old → sized result ≡ true }
        ensures heads { result.heads.now ≡ self.old.heads.items }
        ensures next { result.next.now ≡ self.old.next.items }
        ensures number { result.number.now ≡ self.old.number.items }
        ensures value { result.value.now ≡ self.old.value.items }
    {
        Words {
            heads: self.heads.as_mut_slice(),
            next: self.next.as_mut_slice(),
            number: self.number.as_mut_slice(),
            value: self.value.as_mut_slice(),
        }
    }
}

impl Room {
    // Words of the lengths that the versions want.
    pub fn new(heap: Global) -> Result<Room, AllocError>
        ensures { IfOk result Sized }
    {
        Ok(Room {
            first: Set::new(heap)?,
            second: Set::new(heap)?,
            stack: vec![in heap; 0u32; ROOM as usize]?,
        })
    }

    // A store of versions in these words, with none in it.
    pub fn versions(&mut self) -> Versions<'_>
        ensures none { (k : ℕ) → held result k ≡ [] }
        ensures size { size result ≡ 0 }
        ensures spaces { Sized self.old → spaces result ≡ 32768 }
        ensures history { (floor : ℕ) → Holds [] floor result }
    {
        Versions::new(
            self.first.lend(),
            self.second.lend(),
            self.stack.as_mut_slice(),
        )
    }
}
