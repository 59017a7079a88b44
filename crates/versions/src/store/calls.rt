// What is asked of the versions, and what is done with them.
ghost use Rattle.std.specs.Prelude.{◌≡◌, ℕ, ◌+◌, ◌≤◌, true, false, [], length};
ghost use Rattle.model.specs.Versions.{shown, newer, swept};
ghost use Rattle.versions.specs.Chain.{Fits, total};
ghost use Rattle.versions.specs.Words.{lent_by};
ghost use Rattle.versions.specs.Laws.{some_newer};
ghost use Rattle.versions.specs.Sizes.{room_in};
ghost use Rattle.versions.specs.Store.{held, size, spaces, room_for, Committed};
ghost use Rattle.versions.specs.History.{Holds, ShownBy, NewerBy, ConflictBy, CountBy, RoomBy, CommitBy, SweepBy, FewBy};

use super::Versions;
use crate::chains::Chains;
use crate::spare::Spare;
use crate::words::{ROOM, Words};
use crate::writes::versions_of;
use model::{Entry, Refusal, outside};

// How many versions there is room for: all, or none where a slice has another length than it should.
fn room_in(words: &Words, spare: &Words, stack: &[u32]) -> u32
    ensures room { result ≡ room_in words.now spare.now stack.now }
    ensures words { Fits (lent_by words.now) result }
    ensures spare { Fits (lent_by spare.now) result }
    ensures stack { result ≤ length stack.now }
{
    if words.sized() && spare.sized() && stack.len() == ROOM as usize {
        ROOM
    } else {
        0
    }
}

impl<'a> Versions<'a> {
    // No versions, in lent words, whatever these held. A second set of words and the stack are for the sweep.
    pub fn new(words: Words<'a>, spare: Words<'a>, stack: &'a mut [u32]) -> Versions<'a>
        ensures none { (k : ℕ) → held result k ≡ [] }
        ensures size { size result ≡ 0 }
        ensures spaces { spaces result ≡ room_in words.entry spare.entry stack.old }
        ensures history { (floor : ℕ) → Holds [] floor result }
    {
        let room = room_in(&words, &spare, stack);
        let chains = Chains::over(words, room);
        let to = Chains::over(spare, room);
        Versions {
            chains,
            spare: Spare { to, stack },
        }
    }
}

impl Versions<'_> {
    // What somebody is shown at the key for whom the first at commits are done; 0 for a key that there isn't.
    pub fn shown(&self, key: u32, at: u32) -> u32
        ensures value { result ≡ shown at (held self.now key) }
        ensures beyond { 4096 ≤ key → result ≡ 0 }
        ensures history { ShownBy self.now key at result }
    {
        self.chains.shown(key as usize, at)
    }

    // Whether a commit that somebody who began with begin did not see wrote the key; false for a key that there isn't.
    pub fn newer(&self, key: u32, begin: u32) -> bool
        ensures value { result ≡ newer begin (held self.now key) }
        ensures beyond { 4096 ≤ key → result ≡ false }
        ensures history { NewerBy self.now key begin result }
    {
        self.chains.newer(key as usize, begin)
    }

    // Whether a commit that somebody who began with begin did not see wrote a key of the writes.
    pub fn conflicts(&self, begin: u32, writes: &[Entry]) -> bool
        ensures value { result ≡ some_newer begin (held self.now) writes.now }
        ensures history { ConflictBy self.now writes.now begin result }
    {
        self.chains.conflicts(begin, writes)
    }

    // How many versions there are in all.
    pub fn count(&self) -> u32
        ensures count { result ≡ size self.now }
        ensures bound { result ≤ spaces self.now }
        ensures history { CountBy self.now result }
    {
        self.chains.count
    }

    // How many there is room for in all: 32,768, or 0 over slices of other lengths.
    pub fn room(&self) -> u32
        ensures room { result ≡ spaces self.now }
        ensures bound { result ≤ 32768 }
    {
        self.chains.room
    }

    // Whether there is room for the versions that the writes make.
    pub fn room_for(&self, writes: &[Entry]) -> bool
        ensures value { result ≡ room_for self.now writes.now }
        ensures enough { size self.now + length writes.now ≤ spaces self.now → result ≡ true }
        ensures history { RoomBy self.now writes.now result }
    {
        let free = (self.chains.room - self.chains.count) as usize;
        // mostly there is room for all writes, so that nobody has to look which of them are of one key
        if writes.len() <= free {
            return true;
        }
        versions_of(writes) <= free
    }

    // One version for each key that the writes name, in front of the key's others, with the value that the last of them left.
    // Where a key is out of bounds or there is no room, nothing is changed.
    pub fn commit(&mut self, number: u32, writes: &[Entry]) -> Result<(), Refusal>
        ensures done { Committed number writes.now self.old self.new result }
        ensures history { CommitBy number writes.now self.old self.new result }
    {
        if outside(writes) {
            return Err(Refusal::OutOfBounds);
        }
        if !self.room_for(writes) {
            return Err(Refusal::NoRoom);
        }
        self.chains.commit(number, writes);
        Ok(())
    }

    // Takes away from every key all versions behind the first whose number is below floor.
    pub fn sweep(&mut self, floor: u32)
        ensures views { (k : ℕ) → held self.new k ≡ swept floor (held self.old k) }
        ensures size { size self.new ≡ total (λ k. swept floor (held self.old k)) }
        ensures spaces { spaces self.new ≡ spaces self.old }
        ensures history { SweepBy floor self.old self.new }
        ensures few { FewBy floor self.old self.new }
    {
        self.spare.sweep(&mut self.chains, floor);
    }

    // No versions at all.
    pub fn clear(&mut self)
        ensures none { (k : ℕ) → held self.new k ≡ [] }
        ensures size { size self.new ≡ 0 }
        ensures spaces { spaces self.new ≡ spaces self.old }
        ensures history { (floor : ℕ) → Holds [] floor self.new }
    {
        self.chains.clear();
    }
}
