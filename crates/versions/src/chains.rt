// The versions of all keys in lent slices of words.
ghost use Rattle.std.specs.Prelude.{◌≡◌, ℕ, ◌+◌, ◌<◌, ◌≤◌, [], ◌++◌, map, length, take, if◌then◌else◌, nat_eq, slice_index};
ghost use Rattle.model.specs.Versions.{shown, newer, swept};
ghost use Rattle.versions.specs.Chain.{Fits, Sound, version_at, added};
ghost use Rattle.versions.specs.Words.{lent_by};
ghost use Rattle.versions.specs.Laws.{some_newer};

use crate::words::Words;
use model::Entry;

// heads has for each key the place of its latest version, and number, value and next have at each place
// the version there and the place of the next older one. Place 0 is none, and the places 1 to count are in use,
// of those up to room.
#[derive(Drop)]
pub struct Chains<'a> {
    pub words: Words<'a>,
    pub count: u32,
    pub room: u32,
    ghost good: { Sound (lent_by words) count room },
}

impl<'a> Chains<'a> {
    ghost use Rattle.versions.specs.Lent.{view};

    // No versions, in words that have the room.
    pub fn over(mut words: Words<'a>, room: u32) -> Chains<'a>
        requires { Fits (lent_by words) room }
        ensures room { result.room ≡ room }
        ensures views { (k : ℕ) → view result k ≡ [] }
    {
        words.clear();
        Chains {
            words,
            count: 0,
            room,
        }
    }
}

impl Chains<'_> {
    ghost use Rattle.versions.specs.Lent.{inside, view};

    // The place of the key's latest version, or 0.
    fn head(&self, key: usize) -> usize
        ensures { result ≡ slice_index self.now.words.heads.now key }
    {
        self.words.heads.get(key).copied().unwrap_or(0) as usize
    }

    // What somebody is shown at the key for whom the first at commits are done: a walk from place to place, left at the first
    // version that was there by then.
    pub fn shown(&self, key: usize, at: u32) -> u32
        ensures { result ≡ shown at (view self.now key) }
    {
        let mut place = self.head(key);
        let found = loop {
            if place == 0 || self.words.number[place] < at {
                break place;
            }
            place = self.words.next[place] as usize;
        };
        if found == 0 {
            0
        } else {
            self.words.value[found]
        }
    }

    // Whether the key's latest version was left by a commit that somebody who began with begin did not see.
    pub fn newer(&self, key: usize, begin: u32) -> bool
        ensures { result ≡ newer begin (view self.now key) }
    {
        let place = self.head(key);
        place != 0 && begin <= self.words.number[place]
    }

    // Whether that is so of a key of the writes.
    pub fn conflicts(&self, begin: u32, writes: &[Entry]) -> bool
        ensures { result ≡ some_newer begin (view self.now) writes.now }
    {
        writes.iter().any(|w| self.newer(w.key as usize, begin))
    }

    // One version more in front of the key's. Each clause names the bound of the key: a type for keys would be taken apart at
    // each slice.
    pub fn add(&mut self, key: usize, number: u32, value: u32)
        requires key { key < 4096 }
        requires room { self.old.count < self.old.room }
        ensures count { self.new.count ≡ self.old.count + 1 }
        ensures room { self.new.room ≡ self.old.room }
        ensures views { (k : ℕ) → view self.new k ≡ added key number value (view self.old) k }
    {
        let place = self.count + 1;
        let at = place as usize;
        self.words.next[at] = self.words.heads[key];
        self.words.number[at] = number;
        self.words.value[at] = value;
        self.words.heads[key] = place;
        self.count = place;
    }

    // The versions at the places of `from`, in front of the key's.
    pub(crate) fn add_all(&mut self, key: usize, from: &Chains, places: &[u32])
        requires key { key < 4096 }
        requires same { self.old.room ≡ from.now.room }
        requires used { (i : ℕ) → i < length places.now → slice_index places.now i ≤ from.now.count }
        requires room { self.old.count + length places.now ≤ self.old.room }
        ensures count { self.new.count ≡ self.old.count + length places.now }
        ensures room { self.new.room ≡ self.old.room }
        ensures views { (k : ℕ) → view self.new k ≡ (if nat_eq k key then map (version_at (inside from.now)) places.now ++ view self.old key else view self.old k) }
    {
        for place in places.iter().rev() {
            let place = *place as usize;
            self.add(key, from.words.number[place], from.words.value[place]);
        }
    }

    // The places of those of the key's versions that stay when it is swept at floor, the latest first, and how many. The walk
    // goes from place to place, and the stack is lent with its whole length.
    pub fn kept(&self, key: usize, floor: u32, stack: &mut [u32]) -> usize
        requires { self.now.room ≤ length stack.old }
        ensures few { result ≤ self.now.room }
        ensures used { (i : ℕ) → i < result → slice_index stack.new i ≤ self.now.count }
        ensures kept { map (version_at (inside self.now)) (take result stack.new) ≡ swept floor (view self.now key) }
    {
        let mut place = self.head(key);
        let mut n = 0;
        loop {
            if place == 0 {
                break n;
            }
            stack[n] = place as u32;
            n += 1;
            if self.words.number[place] < floor {
                break n;
            }
            place = self.words.next[place] as usize;
        }
    }

    // No versions at all.
    pub fn clear(&mut self)
        ensures room { self.new.room ≡ self.old.room }
        ensures views { (k : ℕ) → view self.new k ≡ [] }
    {
        self.words.clear();
        self.count = 0;
    }
}
