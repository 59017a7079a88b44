// The writes of a commit, and the versions that they make.
ghost use Rattle.std.specs.Prelude.{◌≡◌, ℕ, ◌+◌, ◌≤◌, false};
ghost use Rattle.model.specs.Transactions.{outside};
ghost use Rattle.model.specs.Versions.{keys_of, committed};
ghost use Rattle.versions.specs.Lent.{view};

use crate::chains::Chains;
use model::{Entry, writes_key};

// How many versions the writes make: one for each key that they name. A write counts where no later one is of its key, and
// what is later is told by its place.
pub fn versions_of(writes: &[Entry]) -> usize
    ensures { result ≡ keys_of writes.now }
{
    let mut n = 0;
    for (i, w) in writes.iter().enumerate() {
        if !writes_key(&writes[i + 1..], w.key) {
            n += 1;
        }
    }
    n
}

impl Chains<'_> {
    // One version more for each key that the writes name, with its last value.
    pub fn commit(&mut self, number: u32, writes: &[Entry])
        requires keys { outside writes.now ≡ false }
        requires room { self.old.count + keys_of writes.now ≤ self.old.room }
        ensures count { self.new.count ≡ self.old.count + keys_of writes.now }
        ensures room { self.new.room ≡ self.old.room }
        ensures views { (k : ℕ) → view self.new k ≡ committed number writes.now k (view self.old k) }
    {
        for (i, w) in writes.iter().enumerate() {
            if !writes_key(&writes[i + 1..], w.key) {
                self.add(w.key as usize, number, w.value);
            }
        }
    }
}
