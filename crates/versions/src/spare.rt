// A second set of words, into which the versions that stay are copied.
ghost use Rattle.std.specs.Prelude.{◌≡◌, ℕ, ◌+◌, ◌<◌, ◌≤◌, [], length, if◌then◌else◌, nat_eq};
ghost use Rattle.model.specs.Versions.{swept};

use crate::chains::Chains;
use crate::words::KEYS;

// The stack is lent, with a word for each version that there is room for.
#[derive(Drop)]
pub struct Spare<'a> {
    pub to: Chains<'a>,
    pub stack: &'a mut [u32],
    ghost deep: { to.room ≤ length stack.now },
}

impl Spare<'_> {
    ghost use Rattle.versions.specs.Lent.{view};

    // Copies those of a key's versions that stay when it is swept at floor.
    fn copy(&mut self, from: &Chains, key: usize, floor: u32)
        requires key { key < 4096 }
        requires same { self.old.to.room ≡ from.now.room }
        requires none { view self.old.to key ≡ [] }
        requires room { self.old.to.count + length (swept floor (view from.now key)) ≤ self.old.to.room }
        ensures room { self.new.to.room ≡ self.old.to.room }
        ensures stack { length self.new.stack.now ≡ length self.old.stack.now }
        ensures views { (k : ℕ) → view self.new.to k ≡ (if nat_eq k key then swept floor (view from.now key) else view self.old.to k) }
    {
        let n = from.kept(key, floor, self.stack);
        self.to.add_all(key, from, &self.stack[..n]);
    }
}

impl<'a> Spare<'a> {
    ghost use Rattle.versions.specs.Lent.{view};

    // Takes away from every key all versions behind the first whose number is below floor: those that stay are copied,
    // and what held them is spare from then on.
    pub fn sweep(&mut self, chains: &mut Chains<'a>, floor: u32)
        requires { self.old.to.room ≡ chains.old.room }
        ensures room { chains.new.room ≡ chains.old.room }
        ensures spare { self.new.to.room ≡ chains.old.room }
        ensures stack { length self.new.stack.now ≡ length self.old.stack.now }
        ensures views { (k : ℕ) → view chains.new k ≡ swept floor (view chains.old k) }
    {
        self.to.clear();
        for key in 0..KEYS {
            self.copy(chains, key, floor);
        }
        std::mem::swap(chains, &mut self.to);
    }
}
