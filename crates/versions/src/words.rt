// Words that a program lends.
ghost use Rattle.std.specs.Prelude.{◌≡◌, length, replicate};
ghost use Rattle.versions.specs.Sizes.{sized};

// How many keys there are, how many versions there is room for in all, and how many places: place 0 is none.
pub const KEYS: usize = model::KEYS as usize;

pub const ROOM: u32 = 32768;

pub const PLACES: usize = 32769;

// A head for each key, and a word of each other kind for each place, in lent slices of 32-bit words linked by place
// (docs/DECISIONS.md, "Forms").
#[derive(Drop)]
pub struct Words<'a> {
    pub heads: &'a mut [u32],
    pub next: &'a mut [u32],
    pub number: &'a mut [u32],
    pub value: &'a mut [u32],
}

impl Words<'_> {
    // Whether the slices have the lengths that they should.
    pub fn sized(&self) -> bool
        ensures { result ≡ sized self.now }
    {
        self.heads.len() == KEYS
            && self.next.len() == PLACES
            && self.number.len() == PLACES
            && self.value.len() == PLACES
    }

    // Every head is 0 from then on.
    pub(crate) fn clear(&mut self)
        ensures heads { self.new.heads.now ≡ replicate (length self.old.heads.now) 0 }
        ensures rest { (self.new.next ≡ self.old.next) × (self.new.number ≡ self.old.number) × (self.new.value ≡ self.old.value) }
    {
        self.heads.fill(0);
    }
}
