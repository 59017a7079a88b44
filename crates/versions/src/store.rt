// A store of versions in lent words, and what is always true of it.
ghost use Rattle.std.specs.Prelude.{◌≡◌};

use crate::chains::Chains;
use crate::spare::Spare;

mod calls;

// The versions of all keys. Over slices of other lengths than they should have there is no room for any. Both sets have the
// same room, so each step of either says that it leaves it.
#[derive(Drop)]
pub struct Versions<'a> {
    chains: Chains<'a>,
    spare: Spare<'a>,
    ghost ready: { spare.to.room ≡ chains.room },
}
