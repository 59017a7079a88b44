// The versions of all keys, latest first, in lent slices of words linked by place.
#![tactic(auto)]

mod chains;
mod laws;
mod room;
mod spare;
mod store;
mod words;
mod writes;

pub use laws::laws_stand;
pub use room::{Room, Set};
pub use store::Versions;
pub use words::{KEYS, PLACES, ROOM, Words};
