// Commit records as bytes: written into lent memory, gathered, and read again.
#![tactic(auto)]

mod files;
mod gather;
mod laws;
mod layout;
mod reader;
mod types;
mod writer;

pub use files::survey;
pub use gather::Journal;
pub use laws::laws_stand;
pub use layout::LARGEST_RECORD;
pub use reader::{decode, front};
pub use types::{Fault, Flaw, Record, Survey, Unfit};
pub use writer::encode;
