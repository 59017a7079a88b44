// The engine: sixteen slots over the versions and the check at commit.
#![tactic(auto)]

mod calls;
mod opening;
mod reader;
mod restore;
mod stage;
mod state;
mod store;

pub use journal::Flaw;
pub use opening::OpenError;
pub use reader::Reader;
pub use stage::Stage;
pub use state::Tables;
pub use store::Store;
pub use versions::{Room, Set};
