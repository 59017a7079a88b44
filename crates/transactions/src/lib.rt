// Transactions: what one has read and written so far, kept in arrays, and what its reads look at.
#![tactic(auto)]

mod looks;
mod noted;
mod slot;
mod transaction;

pub use looks::{looks_at, reads_some};
pub use model::writes_key;
pub use noted::NotedRead;
pub use slot::Slot;
pub use transaction::Transaction;
