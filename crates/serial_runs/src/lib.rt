// Runs of Serials alone, with what is needed for their serial order.
#![tactic(auto)]

mod requests;
mod runs;
mod text;

pub use requests::{as_serial, only_serials};
pub use runs::Runs;
pub use text::say_order;
