// The serial order of commits.
#![tactic(auto)]

mod laws;
mod line;
mod lineup;
mod past;

pub use laws::serializable_stands;
pub use line::line_of;
pub use past::Past;
