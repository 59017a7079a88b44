// The check at commit: what the commits that are still of interest did, and whether with one more there would be a pivot.
#![tactic(auto)]

mod laws;
mod window;

pub use laws::{first_committer_wins, nobody_is_a_pivot};
pub use window::Window;
