// The conversation: bytes of input to requests, and answers to text.
#![tactic(auto)]

mod answers;
mod buffer;
mod number;
mod output;
mod requests;
mod words;

pub use answers::{say, say_number};
pub use buffer::LineBuffer;
pub use output::Text;
pub use requests::parse;
