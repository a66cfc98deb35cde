// Words: what a signal unit is on a line, how a content is made into a word and read back, and the refusals of every call.
#![tactic(auto)]

mod codec;
mod examples;
mod refusals;

pub use codec::{Content, invert_last_bit, read};
pub use examples::read_examples;
pub use refusals::Refusal;
