// Orders: a block to be sent, read from three lines of text.
#![tactic(auto)]

mod parts;
mod reading;

pub use parts::{Lines, Order};
pub use reading::read_order;
