// Answers to an order: what was seen of the block that was sent, or what is wrong with the order, and how each is printed.
#![tactic(auto)]

mod counting;
mod faults;
mod parts;
mod showing;

pub use parts::{Arrival, Fault, Report, Trouble};
pub use showing::Printed;
