// Blocks: an open block takes contents, closing makes a closed block of it, and a closed block is sent, once.
#![tactic(auto)]

mod moves;

pub use moves::{ClosedBlock, OpenBlock};
