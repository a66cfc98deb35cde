// One block sent and looked at: its order is read, the block passes, and what arrived is reported.
#![tactic(auto)]

mod passage;
mod task;

pub use orders::Lines;
pub use task::{answer, send_block};
