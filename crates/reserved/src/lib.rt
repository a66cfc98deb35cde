// Codes: the contents that are reserved, and synchronization units.
#![tactic(auto)]

mod calls;
mod numbers;

pub use calls::Codes;
pub use numbers::CodeNumbers;
