// Numbers as they are printed.
#![tactic(auto)]

mod hexadecimal;

pub use hexadecimal::Hex;
