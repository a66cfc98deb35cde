// Lines of text: the fields that a line is cut into, and the numbers that fields write.
#![tactic(auto)]

mod fields;
mod numbers;

pub use fields::Fields;
pub use numbers::number;
