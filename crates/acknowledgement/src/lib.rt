// Acknowledgement units.
#![tactic(auto)]

mod calls;
mod fields;

pub use calls::Acu;
pub use fields::AcuFields;
