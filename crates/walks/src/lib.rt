// Comparing the reference's walk with a device's.
#![tactic(auto)]

pub mod compare;
pub mod contrast;
pub mod turn;
pub mod walk;
