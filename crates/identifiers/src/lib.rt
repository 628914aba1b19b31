// Object identifiers in octets: their order, their index and its key, the object type and the target that they name.
#![tactic(auto)]

pub mod index;
pub mod order;
pub mod targets;
pub mod types;
