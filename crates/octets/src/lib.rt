// Octet slices: numbers most significant octet first, parts, gaps, and sets of ports.
#![tactic(auto)]

pub mod gaps;
pub mod numbers;
pub mod parts;
pub mod ports;
