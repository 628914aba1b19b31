// The verdict on a set: each binding judged by itself, and the faults of the whole message.
#![tactic(auto)]

pub mod columns;
pub mod faults;
pub mod judge;
