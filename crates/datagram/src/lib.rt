// SNMPv2c datagrams: a community-based message to our message form and back. `placing` reads and hands over, `sending` writes.
#![tactic(auto)]

pub mod placing;
pub mod reading;
