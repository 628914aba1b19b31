// The shortest datagrams: definitions and theorems over the crate datagram, no code.
#![tactic(auto)]
