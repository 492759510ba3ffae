// Bursts: octets to fields and back.
#![tactic(auto)]

pub mod burst;
