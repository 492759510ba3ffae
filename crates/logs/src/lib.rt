// Records of a log: what a receiver answers to each, in a line of octets.
#![tactic(auto)]

pub mod numbers;
pub mod recording;
