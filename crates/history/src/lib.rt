// The history rule, runs of the receiver over events and restarts, and the claim over every list of them, most of it definitions and proofs.
// The crate `logs` has the functions whose promises rest on the claim.
#![tactic(auto)]

pub mod sending;
