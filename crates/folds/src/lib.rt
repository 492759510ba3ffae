// Divisions of many coefficients at once, for the generators of `checks`: by folds in words of 64 bits, and by a table of four bits.
#![tactic(auto)]

pub mod block;
pub mod header;
pub mod message;
