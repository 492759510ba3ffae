// What callers in C see: fields in octets, and answers in lent memory.
#![tactic(auto)]

pub mod fields;
pub mod lent;
