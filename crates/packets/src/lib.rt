// Headers and blocks: octets to fields and back.
#![tactic(auto)]

pub mod block;
pub mod header;
