// Messages and responses, laid out in headers and blocks.
#![tactic(auto)]

pub mod message;
pub mod response;
