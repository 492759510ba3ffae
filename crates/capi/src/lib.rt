// The library for C: octets in, octets out, each function as include/kirruskabe.h describes it.
#![tactic(auto)]

ghost use Rattle.std.specs.Prelude.{◌≡◌, ◌++◌, ◌+◌, length};

pub mod coding;
pub mod events;
pub mod reading;
pub mod writing;

// The number of a wrong size.
const SIZE: u8 = foundation::refusal::Refusal::Size as u8;
