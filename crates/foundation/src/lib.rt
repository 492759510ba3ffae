// What every layer rests on: octets at a place, read and written, and the refusals of the table. Bits, the order of checks and their laws
// stand in specs/ and proofs/.
#![tactic(auto)]

pub mod octets;
pub mod refusal;
