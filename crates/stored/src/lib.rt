// The stored form of a receiver: saving it, and restoring it from any octets.
#![tactic(auto)]

ghost use Rattle.std.specs.Prelude.{◌≡◌, get_or};
ghost use Rattle.transactions.specs.Flags.{flagged};
ghost use Rattle.receiver_state.specs.Receiver.{store_size};
ghost use Rattle.stored.specs.Stored.{held_octets};

use messages::message::{BLOCK, MOST_BLOCKS};
use receiver_state::STORE;
use transactions::flags::Flags;

pub mod restoring;
pub mod saving;
pub mod stamp;

// The store with zeros for the octets of blocks not held: a copy of whole blocks.
fn held_store(flags: Flags, store: &[u8; STORE]) -> [u8; STORE]
    ensures { result ≡ held_octets (flagged flags.octets) (λ i. get_or store.now i 0) 0 store_size }
{
    let mut held = [0u8; STORE];
    // By number, since a block's number says which flag is its.
    for n in 0..MOST_BLOCKS {
        if flags.is_set(n) {
            let at = BLOCK * n;
            let end = at + BLOCK;
            foundation::octets::put(&mut held, at, &store[at..end]);
        }
    }
    held
}
