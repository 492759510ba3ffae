// A receiver, and which ones there can be.
#![tactic(auto)]

ghost use Rattle.std.specs.Prelude.{◌≡◌, cond, eqb};
ghost use Rattle.receiver_state.specs.Receiver.{fresh_receiver, fresh_for, fresh_given, transaction_good, transaction_none, receiver_good};
ghost use Rattle.receiver_state.specs.Parts.{flags_good};

use addresses::RadioAddress;
use foundation::refusal::Refusal;
use messages::message::{BLOCK, CHECK, MOST_BLOCKS};
use transactions::flags::Flags;
use transactions::header::Transaction;

// Octets of the message store that a receiver is lent.
pub const STORE: usize = BLOCK * MOST_BLOCKS;

// The receiver: own address, phase (0 no transaction, 1 open, 2 complete), transaction, and the flags of the held blocks.
// The phase stays a number: every event takes a receiver of any phase, and refuses with 1 one that there can't be. Its store stays beside it,
// lent to each event: callers keep it in memory of their own, of any size.
#[derive(Clone, Copy, Debug, PartialEq, Eq)]
pub struct Receiver {
    pub own: RadioAddress,
    pub phase: u8,
    pub transaction: Transaction,
    pub flags: Flags,
}

// No transaction: zeros for its fields.
const NONE: Transaction = Transaction {
    source: RadioAddress(0),
    sap: 0,
    ns: 0,
    pad: 0,
    blocks: 0,
};

// A receiver with no transaction.
#[tactic(auto, unfolding(crate::specs::Receiver::fresh_receiver, crate::specs::Receiver::no_transaction))]
pub fn idle(own: RadioAddress) -> Receiver
    ensures { result ≡ fresh_receiver own }
{
    Receiver {
        own,
        phase: 0,
        transaction: NONE,
        flags: Flags::none(),
    }
}

// A fresh receiver of an address; refused for an address over 24 bits.
#[tactic(auto, unfolding(crate::specs::Receiver::fresh_for, crate::specs::Receiver::fresh_given, foundation::specs::Refusals::outcome, foundation::specs::Refusals::refusal))]
pub fn fresh_for(own: RadioAddress) -> Result<Receiver, Refusal>
    ensures { result ≡ fresh_given (fresh_for own) }
{
    if own.fits() {
        Ok(idle(own))
    } else {
        Err(Refusal::Unwritable)
    }
}

// Whether the fields of a transaction are in range.
#[tactic(auto, unfolding(crate::specs::Receiver::transaction_good, foundation::specs::Order::all))]
fn transaction_good(t: Transaction) -> bool
    ensures { result ≡ transaction_good t }
{
    let blocks = t.blocks as usize;
    t.source.fits()
        && t.sap < 16
        && t.ns < 8
        && t.pad < 32
        && 1 <= blocks
        && blocks <= MOST_BLOCKS
        && t.pad as usize <= BLOCK * blocks - CHECK
}

// Whether the fields are those of the phase, which stays a number, as in the receiver.
#[tactic(auto, unfolding(crate::specs::Receiver::transaction_none, foundation::specs::Order::all))]
fn fields_good(phase: u8, t: Transaction) -> bool
    ensures { result ≡ cond (eqb phase 0) (transaction_none t) (transaction_good t) }
{
    if phase == 0 {
        t == NONE
    } else {
        transaction_good(t)
    }
}

// Whether the flags are those of the phase (a number, as in the receiver): not all while open, all when complete, none past the last block.
#[tactic(auto, unfolding(crate::specs::Parts::flags_good, crate::specs::Receiver::none_from, foundation::specs::Order::all))]
fn flags_good(phase: u8, blocks: usize, flags: Flags) -> bool
    ensures { result ≡ flags_good phase blocks flags.octets }
{
    let all = flags.all_below(blocks);
    let none_past = flags.none_from(blocks);
    if phase == 1 {
        none_past && !all
    } else if phase == 2 {
        none_past && all
    } else {
        none_past
    }
}

// Whether the receiver is one that there can be.
#[tactic(auto, unfolding(crate::specs::Receiver::receiver_good, crate::specs::Receiver::all_held, crate::specs::Parts::flags_good, foundation::specs::Order::all))]
pub fn is_good(rx: Receiver) -> bool
    ensures { result ≡ receiver_good rx }
{
    rx.own.fits()
        && rx.phase <= 2
        && fields_good(rx.phase, rx.transaction)
        && flags_good(rx.phase, rx.transaction.blocks as usize, rx.flags)
}
