// The events of a receiver: headers, blocks and ends of attempt.
ghost use Rattle.std.specs.Prelude.{◌≡◌, ◌+◌, ◌*◌, ◌≤◌, length, true, false, cond, eqb};
ghost use Rattle.messages.specs.Messages.{block_size};
ghost use Rattle.messages.specs.Responses.{response_given};
ghost use Rattle.transactions.specs.Transactions.{belongs, same_data};
ghost use Rattle.receiver_state.specs.Receiver.{block_at, store_size, transaction_good};
ghost use Rattle.foundation.specs.Refusals.{refusal_number};
ghost use Rattle.receiver.specs.Events.{Refused, step_told, answered, on_header, put_block, taken, on_block, on_end};
ghost use Rattle.receiver.specs.Claims.{HeaderRefused, BlockRefused};
ghost use Rattle.receiver.specs.Parts.{on_heard, block_taken};

use foundation::refusal::Refusal;
use messages::message::{BLOCK, CHECK};
use messages::response::ResponseOctets;
use packets::block::Block;
use receiver_state::{Receiver, STORE};
use transactions::flags::Flags;
use transactions::header::Transaction;

// What is answered to a header or a block. A message is the store's first octets, this many.
#[derive(Clone, Copy, Debug, PartialEq, Eq)]
pub enum Answer {
    Opened,
    Repeat,
    Stored,
    Bad,
    Message(usize),
}

// The receiver after an event, and the answer or the refusal.
#[derive(Clone, Copy, Debug, PartialEq, Eq)]
pub struct Step {
    pub receiver: Receiver,
    pub answer: Result<Answer, Refusal>,
}

impl Step {
    // The receiver as it was, and a refusal.
    pub fn refused(rx: Receiver, refusal: Refusal) -> Step
        ensures { step_told result ≡ answered rx (Refused (refusal_number refusal)) }
    {
        Step {
            receiver: rx,
            answer: Err(refusal),
        }
    }
}

// ---- headers

// Whether a header of transaction t repeats the present one.
fn is_repeat(rx: Receiver, t: Transaction, full: bool) -> bool
    ensures { result ≡ cond (eqb rx.phase 0) false (belongs rx.transaction t full) }
{
    rx.phase != 0 && transactions::header::belongs_to(rx.transaction, t, full)
}

// A header that is for this receiver.
fn heard(rx: Receiver, t: Transaction, full: bool) -> Step
    ensures { step_told result ≡ on_heard rx t full }
{
    if is_repeat(rx, t, full) {
        return Step {
            receiver: rx,
            answer: Ok(Answer::Repeat),
        };
    }
    if !full {
        return Step::refused(rx, Refusal::NoTransaction);
    }
    Step {
        receiver: Receiver {
            own: rx.own,
            phase: 1,
            transaction: t,
            flags: Flags::none(),
        },
        answer: Ok(Answer::Opened),
    }
}

// The octets of a header.
pub fn on_header(rx: Receiver, header: &[u8]) -> Step
    ensures { (step_told result ≡ on_header rx header.now) × HeaderRefused rx (step_told result) }
{
    if !receiver_state::is_good(rx) {
        return Step::refused(rx, Refusal::Size);
    }
    match transactions::header::hear(rx.own, header) {
        Ok(h) => heard(rx, h.transaction, h.full),
        Err(refusal) => Step::refused(rx, refusal),
    }
}

// ---- blocks

// Whether these data octets are those of block n of the store.
fn same_block(store: &[u8], n: usize, octets: [u8; BLOCK]) -> bool
    requires { block_size * n + block_size ≤ length store.now }
    ensures { result ≡ same_data (block_at store.now n) octets }
{
    &store[BLOCK * n..BLOCK * n + BLOCK] == &octets[..]
}

// These data octets become those of block n of the store.
fn put_block(store: &mut [u8], n: usize, octets: [u8; BLOCK])
    requires { block_size * n + block_size ≤ length store.old }
    ensures { store.new ≡ put_block store.old n octets }
{
    foundation::octets::put(store, BLOCK * n, &octets);
}

// The block of these octets, where it is taken.
fn block_taken(rx: Receiver, store: &[u8], octets: &[u8]) -> Result<Block, Refusal>
    ensures { result ≡ block_taken rx store.now octets.now }
{
    if !receiver_state::is_good(rx) || store.len() != STORE {
        return Err(Refusal::Size);
    }
    let block = packets::block::read(octets)?;
    if rx.phase != 1 {
        return Err(Refusal::NoTransaction);
    }
    if rx.transaction.blocks <= block.serial {
        return Err(Refusal::Serial);
    }
    let n = block.serial as usize;
    if rx.flags.is_set(n) && !same_block(store, n, block.octets) {
        return Err(Refusal::OtherOctets);
    }
    Ok(block)
}

// What a new block leads to, which stands in the store and is flagged.
fn taken_block(rx: Receiver, store: &[u8]) -> Step
    requires { (transaction_good rx.transaction ≡ true) × (length store.now ≡ store_size) }
    ensures { step_told result ≡ taken rx store.now }
{
    let blocks = rx.transaction.blocks as usize;
    if !rx.flags.all_below(blocks) {
        return Step {
            receiver: rx,
            answer: Ok(Answer::Stored),
        };
    }
    let size = BLOCK * blocks;
    if !checks::message_good(&store[..size]) {
        return Step {
            receiver: Receiver {
                phase: 1,
                flags: Flags::none(),
                ..rx
            },
            answer: Ok(Answer::Bad),
        };
    }
    Step {
        receiver: Receiver { phase: 2, ..rx },
        answer: Ok(Answer::Message(size - CHECK - rx.transaction.pad as usize)),
    }
}

// The octets of a block. A new block is put into the store; otherwise the store stays as it is.
pub fn on_block(rx: Receiver, store: &mut [u8], octets: &[u8]) -> Step
    ensures { (step_told result ≡ (on_block rx store.old octets.now).step)
        × (store.new ≡ (on_block rx store.old octets.now).store)
        × BlockRefused rx store.old (step_told result) store.new }
{
    let block = match block_taken(rx, store, octets) {
        Ok(block) => block,
        Err(refusal) => return Step::refused(rx, refusal),
    };
    let n = block.serial as usize;
    if rx.flags.is_set(n) {
        return Step {
            receiver: rx,
            answer: Ok(Answer::Repeat),
        };
    }
    put_block(store, n, block.octets);
    let next = Receiver {
        phase: 1,
        flags: rx.flags.with(n),
        ..rx
    };
    taken_block(next, store)
}

// ---- ends of attempt

// The response to an end of attempt.
pub fn on_end(rx: Receiver) -> Result<ResponseOctets, Refusal>
    ensures { result ≡ response_given (on_end rx) }
{
    if receiver_state::is_good(rx) {
        transactions::response::respond(rx.own, rx.phase, rx.transaction, rx.flags)
    } else {
        Err(Refusal::Size)
    }
}
