// Restoring a receiver from its stored form.
ghost use Rattle.std.specs.Prelude.{◌≡◌, ◌≢◌, ◌*◌, true, length, MatchOption};
ghost use Rattle.foundation.specs.Refusals.{outcome};
ghost use Rattle.receiver_state.specs.Receiver.{store_size, receiver_good};
ghost use Rattle.stored.specs.Stored.{stored_block, block0, block1, zeros_at, zero_part, receiver_in, store_in, zeros_from, clear, restored, restored_given, after_restore};
ghost use Rattle.stored.specs.Claims.{SavesBack};
ghost use Rattle.stored.specs.Parts.{marked, message_checked, layout_kept, blocks_number};

use crate::saving::{CHECKED, FIRST_PART, STORE_AT_0, STORE_AT_1, STORED_BLOCK, ZEROS, ZEROS_AT};
use addresses::RadioAddress;
use foundation::refusal::Refusal;
use messages::message::BLOCK;
use receiver_state::{Receiver, STORE};
use transactions::flags::{FLAG_OCTETS, Flags};
use transactions::header::Transaction;

// ---- what a stored form holds

// Its two blocks; none where it has another size.
fn blocks_of(form: &[u8]) -> Option<(&[u8; STORED_BLOCK], &[u8; STORED_BLOCK])>
    ensures { MatchOption result (length form.now ≢ 2 * stored_block)
        (λ p. (length form.now ≡ 2 * stored_block) × (p.0.now ≡ block0 form.now) × (p.1.now ≡ block1 form.now)) }
{
    let (first, rest) = form.split_first_chunk::<STORED_BLOCK>()?;
    let second = rest.as_array::<STORED_BLOCK>()?;
    Some((first, second))
}

// The receiver in block 0.
#[tactic(auto, unfolding(crate::specs::Stored::receiver_in))]
fn receiver_in(a: &[u8; STORED_BLOCK]) -> Receiver
    ensures { result ≡ receiver_in a.now }
{
    let own = addresses::address_at(a, 5);
    let source = addresses::address_at(a, 8);
    let transaction = Transaction {
        source,
        sap: a[11],
        ns: a[12],
        pad: a[13],
        blocks: a[14],
    };
    let mut octets = [0u8; FLAG_OCTETS];
    octets.copy_from_slice(&a[15..STORE_AT_0]);
    Receiver {
        own,
        phase: a[4],
        transaction,
        flags: Flags { octets },
    }
}

// The store in the two blocks.
fn store_in(a: &[u8; STORED_BLOCK], b: &[u8; STORED_BLOCK]) -> [u8; STORE]
    ensures { result ≡ store_in a.now b.now }
{
    let mut store = [0u8; STORE];
    foundation::octets::put(&mut store, 0, &a[STORE_AT_0..CHECKED]);
    foundation::octets::put(&mut store, FIRST_PART, &b[STORE_AT_1..ZEROS_AT]);
    store
}

// ---- the rules of the layout

// Whether block 0 starts with 1 and 0, block 1 with 1 and 1, and both go on with one stamp.
fn is_marked(a: &[u8], b: &[u8]) -> bool
    ensures { result ≡ marked a.now b.now }
{
    let first = addresses::number_at(a, 0);
    let second = addresses::number_at(b, 0);
    let stamp = first % 0x1_0000;
    first == 0x100_0000 + stamp && second == 0x101_0000 + stamp
}

// Whether the octets of blocks not held are zero.
fn is_clear(rx: Receiver, store: &[u8; STORE]) -> bool
    ensures { result ≡ clear rx store.now store_size }
{
    crate::held_store(rx.flags, store) == *store
}

// Whether the octets behind the store are zero.
fn ends_in_zeros(b: &[u8; STORED_BLOCK]) -> bool
    ensures { result ≡ zeros_from b.now zeros_at zero_part }
{
    b[ZEROS_AT..CHECKED] == [0u8; ZEROS]
}

// Whether the message check is good, if the transaction is complete. That there can be the receiver is asked, not said by its type, which has
// every value, since every event takes any.
fn is_checked(rx: Receiver, store: &[u8; STORE]) -> bool
    requires { receiver_good rx ≡ true }
    ensures { result ≡ message_checked rx store.now }
{
    let size = BLOCK * (rx.transaction.blocks as usize);
    rx.phase != 2 || checks::message_good(&store[..size])
}

// Whether every rule of the layout is kept.
#[tactic(auto, unfolding(crate::specs::Parts::layout_kept, foundation::specs::Order::all))]
fn layout_kept(
    a: &[u8; STORED_BLOCK],
    b: &[u8; STORED_BLOCK],
    rx: Receiver,
    store: &[u8; STORE],
) -> bool
    ensures { result ≡ layout_kept a.now b.now rx store.now }
{
    is_marked(a, b)
        && receiver_state::is_good(rx)
        && is_clear(rx, store)
        && ends_in_zeros(b)
        && is_checked(rx, store)
}

// ---- restoring

// Two blocks, and what was read in them: refused where a check fails, the layout is broken, or the address is not the own one.
#[tactic(auto, unfolding(crate::specs::Parts::blocks_number, foundation::specs::Order::first_failed, foundation::specs::Refusals::outcome, foundation::specs::Refusals::refusal))]
fn check_blocks(
    own: RadioAddress,
    a: &[u8; STORED_BLOCK],
    b: &[u8; STORED_BLOCK],
    read: Receiver,
    store: &[u8; STORE],
) -> Result<(), Refusal>
    ensures { result ≡ outcome (blocks_number own a.now b.now read store.now) tt }
{
    if !(checks::header_good(0, a) && checks::header_good(0, b)) {
        return Err(Refusal::StoredCheck);
    }
    if !layout_kept(a, b, read, store) {
        return Err(Refusal::StoredLayout);
    }
    if read.own != own {
        return Err(Refusal::OtherAddress);
    }
    Ok(())
}

// Restores a receiver and its store from any octets; a refusal leaves the store as it was.
pub fn restore(rx: Receiver, form: &[u8], store: &mut [u8]) -> Result<Receiver, Refusal>
    ensures { (result ≡ restored_given (restored rx form.now store.old))
        × (store.new ≡ after_restore rx form.now store.old)
        × SavesBack rx form.now store.old }
{
    let Some((a, b)) = blocks_of(form) else {
        return Err(Refusal::Size);
    };
    if !receiver_state::is_good(rx) || store.len() != STORE {
        return Err(Refusal::Size);
    }
    let receiver = receiver_in(a);
    let octets = store_in(a, b);
    check_blocks(rx.own, a, b, receiver, &octets)?;
    foundation::octets::put(store, 0, &octets);
    Ok(receiver)
}
