// Reception: datagrams at one receiver. What a datagram is, is decided here and nowhere else.
#![tactic(auto)]

ghost use Rattle.std.specs.Prelude.{◌≡◌};
ghost use Rattle.reception.specs.Reception.{arrival_of, arrival_given, received_told, on_datagram};
ghost use Rattle.reception.specs.Claims.{Arrives};

use bursts::burst::Kind;
use foundation::refusal::Refusal;
use receiver::event::Step;
use receiver_state::{Receiver, STORE};

// What a datagram brings: the kind of its burst and the twelve octets that it carries.
#[derive(Clone, Copy, Debug, PartialEq, Eq)]
pub struct Arrival {
    pub kind: Kind,
    pub octets: [u8; 12],
}

// What a datagram brings.
pub fn arrival_of(datagram: &[u8]) -> Result<Arrival, Refusal>
    ensures { result ≡ arrival_given (arrival_of datagram.now) }
{
    let d = datagrams::read(datagram)?;
    // By a variable: the borrow checker doesn't take an array that one field gives another yet.
    let octets = d.info;
    Ok(Arrival {
        kind: Kind::from(d.datatype),
        octets,
    })
}

// A datagram at a receiver: the receiver's step at its header or its block, whose refusal is in the step; or a refusal before any receiver.
pub fn on_datagram(rx: Receiver, store: &mut [u8], datagram: &[u8]) -> Result<Step, Refusal>
    ensures { (received_told result rx ≡ (on_datagram rx store.old datagram.now).received)
        × (store.new ≡ (on_datagram rx store.old datagram.now).store)
        × Arrives rx store.old datagram.now (received_told result rx) store.new }
{
    if !receiver_state::is_good(rx) || store.len() != STORE {
        return Err(Refusal::Size);
    }
    let a = arrival_of(datagram)?;
    match a.kind {
        Kind::Header => Ok(receiver::event::on_header(rx, &a.octets)),
        Kind::Block => Ok(receiver::event::on_block(rx, store, &a.octets)),
        Kind::Other => Err(Refusal::DataType),
    }
}
