// Events on the stored form, for gateways that keep nothing else: restore, act, save. A refusal changes nothing. Form, stamp and line stay
// apart: C lends or gives each by itself.
#![tactic(auto)]

ghost use Rattle.std.specs.Prelude.{◌≡◌, ◌≢◌, true, false, Ok, Err, ◌^◌, ◌<◌, replicate};
ghost use Rattle.addresses.specs.Octets.{address_at};
ghost use Rattle.foundation.specs.Refusals.{outcome};
ghost use Rattle.foundation.specs.declared.refusal.Refusal.TheVariants.{Size};
ghost use Rattle.history.specs.History.{header, block, ended};
ghost use Rattle.history.specs.Claims.{Octets};
ghost use Rattle.logs.specs.Log.{record_of, state_of};
ghost use Rattle.receiver_state.specs.Receiver.{store_size, fresh_receiver};
ghost use Rattle.stored.specs.Stored.{restored, restored_given, after_restore};
ghost use Rattle.stored.specs.Claims.{Savable};
ghost use Rattle.forms.specs.Forms.{fresh_number, after_fresh, an_event, a_datagram, event_number, form_after, line_after};
ghost use Rattle.forms.specs.Claims.{FormClaim};
ghost use Rattle.forms.specs.Parts.{AnEvent, Answered, ActsAs, size_number, kind_number};

use addresses::RadioAddress;
use bursts::burst::Kind;
use foundation::refusal::Refusal;
use logs::numbers::{self, Code};
use logs::recording::LINE;
use receiver_state::{Receiver, STORE};
use stored::saving::FORM;
use stored::stamp::Stamp;

// The kinds of records that are events.
const HEADER: u8 = numbers::Kind::Header as u8;

const BLOCK: u8 = numbers::Kind::Block as u8;

const END: u8 = numbers::Kind::End as u8;

// The kind that no record has.
const NONE: u8 = numbers::Kind::Other as u8;

// The stored form of a fresh receiver; refused for lent octets of another size, and for an address over 24 bits.
pub fn fresh_form(own: RadioAddress, stamp: Stamp, form: &mut [u8]) -> Result<(), Refusal>
    ensures { (result ≡ outcome (fresh_number own form.old) tt) × (form.new ≡ after_fresh own stamp.high stamp.low form.old)
        × (own.0 < 2 ^ 24 → FormClaim own stamp.high stamp.low) }
{
    if form.len() != FORM {
        return Err(Refusal::Size);
    }
    let rx = receiver_state::fresh_for(own)?;
    let store = [0u8; STORE];
    stored::saving::save(rx, &store, stamp, form)
}

// ---- one event

// What is given for a number of the table: a line in octets holds the number of its refusal.
#[tactic(auto, unfolding(foundation::specs::Refusals::outcome, foundation::specs::Refusals::refusal, foundation::specs::Refusals::numbered))]
fn given(number: u8) -> Result<(), Refusal>
    ensures { result ≡ outcome number tt }
{
    if number == 0 {
        return Ok(());
    }
    Err(Refusal::try_from(number).unwrap_or(Refusal::OtherAddress))
}

// The receiver of a stored form, over a store of zeros that gets its octets; refused for a form that is none.
fn take_form(form: &[u8; FORM], store: &mut [u8; STORE]) -> Result<Receiver, Refusal>
    requires { store.old ≡ replicate store_size 0 }
    ensures { (result ≡ restored_given (restored (fresh_receiver (address_at form.now 5)) form.now (replicate store_size 0)))
        × (store.new ≡ after_restore (fresh_receiver (address_at form.now 5)) form.now (replicate store_size 0)) }
{
    let fresh = receiver_state::idle(addresses::address_at(form, 5));
    stored::restoring::restore(fresh, form, store)
}

// An event of this kind and these octets, at a receiver that can be saved. A refusal changes neither the form nor the line. The kind stays a
// number, as a record of a log has it.
fn act_on(
    form: &mut [u8; FORM],
    stamp: Stamp,
    rx: Receiver,
    store: &mut [u8; STORE],
    kind: u8,
    octets: &[u8],
    line: &mut [u8; LINE],
) -> Result<(), Refusal>
    requires { Savable rx store.old × Octets rx.flags.octets × AnEvent kind octets.now }
    ensures { Answered (state_of rx store.old) (record_of kind octets.now) stamp.high stamp.low form.old line.old
        result form.new line.new }
{
    let mut answer = [0u8; LINE];
    let next = logs::recording::record(rx, store, kind, octets, &mut answer)?;
    if answer[0] == Code::Refused.number() {
        return given(answer[3]);
    }
    stored::saving::save(next, store, stamp, form)?;
    foundation::octets::put(line, 0, &answer);
    Ok(())
}

// Whether a size was refused.
fn is_size(found: Result<(), Refusal>) -> bool
    ensures { (result ≡ true → found ≡ Err Size) × (result ≡ false → found ≢ Err Size) }
{
    matches!(found, Err(Refusal::Size))
}

// What is asked of a form: refused for a wrong size of line, form or octets, for a form that is none, for what was found before, and by the
// answer, in this order. The kind stays a number, as above.
fn on_record(
    form: &mut [u8],
    stamp: Stamp,
    found: Result<(), Refusal>,
    kind: u8,
    octets: &[u8],
    line: &mut [u8],
) -> Result<(), Refusal>
    requires { found ≡ Ok tt → AnEvent kind octets.now }
    ensures { ActsAs found kind octets.now stamp.high stamp.low form.old line.old result form.new line.new }
{
    let Some(line) = line.as_mut_array::<LINE>() else {
        return Err(Refusal::Size);
    };
    let Some(form) = form.as_mut_array::<FORM>() else {
        return Err(Refusal::Size);
    };
    if is_size(found) {
        return Err(Refusal::Size);
    }
    let mut store = [0u8; STORE];
    let rx = take_form(form, &mut store)?;
    found?;
    act_on(form, stamp, rx, &mut store, kind, octets, line)
}

// Refused for a header or a block of another size.
#[tactic(auto, unfolding(foundation::specs::Refusals::outcome, foundation::specs::Refusals::refusal))]
fn sized(octets: &[u8]) -> Result<(), Refusal>
    ensures { result ≡ outcome (size_number octets.now) tt }
{
    if octets.len() == 12 {
        Ok(())
    } else {
        Err(Refusal::Size)
    }
}

// A header's octets, on a form. The line gets what is answered, and the form is that of the receiver after the event, with this stamp.
pub fn on_header(
    form: &mut [u8],
    stamp: Stamp,
    octets: &[u8],
    line: &mut [u8],
) -> Result<(), Refusal>
    ensures { (result ≡ outcome (event_number form.old line.old (an_event (header octets.now))) tt)
        × (form.new ≡ form_after form.old stamp.high stamp.low line.old (an_event (header octets.now)))
        × (line.new ≡ line_after form.old line.old (an_event (header octets.now))) }
{
    on_record(form, stamp, sized(octets), HEADER, octets, line)
}

// A block's octets, on a form.
pub fn on_block(
    form: &mut [u8],
    stamp: Stamp,
    octets: &[u8],
    line: &mut [u8],
) -> Result<(), Refusal>
    ensures { (result ≡ outcome (event_number form.old line.old (an_event (block octets.now))) tt)
        × (form.new ≡ form_after form.old stamp.high stamp.low line.old (an_event (block octets.now)))
        × (line.new ≡ line_after form.old line.old (an_event (block octets.now))) }
{
    on_record(form, stamp, sized(octets), BLOCK, octets, line)
}

// An end of attempt, on a form.
pub fn on_end(form: &mut [u8], stamp: Stamp, line: &mut [u8]) -> Result<(), Refusal>
    ensures { (result ≡ outcome (event_number form.old line.old (an_event ended)) tt)
        × (form.new ≡ form_after form.old stamp.high stamp.low line.old (an_event ended))
        × (line.new ≡ line_after form.old line.old (an_event ended)) }
{
    on_record(form, stamp, Ok(()), END, b"", line)
}

// The kind of the record of what a burst carries.
#[tactic(auto, unfolding(crate::specs::Parts::kind_number))]
fn record_kind(kind: Kind) -> u8
    ensures { result ≡ kind_number kind }
{
    match kind {
        Kind::Header => HEADER,
        Kind::Block => BLOCK,
        Kind::Other => NONE,
    }
}

// A datagram, on a form: the header or the block that it carries, after its own numbers.
pub fn on_datagram(
    form: &mut [u8],
    stamp: Stamp,
    datagram: &[u8],
    line: &mut [u8],
) -> Result<(), Refusal>
    ensures { (result ≡ outcome (event_number form.old line.old (a_datagram datagram.now)) tt)
        × (form.new ≡ form_after form.old stamp.high stamp.low line.old (a_datagram datagram.now))
        × (line.new ≡ line_after form.old line.old (a_datagram datagram.now)) }
{
    match reception::arrival_of(datagram) {
        Ok(a) => on_record(form, stamp, Ok(()), record_kind(a.kind), &a.octets, line),
        Err(refusal) => on_record(form, stamp, Err(refusal), NONE, b"", line),
    }
}
