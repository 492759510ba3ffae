// One record of a log: what the receiver answers, in a line of a report. A line has 1,027 octets: a code, the length of the contents
// (2 octets, most significant first), the contents, and zeros.
ghost use Rattle.std.specs.Prelude.{◌≡◌, true, ◌++◌, ◌+◌, ◌*◌, ◌≤◌, length};
ghost use Rattle.foundation.specs.Refusals.{refusal_number};
ghost use Rattle.transactions.specs.Answers.{refused, given_said};
ghost use Rattle.receiver_state.specs.Receiver.{store_size, receiver_good};
ghost use Rattle.receiver.specs.Events.{said, told};
ghost use Rattle.stored.specs.Stored.{stored_block};
ghost use Rattle.history.specs.History.{header, block};
ghost use Rattle.history.specs.Run.{event};
ghost use Rattle.logs.specs.Claims.{RecordRefused};
ghost use Rattle.logs.specs.Numbers.{code_number};
ghost use Rattle.logs.specs.Parts.{record_by};
ghost use Rattle.logs.specs.Log.{answer, act, record_of, line_octets, line_in, line_of, restart_of, after_record, state_of, recorded, recorded_given, record_store, record_line};

use super::numbers::{Code, Kind};
use foundation::refusal::Refusal;
use messages::response::ResponseOctets;
use receiver::event::Answer;
use receiver_state::{Receiver, STORE};
use stored::saving::FORM;
use stored::stamp::Stamp;

// Octets of a line, and of its contents.
pub const LINE: usize = 3 + CONTENTS;

const CONTENTS: usize = FORM;

// Writes a line of this code and these contents.
fn put(line: &mut [u8; LINE], code: Code, contents: &[u8])
    requires { length contents.now ≤ 2 * stored_block }
    ensures { line.new ≡ line_octets (code_number code) contents.now }
{
    let n = contents.len();
    let [high, low] = (n as u16).to_be_bytes();
    let head = [code.number(), high, low];
    let zeros = [0u8; CONTENTS];
    foundation::octets::put(line, 0, &head);
    foundation::octets::put(line, 3, contents);
    foundation::octets::put(line, 3 + n, &zeros[n..]);
}

// The line of a refusal.
fn put_refusal(line: &mut [u8; LINE], refusal: Refusal)
    ensures { line.new ≡ line_in (answer (refused (refusal_number refusal))) }
{
    put(line, Code::Refused, &[refusal.number()]);
}

// The line of what is given for a header or a block; a message stands in the store.
fn put_answer(line: &mut [u8; LINE], given: Result<Answer, Refusal>, store: &[u8; STORE])
    ensures { line.new ≡ line_in (answer (said (told given) store.now)) }
{
    match given {
        Err(refusal) => put_refusal(line, refusal),
        Ok(Answer::Opened) => put(line, Code::Opened, b""),
        Ok(Answer::Repeat) => put(line, Code::Repeat, b""),
        Ok(Answer::Stored) => put(line, Code::Stored, b""),
        Ok(Answer::Bad) => put(line, Code::Bad, b""),
        Ok(Answer::Message(n)) => {
            let end = foundation::octets::shorter(n, store.len());
            put(line, Code::Message, &store[..end]);
        }
    }
}

// The header of a response and its data block, one behind the other.
fn both(header: [u8; 12], block: [u8; 12]) -> [u8; 24]
    ensures { result ≡ header ++ block }
{
    foundation::octets::joined(&header, &block)
}

// The line of a response to an end of attempt.
fn put_response(line: &mut [u8; LINE], given: Result<ResponseOctets, Refusal>)
    ensures { line.new ≡ line_in (answer (given_said given)) }
{
    match given {
        Ok(r) => match r.block {
            None => put(line, Code::Response, &r.header),
            Some(block) => put(line, Code::Response, &both(r.header, block)),
        },
        Err(refusal) => put_refusal(line, refusal),
    }
}

// ---- records, for a receiver that there can be: the receiver after each

// A header.
fn record_header(
    rx: Receiver,
    store: &[u8; STORE],
    octets: &[u8],
    line: &mut [u8; LINE],
) -> Receiver
    ensures { (result ≡ (after_record (state_of rx store.now) (act (event (header octets.now)))).receiver)
        × (line.new ≡ line_in (line_of (state_of rx store.now) (act (event (header octets.now))))) }
{
    let step = receiver::event::on_header(rx, octets);
    put_answer(line, step.answer, store);
    step.receiver
}

// A block.
fn record_block(
    rx: Receiver,
    store: &mut [u8; STORE],
    octets: &[u8],
    line: &mut [u8; LINE],
) -> Receiver
    ensures { (result ≡ (after_record (state_of rx store.old) (act (event (block octets.now)))).receiver)
        × (store.new ≡ (after_record (state_of rx store.old) (act (event (block octets.now)))).store)
        × (line.new ≡ line_in (line_of (state_of rx store.old) (act (event (block octets.now))))) }
{
    let step = receiver::event::on_block(rx, store, octets);
    put_answer(line, step.answer, store);
    step.receiver
}

// A restart: the stamp, and what the store holds before the restore.
fn record_restart(
    rx: Receiver,
    store: &mut [u8; STORE],
    octets: &[u8],
    line: &mut [u8; LINE],
) -> Receiver
    requires { (receiver_good rx ≡ true) × (length octets.now ≡ 2 + store_size) }
    ensures { (result ≡ (after_record (state_of rx store.old) (restart_of octets.now)).receiver)
        × (store.new ≡ (after_record (state_of rx store.old) (restart_of octets.now)).store)
        × (line.new ≡ line_in (line_of (state_of rx store.old) (restart_of octets.now))) }
{
    let mut form = [0u8; FORM];
    let stamp = Stamp {
        high: octets[0],
        low: octets[1],
    };
    stored::saving::save(rx, store, stamp, &mut form).unwrap();
    put(line, Code::Restored, &form);
    // In memory of its own: from octets of the caller's to a store of the caller's the compiler would copy by memmove, which the C archive
    // asks for nowhere else.
    let mut held = [0u8; STORE];
    foundation::octets::put(&mut held, 0, &octets[2..]);
    let fresh = receiver_state::idle(rx.own);
    let receiver = stored::restoring::restore(fresh, &form, &mut held).unwrap_or(fresh);
    *store = held;
    receiver
}

// The record of this kind and these octets. That there can be the receiver is asked here and of a restart, not said by its type, which has
// every value.
fn record_kind(
    rx: Receiver,
    store: &mut [u8; STORE],
    kind: Kind,
    octets: &[u8],
    line: &mut [u8; LINE],
) -> Receiver
    requires { receiver_good rx ≡ true }
    ensures { (result ≡ (after_record (state_of rx store.old) (record_by kind octets.now)).receiver)
        × (store.new ≡ (after_record (state_of rx store.old) (record_by kind octets.now)).store)
        × (line.new ≡ line_in (line_of (state_of rx store.old) (record_by kind octets.now))) }
{
    let n = octets.len();
    match kind {
        Kind::Header => record_header(rx, store, octets, line),
        Kind::Block => record_block(rx, store, octets, line),
        Kind::End if n == 0 => {
            put_response(line, receiver::event::on_end(rx));
            rx
        }
        Kind::Restart if n == 2 + STORE => record_restart(rx, store, octets, line),
        _ => {
            put_refusal(line, Refusal::Size);
            rx
        }
    }
}

// A record of a log, of this kind and these octets: the receiver after it. The line gets what is answered. The kind stays a number: an octet
// of a log, any of them, of which the definitions speak.
pub fn record(
    rx: Receiver,
    store: &mut [u8],
    kind: u8,
    octets: &[u8],
    line: &mut [u8],
) -> Result<Receiver, Refusal>
    ensures { (result ≡ recorded_given (recorded rx store.old (record_of kind octets.now) line.old))
        × (store.new ≡ record_store rx store.old (record_of kind octets.now) line.old)
        × (line.new ≡ record_line rx store.old (record_of kind octets.now) line.old)
        × RecordRefused (state_of rx store.old) (record_of kind octets.now) }
{
    if !receiver_state::is_good(rx) {
        return Err(Refusal::Size);
    }
    let Some(store) = store.as_mut_array::<STORE>() else {
        return Err(Refusal::Size);
    };
    let Some(line) = line.as_mut_array::<LINE>() else {
        return Err(Refusal::Size);
    };
    Ok(record_kind(rx, store, Kind::from(kind), octets, line))
}
