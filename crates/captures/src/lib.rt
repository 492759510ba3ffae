// A part of a capture: datagrams at a gateway, and lines of text for them. What a program is left with is reading and writing.
#![tactic(auto)]

ghost use Rattle.std.specs.Prelude.{◌≡◌, cond, ◌+◌, ◌*◌, ◌-◌, ◌/◌, ◌≤◌, ◌<◌, min, length};
ghost use Rattle.foundation.specs.Octets.{put};
ghost use Rattle.receiver_state.specs.Receiver.{store_size};
ghost use Rattle.receiver.specs.Events.{said, told};
ghost use Rattle.texts.specs.Texts.{end_at};
ghost use Rattle.texts.specs.Parts.{HasRoom, Wrote, AtMost};
ghost use Rattle.captures.specs.Lines.{number_line, end_line, source_part, size_part, message_line, bad_line, delivery_line, closing, line_room};
ghost use Rattle.captures.specs.Parts.{listed_line};
ghost use Rattle.captures.specs.Captures.{datagrams_in, whole_in, running, started, left_by, outcome_of, cut, left_by_all, lines_of, listed_given, store_after, text_after};
ghost use Rattle.captures.specs.Captures.{list as Captures·list};
ghost use Rattle.captures.specs.Claims.{ListClaims};

use counting::Counts;
use foundation::refusal::Refusal;
use receiver::event::{Answer, Step};
use receiver_state::{Receiver, STORE};
use texts::Writer;
use transactions::header::Transaction;

const DATAGRAM: usize = 53;

// The most octets of the last line. (`inputs::printing` has the same number for the last line of any program: neither crate stands on the
// other.)
const END: usize = 67;

// What is listed: index and number of every datagram, or the messages that are handed on. It stays an enum: the definitions and claims speak
// of both texts by a match over it, which a trait would say again as ghost fields of two types without fields.
#[derive(Clone, Copy, Debug, PartialEq, Eq)]
pub enum Listing {
    Numbers,
    Deliveries,
}

// The receiver and the counts of its answers.
#[derive(Clone, Copy, Debug, PartialEq, Eq)]
pub struct Gateway {
    pub receiver: Receiver,
    pub counts: Counts,
}

// The gateway after the datagrams, the octets that they took, and where the text ends.
#[derive(Clone, Copy, Debug, PartialEq, Eq)]
pub struct Listed {
    pub gateway: Gateway,
    pub taken: usize,
    pub end: usize,
}

// A gateway before its first datagram, of the own address in three octets.
pub fn start(own: &[u8]) -> Gateway
    ensures { result ≡ started own.now }
{
    Gateway {
        receiver: receiver_state::idle(addresses::address_at(own, 0)),
        counts: counting::none(),
    }
}

// ---- lines: each function writes behind a text. That there is room is asked of callers: it hangs on the line, so that no type can say it,
// and a line written in part would be none.

// Index and number of a datagram.
fn put_number(out: &mut Writer, index: u64, number: u8)
    requires { HasRoom 25 out.old }
    ensures { AtMost 25 (number_line index number) out.old out.new }
{
    out.decimal(index);
    out.word(b" ");
    out.decimal(number as u64);
    out.word(b"\n");
}

// Index and source of a message. Index and transaction go together through these lines alone, and a number's line has no transaction: a type
// for the two would be made for each answer and taken apart here.
fn put_source(out: &mut Writer, index: u64, t: Transaction)
    requires { HasRoom 31 out.old }
    ensures { Wrote (source_part index t) out.old out.new }
{
    out.decimal(index);
    out.word(b" ");
    out.decimal(t.source.0 as u64);
}

// Its SAP and length.
fn put_size(out: &mut Writer, t: Transaction, size: usize)
    requires { HasRoom 8 out.old × (size ≤ store_size) }
    ensures { Wrote (size_part t size) out.old out.new }
{
    out.word(b" ");
    out.decimal(t.sap as u64);
    out.word(b" ");
    out.decimal(size as u64);
}

// A message's line: index, source, SAP, length and octets.
fn put_message(out: &mut Writer, index: u64, t: Transaction, message: &[u8])
    requires { HasRoom 1302 out.old × (length message.now ≤ store_size) }
    ensures { AtMost 1302 (message_line index t message.now) out.old out.new }
{
    put_source(out, index, t);
    put_size(out, t, message.len());
    out.word(b" ");
    out.octets(message);
    out.word(b"\n");
}

// A bad message's line: index, source and the word.
fn put_bad(out: &mut Writer, index: u64, t: Transaction)
    requires { HasRoom 1302 out.old }
    ensures { AtMost 1302 (bad_line index t) out.old out.new }
{
    put_source(out, index, t);
    out.word(b" bad\n");
}

// The line of an answer: number or delivery.
#[tactic(auto, unfolding(crate::specs::Lines::line_room, crate::specs::Parts::listed_line))]
fn put_line(
    listing: Listing,
    out: &mut Writer,
    index: u64,
    t: Transaction,
    a: Result<Answer, Refusal>,
    store: &[u8; STORE],
)
    requires { HasRoom (line_room listing) out.old }
    ensures { AtMost (line_room listing) (listed_line listing index (record { said = said (told a) store.now; transaction = t })) out.old out.new }
{
    match listing {
        Listing::Numbers => put_number(out, index, counting::number_of(a)),
        Listing::Deliveries => put_delivery(out, index, t, a, store),
    }
}

// The line of an answer that hands a message on, or finds it bad; a message stands in the store.
#[tactic(auto, unfolding(crate::specs::Lines::delivery_line, receiver::specs::Events::said))]
fn put_delivery(
    out: &mut Writer,
    index: u64,
    t: Transaction,
    a: Result<Answer, Refusal>,
    store: &[u8; STORE],
)
    requires { HasRoom 1302 out.old }
    ensures { AtMost 1302 (delivery_line index t (said (told a) store.now)) out.old out.new }
{
    match a {
        Ok(Answer::Message(n)) => {
            let end = foundation::octets::shorter(n, store.len());
            put_message(out, index, t, &store[..end]);
        }
        Ok(Answer::Bad) => put_bad(out, index, t),
        Ok(Answer::Opened) => {}
        Ok(Answer::Repeat) => {}
        Ok(Answer::Stored) => {}
        Err(_) => {}
    }
}

// `end` and the counts.
fn put_end(out: &mut Writer, c: Counts)
    requires { HasRoom 67 out.old }
    ensures { Wrote (end_line c) out.old out.new }
{
    out.word(b"end ");
    out.decimal(c.datagrams);
    out.word(b" ");
    out.decimal(c.messages);
    out.word(b" ");
    out.decimal(c.refused);
    out.word(b"\n");
}

// The last line of a listing of numbers, at the start of the text where it has room.
fn close_numbers(c: Counts, text: &mut [u8]) -> usize
    ensures { (result ≡ end_at text.old 0 (end_line c)) × (text.new ≡ put text.old 0 (end_line c)) }
{
    let mut line = [0u8; END];
    let mut last = Writer::new(&mut line);
    put_end(&mut last, c);
    let size = last.end;
    let mut out = Writer::new(text);
    out.word(&line[..size]);
    out.end
}

impl Listing {
    // The last line, if there is one, at the start of the text where it has room.
    #[tactic(auto, unfolding(crate::specs::Lines::closing))]
    pub fn close(self, c: Counts, text: &mut [u8]) -> usize
        ensures { (result ≡ end_at text.old 0 (closing self c)) × (text.new ≡ put text.old 0 (closing self c)) }
    {
        match self {
            Listing::Numbers => close_numbers(c, text),
            Listing::Deliveries => 0,
        }
    }

    // The most octets of a line.
    #[tactic(auto, unfolding(crate::specs::Lines::line_room))]
    fn line_room(self) -> usize
        ensures { result ≡ line_room self }
    {
        match self {
            Listing::Numbers => 25,
            Listing::Deliveries => 1302,
        }
    }
}

// ---- datagrams

// The gateway after a datagram, and its line behind the text. A refusal is listed and counted alike, whoever refused.
fn answer(
    listing: Listing,
    g: Gateway,
    store: &mut [u8; STORE],
    datagram: &[u8],
    out: &mut Writer,
) -> Gateway
    requires { HasRoom (line_room listing) out.old }
    ensures { (running result store.new ≡ left_by (running g store.old) datagram.now)
        × AtMost (line_room listing) (listed_line listing g.counts.datagrams (outcome_of (running g store.old) datagram.now)) out.old out.new }
{
    let step = match reception::on_datagram(g.receiver, store, datagram) {
        Ok(step) => step,
        Err(refusal) => Step::refused(g.receiver, refusal),
    };
    let next = step.receiver;
    put_line(
        listing,
        out,
        g.counts.datagrams,
        next.transaction,
        step.answer,
        store,
    );
    Gateway {
        receiver: next,
        counts: counting::counted(g.counts, step.answer),
    }
}

// The gateway after the first datagrams of the octets, so many, and their lines behind the text. (replays has the like over records, which
// say their length themselves: by another definition, with nothing in common but the loop.)
fn answer_all(
    listing: Listing,
    g: Gateway,
    store: &mut [u8; STORE],
    octets: &[u8],
    count: usize,
    out: &mut Writer,
) -> Gateway
    requires { (53 * count < length octets.now + 53) × HasRoom (line_room listing * count) out.old }
    ensures { (running result store.new ≡ left_by_all (running g store.old) (cut count octets.now))
        × AtMost (line_room listing * count) (lines_of listing (running g store.old) (cut count octets.now)) out.old out.new }
{
    let mut now = g;
    for datagram in octets.chunks(DATAGRAM).take(count) {
        now = answer(listing, now, store, datagram, out);
    }
    now
}

// How many datagrams are answered: those that have come whole, or all where nothing follows; no more than there is room for.
#[tactic(auto, using(crate::proofs::Lists::some_room))]
fn count(listing: Listing, size: usize, last: bool, room: usize) -> usize
    ensures { result ≡ min (cond last (datagrams_in size) (whole_in size)) (room / line_room listing) }
{
    let come = if last {
        size.div_ceil(DATAGRAM)
    } else {
        size / DATAGRAM
    };
    foundation::octets::shorter(come, room / listing.line_room())
}

// The octets of k datagrams, of so many that there are.
fn octets_of(k: usize, size: usize) -> usize
    ensures { result ≡ min (53 * k) size }
{
    foundation::octets::shorter(DATAGRAM.saturating_mul(k), size)
}

// Octets of datagrams at a gateway: the lines of those that have come whole, at the start of the text, and of leftover octets too where
// nothing follows; as many as there is room for. The octets behind those taken are not answered yet.
pub fn list(
    listing: Listing,
    g: Gateway,
    store: &mut [u8],
    octets: &[u8],
    last: bool,
    text: &mut [u8],
) -> Result<Listed, Refusal>
    ensures { (result ≡ listed_given (Captures·list listing g store.old octets.now last text.old))
        × (store.new ≡ store_after listing g store.old octets.now last text.old)
        × (text.new ≡ text_after listing g store.old octets.now last text.old)
        × ListClaims listing (running g store.old) octets.now last text.old (Captures·list listing g store.old octets.now last text.old) store.new text.new }
{
    let size = octets.len();
    let room = text.len();
    let Some(store) = store.as_mut_array::<STORE>() else {
        return Err(Refusal::Size);
    };
    if room < listing.line_room() {
        return Err(Refusal::Size);
    }
    let k = count(listing, size, last, room);
    let mut out = Writer::new(text);
    let gateway = answer_all(listing, g, store, octets, k, &mut out);
    Ok(Listed {
        gateway,
        taken: octets_of(k, size),
        end: out.end,
    })
}
