// A part of a log: records at a receiver, and a line of text for each. What a program is left with is reading and writing.
#![tactic(auto)]

ghost use Rattle.std.specs.Prelude.{◌≡◌, cond, [], ◌∷◌, Some, None, ◌+◌, ◌*◌, ◌/◌, ◌≤◌, ltb, length};
ghost use Rattle.addresses.specs.Octets.{address_at};
ghost use Rattle.foundation.specs.Order.{all};
ghost use Rattle.receiver_state.specs.Receiver.{fresh_for};
ghost use Rattle.stored.specs.Stored.{stored_block};
ghost use Rattle.texts.specs.Parts.{HasRoom, AtMost};
ghost use Rattle.logs.specs.Numbers.{code_number};
ghost use Rattle.logs.specs.Log.{record_of, state_of};
ghost use Rattle.replays.specs.Log.{records, octets_taken};
ghost use Rattle.replays.specs.Text.{line_text, report_text, report_room};
ghost use Rattle.replays.specs.Replay.{line_given, left_by_record, lines_given, left_by_records, replayed, replayed_given, store_replayed, text_replayed};
ghost use Rattle.replays.specs.Claims.{ReplayClaims};
ghost use Rattle.replays.specs.Parts.{Cuts, code_text, octets_line};

use foundation::refusal::Refusal;
use logs::numbers::{Code, Kind};
use logs::recording::LINE;
use receiver_state::{Receiver, STORE};
use texts::Writer;

// The kind that no record has, for one that is cut short.
const NONE: u8 = Kind::Other as u8;

// Octets of a response's header.
const HEADER: usize = 12;

// Where the contents of a line begin, and the most octets of them.
const FIRST: usize = 3;

const CONTENTS: usize = LINE - FIRST;

// Octets of text that every line has room in.
pub const ROOM: usize = 2064;

// The receiver after the records, the octets that they took, and where the text ends.
#[derive(Clone, Copy, Debug, PartialEq, Eq)]
pub struct Replayed {
    pub receiver: Receiver,
    pub taken: usize,
    pub end: usize,
}

// The receiver before the first record, of the own address in three octets.
pub fn start(own: &[u8]) -> Receiver
    ensures { result ≡ (fresh_for (address_at own.now 0)).receiver }
{
    receiver_state::idle(addresses::address_at(own, 0))
}

// ---- text: each function writes behind a text. That it has room for a line is asked of callers, as in captures, and that the contents are no
// more than a line has: a type for them would stand between put_line and four functions only.

// A refusal: its number, an octet of the line, any of them.
fn put_refusal(out: &mut Writer, number: u8)
    requires { HasRoom report_room out.old }
    ensures { AtMost report_room (code_text 0 (number ∷ [])) out.old out.new }
{
    out.decimal(number as u64);
    out.word(b"\n");
}

// A message: its length and octets.
fn put_message(out: &mut Writer, message: &[u8])
    requires { HasRoom report_room out.old × (length message.now ≤ 2 * stored_block) }
    ensures { AtMost report_room (code_text 5 message.now) out.old out.new }
{
    out.word(b"message ");
    out.decimal(message.len() as u64);
    out.word(b" ");
    out.octets(message);
    out.word(b"\n");
}

// A response: its header and its data block.
fn put_response(out: &mut Writer, octets: &[u8])
    requires { HasRoom report_room out.old × (length octets.now ≤ 2 * stored_block) }
    ensures { AtMost report_room (code_text 6 octets.now) out.old out.new }
{
    let header = foundation::octets::shorter(HEADER, octets.len());
    out.word(b"response ");
    out.octets(&octets[..header]);
    out.word(b" ");
    out.octets(&octets[header..]);
    out.word(b"\n");
}

// A restart: the stored form.
fn put_restored(out: &mut Writer, form: &[u8])
    requires { HasRoom report_room out.old × (length form.now ≤ 2 * stored_block) }
    ensures { AtMost report_room (code_text 7 form.now) out.old out.new }
{
    out.word(b"restored ");
    out.octets(form);
    out.word(b"\n");
}

// The text of a line by its code and contents.
#[tactic(auto, unfolding(logs::specs::Numbers::code_number, crate::specs::Parts::code_text, crate::specs::Text::line_text))]
fn put_contents(out: &mut Writer, code: Code, contents: &[u8])
    requires { HasRoom report_room out.old × (length contents.now ≤ 2 * stored_block) }
    ensures { AtMost report_room (code_text (code_number code) contents.now) out.old out.new }
{
    match code {
        Code::Refused => put_refusal(out, foundation::octets::at(contents, 0)),
        Code::Opened => out.word(b"opened\n"),
        Code::Repeat => out.word(b"repeat\n"),
        Code::Stored => out.word(b"stored\n"),
        Code::Bad => out.word(b"bad\n"),
        Code::Message => put_message(out, contents),
        Code::Response => put_response(out, contents),
        Code::Restored => put_restored(out, contents),
    }
}

// The text of a line in octets: code, length of the contents, contents.
fn put_line(out: &mut Writer, line: &[u8; LINE])
    requires { HasRoom report_room out.old }
    ensures { AtMost report_room (octets_line line.now) out.old out.new }
{
    let n = u16::from_be_bytes([line[1], line[2]]) as usize;
    let size = foundation::octets::shorter(n, CONTENTS);
    put_contents(out, Code::from(line[0]), &line[FIRST..FIRST + size]);
}

// ---- records

// A record in a log that has come: its kind, and where its octets begin and end. The kind stays a number: an octet of a log, any of them.
#[derive(Clone, Copy, Debug, PartialEq, Eq)]
pub struct Cut {
    pub kind: u8,
    pub start: usize,
    pub end: usize,
}

// Octets of a record that are not all: none of their own where more may follow; else the last record, which has no kind and no octets.
#[tactic(auto, unfolding(foundation::specs::Order::all))]
fn cut_short(last: bool, at: usize, size: usize) -> Option<Cut>
    ensures { result ≡ cond (all (last ∷ ltb at size ∷ [])) (Some (record { kind = 255; start = size; end = size })) None }
{
    if last && at < size {
        Some(Cut {
            kind: NONE,
            start: size,
            end: size,
        })
    } else {
        None
    }
}

// The record at a place of the octets.
fn cut_at(octets: &[u8], at: usize, last: bool) -> Option<Cut>
    requires { at ≤ length octets.now }
    ensures { Cuts octets.now at last result }
{
    let size = octets.len();
    if size - at < 3 {
        return cut_short(last, at, size);
    }
    let n = u16::from_be_bytes([octets[at + 1], octets[at + 2]]) as usize;
    if size - at < 3 + n {
        return cut_short(last, at, size);
    }
    Some(Cut {
        kind: octets[at],
        start: at + 3,
        end: at + (3 + n),
    })
}

// The receiver after a record of this kind (a number, as in a cut) and these octets, and its line behind the text. A receiver that there
// can't be refuses it with 1.
fn answer(
    rx: Receiver,
    store: &mut [u8; STORE],
    kind: u8,
    octets: &[u8],
    out: &mut Writer,
) -> Receiver
    requires { HasRoom report_room out.old }
    ensures { (state_of result store.new ≡ left_by_record (state_of rx store.old) (record_of kind octets.now))
        × AtMost report_room (line_text (line_given (state_of rx store.old) (record_of kind octets.now))) out.old out.new }
{
    let mut line = [0u8; LINE];
    match logs::recording::record(rx, store, kind, octets, &mut line) {
        Ok(receiver) => {
            put_line(out, &line);
            receiver
        }
        Err(refusal) => {
            put_refusal(out, refusal.number());
            rx
        }
    }
}

// The first records of the octets that have come, at most so many, and their lines behind the text.
fn answer_all(
    rx: Receiver,
    store: &mut [u8; STORE],
    octets: &[u8],
    last: bool,
    most: usize,
    out: &mut Writer,
) -> Replayed
    requires { HasRoom (report_room * most) out.old }
    ensures { (state_of result.receiver store.new ≡ left_by_records (state_of rx store.old) (records last most octets.now))
        × AtMost (report_room * most) (report_text (lines_given (state_of rx store.old) (records last most octets.now))) out.old out.new
        × (result.end ≡ out.new.end) × (result.taken ≡ octets_taken last most octets.now) × (result.taken ≤ length octets.now) }
{
    let mut now = Replayed {
        receiver: rx,
        taken: 0,
        end: out.end,
    };
    for i in 0..most {
        let Some(c) = cut_at(octets, now.taken, last) else {
            return now;
        };
        let receiver = answer(now.receiver, store, c.kind, &octets[c.start..c.end], out);
        now = Replayed {
            receiver,
            taken: c.end,
            end: out.end,
        };
    }
    now
}

// Octets of records at a receiver: the lines of those that have come whole, at the start of the text, and of leftover octets too where nothing
// follows; as many as there is room for. The octets behind those taken are not answered yet.
pub fn replay(
    rx: Receiver,
    store: &mut [u8],
    octets: &[u8],
    last: bool,
    text: &mut [u8],
) -> Result<Replayed, Refusal>
    ensures { (result ≡ replayed_given (replayed rx store.old octets.now last text.old))
        × (store.new ≡ store_replayed rx store.old octets.now last text.old)
        × (text.new ≡ text_replayed rx store.old octets.now last text.old)
        × ReplayClaims (state_of rx store.old) octets.now last text.old (replayed rx store.old octets.now last text.old) store.new text.new }
{
    let room = text.len();
    let Some(store) = store.as_mut_array::<STORE>() else {
        return Err(Refusal::Size);
    };
    if room < ROOM {
        return Err(Refusal::Size);
    }
    let mut out = Writer::new(text);
    Ok(answer_all(rx, store, octets, last, room / ROOM, &mut out))
}
