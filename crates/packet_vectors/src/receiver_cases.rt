// Messages given to a receiver, and its responses.
ghost use Rattle.report.specs.Counted.{MoreCases};

use addresses::RadioAddress;
use foundation::refusal::Refusal;
use messages::response::ResponseOctets;
use receiver::event::Answer;
use receiver_state::{Receiver, STORE};
use report::Report;
use std::io::Write;
use transactions::flags::Flags;
use transactions::header::Transaction;

// The response of a receiver that has 0 and 2 of three blocks, N(S) 5 and SAP 4, from 1a0b0c to 002104.
fn response() -> ResponseOctets {
    let transaction = Transaction {
        source: RadioAddress(0x1A0B0C),
        sap: 4,
        ns: 5,
        pad: 0,
        blocks: 3,
    };
    let rx = Receiver {
        own: RadioAddress(0x002104),
        phase: 1,
        transaction,
        flags: Flags::none().with(0).with(2),
    };
    receiver::event::on_end(rx).unwrap_or(ResponseOctets {
        header: [0u8; 12],
        block: None,
    })
}

// The length of a message that is handed on, 1000 for any other answer: one number, as a case has it.
fn handed_on(a: Result<Answer, Refusal>) -> u32 {
    match a {
        Ok(Answer::Message(n)) => (n % 1000) as u32,
        _ => 1000,
    }
}

// A message of 13 octets, written and given whole and in order to a fresh receiver of its destination.
fn looped(store: &mut [u8]) -> u32 {
    let d = crate::delivery();
    handed_on(history::sending::loop_back(b"TARE -12.5 mm", d, store))
}

// The octets that stand in front in a store.
fn front<W: Write>(
    report: &mut Report<W>,
    subject: &[u8],
    text: &[u8],
    store: &[u8],
    expected: &[u8],
)
    ensures { MoreCases 1 report.old.tally report.new.tally }
{
    let n = expected.len();
    if store.len() < n {
        return report.octets(subject, text, store, expected);
    }
    report.octets(subject, text, &store[..n], expected);
}

fn responses<W: Write>(report: &mut Report<W>)
    ensures { MoreCases 2 report.old.tally report.new.tally }
{
    let r = response();
    report.octets(
        b"end of attempt, block 1 of 3 missing",
        b"",
        &r.header,
        b"\x01\x40\x1A\x0B\x0C\x00\x21\x04\x01\x85\x80\x8D",
    );
    report.octets(
        b"its data block",
        b"",
        &r.block.unwrap_or([0u8; 12]),
        b"\xFD\xFF\xFF\xFF\xFF\xFF\xFF\xFF\x00\xB6\xAE\x30",
    );
}

fn messages<W: Write>(report: &mut Report<W>)
    ensures { MoreCases 2 report.old.tally report.new.tally }
{
    let mut store = [0u8; STORE];
    let n = looped(&mut store);
    report.number(b"TARE -12.5 mm, octets handed on", b"", 1, n, 13);
    front(
        report,
        b"the message in the store",
        b"",
        &store,
        b"TARE -12.5 mm",
    );
}

pub fn cases<W: Write>(report: &mut Report<W>)
    ensures { MoreCases 4 report.old.tally report.new.tally }
{
    responses(report);
    messages(report);
}
