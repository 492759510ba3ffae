// Runs the worked examples of document 01 on bursts, datagrams, headers, blocks, messages, responses and the receiver through the public
// functions of the libraries. All values are in hexadecimal. Each function says how many cases it counts; the check finds this by itself for at most
// four cases or groups in a row, so no function has more.
#![tactic(auto)]

ghost use Rattle.report.specs.Counted.{MoreCases};
ghost use Rattle.packet_vectors.specs.Examples.{PExamples};

mod burst_cases;
mod packet_cases;
mod receiver_cases;

use addresses::RadioAddress;
use foundation::refusal::Refusal;
use messages::message::Delivery;
use report::Report;
use std::io::Write;

// N(S) 5 and SAP 4, from 1a0b0c to 002104.
fn delivery() -> Delivery {
    Delivery {
        sap: 4,
        ns: 5,
        destination: RadioAddress(0x002104),
        source: RadioAddress(0x1A0B0C),
    }
}

// The number of what is given, 0 where it isn't refused: a case is a line with a number. Each kind of octets has a short reader of its own
// below: with the reader as an argument, each of their calls would be longer than they are.
fn number_of<T: Drop>(given: Result<T, Refusal>) -> u32 {
    u32::from(foundation::refusal::number_of(&given))
}

// Writes a line for each case and counts them. It also promises that the definitions give the worked examples of PExamples.
pub fn cases<W: Write>(report: &mut Report<W>)
    ensures { MoreCases 52 report.old.tally report.new.tally × PExamples }
{
    packet_cases::cases(report);
    burst_cases::cases(report);
    receiver_cases::cases(report);
}
