// Reads a log from standard input: own address (3 octets), then records of kind (1 octet), length (2 octets, most significant first) and
// that many octets. For each a line with what is answered. A record that the end of the input cuts short is the last, refused with 1.
#![tactic(auto)]

ghost use Rattle.std.specs.Prelude.{◌≡◌};
ghost use Rattle.logs.specs.Log.{state_of};
ghost use Rattle.replays.specs.Replay.{report_from};
ghost use Rattle.replay.specs.Reports.{WritesReport, ReportsKnown, ReportsAll};

use inputs::printing::{ADDRESS, END, Ended, Failed, Printed, Printer, TEXT};
use inputs::{printing, programs};
use receiver_state::{Receiver, STORE};
use std::env::Env;
use std::io::{Read, Write};

// The receiver and its store after the records that are answered.
#[derive(Drop)]
struct Reporter {
    receiver: Receiver,
    store: [u8; STORE],
}

impl Printer for Reporter {
    ghost whole = { λ s. report_from (state_of s.receiver s.store) };

    fn answer(&mut self, octets: &[u8], last: bool, text: &mut [u8; TEXT]) -> Printed {
        let replayed = replays::replay(self.receiver, &mut self.store, octets, last, text).unwrap();
        self.receiver = replayed.receiver;
        Printed {
            taken: replayed.taken,
            end: replayed.end,
        }
    }

    fn close(&self, _text: &mut [u8; END]) -> usize {
        0
    }
}

// Reads what is behind the own address and writes the report. Where the address is cut short there is none.
fn run<R: Read, W: Write>(from: &mut R, to: &mut W, own: &[u8]) -> Result<Ended, Failed>
    ensures counted { WritesReport own.now result }
    ensures known { ReportsKnown own.now result (R.remaining from.old) (W.contents to.old) (W.contents to.new) }
{
    let mut reporter = Reporter {
        receiver: replays::start(own),
        store: [0; STORE],
    };
    printing::run_behind(from, to, own, &mut reporter)
}

// The same for an own address that is read too.
fn report<R: Read, W: Write>(from: &mut R, to: &mut W) -> Result<Ended, Failed>
    ensures { ReportsAll result (R.remaining from.old) (W.contents to.old) (W.contents to.new) }
{
    let mut own = [0; ADDRESS];
    let size = inputs::fill(from, &mut own)?;
    run(from, to, &own[..size])
}

fn main(rt: HostRuntime) {
    if programs::called_alone(&rt, rt.arg(1, &mut [0; 1]), "replay", "LOG") {
        let done = report(&mut rt.stdin(), &mut rt.stdout());
        programs::came_to_its_end(&rt, "replay", done);
    }
}
