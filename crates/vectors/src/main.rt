// Runs the worked examples and the published values: those of the codes through the public functions of the crate codes, then those that
// the library packet_vectors runs. A line for each case: its name, what was computed, and `ok`, or `wrong, not` and what it should be. The
// last line counts the cases and the wrong ones. Words, octets and numbers of refusals are in hexadecimal, positions in decimal.
// Where a line can't be written, standard error says so at the end. With an argument nothing is run.
#![tactic(auto)]

mod block_fields;
mod check_cases;
mod slot_types;

use inputs::causes;
use report::Report;
use std::env::{Env, FillError};

// Not by `called_alone`, which says what a program reads: this one reads nothing.
fn main(rt: HostRuntime) {
    if !matches!(rt.arg(1, &mut [0u8; 1]), Err(FillError::NotPresent)) {
        let _ = eprintln!(rt; "usage: vectors");
        return;
    }
    let mut report = Report::new(rt.stdout());
    slot_types::cases(&mut report);
    block_fields::cases(&mut report);
    check_cases::cases(&mut report);
    packet_vectors::cases(&mut report);
    report.close();
    if let Some(error) = report.tally.failed {
        let cause = causes::cause(rt.alloc(), error);
        let _ = eprintln!(rt; "vectors: standard output{cause}");
    }
}
