// A program that makes text of octets, as they come: what is read is handed on, and its text written, before more is read.
ghost use Rattle.std.specs.Prelude.{◌≡◌, ◌≤◌, ◌<◌, ℕ, List, [], ◌++◌, false, length, take, IfOk, OnOk};
ghost use Rattle.std.specs.Io.KnownBytes.{Appends};
ghost use Rattle.inputs.specs.Inputs.{Prints, ReadAndWritten, AllWritten, behind_own, WrittenBehind, failed_by};
ghost use Rattle.inputs.specs.Parts.{PrintsTurn};
ghost use Rattle.inputs.specs.declared.printing.Failed.TheVariants.{Input};

use super::{Unread, read_behind, to_front};
use std::io;
use std::io::{Read, Write};

// Octets that are read at a time: those of the longest record of a log, so that one that has come whole always fits. And those of text that
// are written at a time.
const INPUT: usize = 65538;

pub const TEXT: usize = 65536;

// The most octets of a last line.
pub const END: usize = 67;

// Octets of an own address.
pub const ADDRESS: usize = 3;

// How many of the octets are answered, and where their text ends.
#[derive(Clone, Copy, Debug, PartialEq, Eq)]
pub struct Printed {
    pub taken: usize,
    pub end: usize,
}

// A state between the octets that were answered and those to come.
pub trait Printer {
    // The text of octets, from this state on to their end.
    ghost whole: { Self → List ℕ → List ℕ };

    // Answers octets, as many as there is room for, and writes their text in front. Where nothing follows them, which only `last` can say, those
    // left over are answered too.
    fn answer(&mut self, octets: &[u8], last: bool, text: &mut [u8; TEXT]) -> Printed
        ensures { Prints Self.whole self.old octets.now last result self.new text.new };

    // The text at the end, in front: where it ends.
    fn close(&self, text: &mut [u8; END]) -> usize
        ensures { (result ≤ length text.new) × (take result text.new ≡ Self.whole self.now []) };
}

// How many octets were read and how many of text were written, modulo 2^64.
#[derive(Clone, Copy, Debug, PartialEq, Eq)]
pub struct Ended {
    pub read: u64,
    pub written: u64,
}

// Which of the two failed, and why.
#[derive(Clone, Copy)]
pub enum Failed {
    Input(io::Error),
    Output(io::Error),
}

impl Failed {
    pub fn error(&self) -> io::Error
        ensures { result ≡ failed_by self.now }
    {
        match self {
            Failed::Input(error) | Failed::Output(error) => *error,
        }
    }
}

impl From<Unread> for Failed {
    ghost from_gives = { λ unread failed. failed ≡ Input unread.error };

    fn from(unread: Unread) -> Failed {
        Failed::Input(unread.error)
    }
}

// Writes a text, and keeps nothing of it back.
fn put<W: Write>(to: &mut W, text: &[u8]) -> Result<(), Failed>
    ensures { OnOk result (Appends (W.contents to.old) (W.contents to.new) text.now) }
{
    to.write_all(text).map_err(Failed::Output)?;
    to.flush().map_err(Failed::Output)
}

// How many octets are kept, and how many of text there were.
#[derive(Clone, Copy)]
struct Turn {
    kept: usize,
    letters: usize,
}

// Answers what has come: writes its text, and keeps in front the octets that are not answered yet.
fn answer<W: Write, P: Printer>(
    to: &mut W,
    printer: &mut P,
    input: &mut [u8],
    size: usize,
    last: bool,
    text: &mut [u8; TEXT],
) -> Result<Turn, Failed>
    requires { size ≤ length input.old }
    ensures { IfOk result (λ t. PrintsTurn P.whole printer.old (take size input.old) last t printer.new (take t.kept input.new) (W.contents to.old) (W.contents to.new)) }
{
    let printed = printer.answer(&input[..size], last, text);
    put(to, &text[..printed.end])?;
    let kept = to_front(&mut input[..size], printed.taken);
    Ok(Turn {
        kept,
        letters: printed.end,
    })
}

// Writes the text at the end: how long it was.
pub fn close<W: Write, P: Printer>(to: &mut W, printer: &P) -> Result<usize, Failed>
    ensures { IfOk result (λ n. (n ≡ length (P.whole printer.now [])) × Appends (W.contents to.old) (W.contents to.new) (P.whole printer.now [])) }
{
    let mut text = [0u8; END];
    let end = printer.close(&mut text);
    put(to, &text[..end])?;
    Ok(end)
}

// Octets are answered as soon as they can be: more is read only when none of those that have come is left. A proved loop has to end, and
// nothing says that the input does: the turns are counted up to a number that no run comes to.
pub fn run<R: Read, W: Write, P: Printer>(
    from: &mut R,
    to: &mut W,
    printer: &mut P,
) -> Result<Ended, Failed>
    ensures counted { IfOk result (λ e. ReadAndWritten P.whole printer.old e.read e.written) }
    ensures known { OnOk result (AllWritten P.whole printer.old (R.remaining from.old) (W.contents to.old) (W.contents to.new)) }
{
    // How many octets have come stands beside the memory for them, which is fixed: the programs keep nothing on a heap.
    let mut input = [0u8; INPUT];
    let mut text = [0u8; TEXT];
    let mut size: usize = 0;
    let mut last = false;
    let mut read: u64 = 0;
    let mut written: u64 = 0;
    'turns: for _ in 0..u64::MAX {
        let turn = answer(to, printer, &mut input, size, last, &mut text)?;
        written = written.wrapping_add(turn.letters as u64);
        if turn.kept < size {
            size = turn.kept;
            continue;
        }
        if last {
            let end = close(to, printer)?;
            written = written.wrapping_add(end as u64);
            return Ok(Ended { read, written });
        }
        let more = read_behind(from, &mut input, size)?;
        read = read.wrapping_add((more - size) as u64);
        last = more == size;
        size = more;
    }
    Err(Failed::Input(io::Error::other("too many turns")))
}

// The same behind an own address: where that is cut short nothing is read, and there is nothing but the text at the end.
pub fn run_behind<R: Read, W: Write, P: Printer>(
    from: &mut R,
    to: &mut W,
    own: &[u8],
    printer: &mut P,
) -> Result<Ended, Failed>
    ensures counted { IfOk result (λ e. ReadAndWritten (behind_own P.whole own.now) printer.old e.read e.written) }
    ensures known { OnOk result (WrittenBehind P.whole printer.old own.now (R.remaining from.old) (W.contents to.old) (W.contents to.new)) }
{
    if own.len() < ADDRESS {
        let end = close(to, printer)?;
        return Ok(Ended {
            read: 0,
            written: end as u64,
        });
    }
    run(from, to, printer)
}
