// What a program reads: octets behind those that it has kept, and the rest of them moved to the front.
#![tactic(auto)]

ghost use Rattle.std.specs.Prelude.{◌≡◌, ◌+◌, ◌-◌, ◌≤◌, ◌<◌, IfOk, length, take, drop};
ghost use Rattle.std.specs.Io.KnownBytes.{Consumes, IsAtEnd};
ghost use Rattle.foundation.specs.Octets.{put};
ghost use Rattle.inputs.specs.Inputs.{ReadBehind, size_read};

use std::io;
use std::io::{ErrorKind, Read};

pub mod causes;
pub mod printing;
pub mod programs;

// How many octets there were when no more could be read, and why.
#[derive(Clone, Copy)]
pub struct Unread {
    pub size: usize,
    pub error: io::Error,
}

// What there is to read, put behind the first octets, which stay: how many there are now. Where there are no more, the input has ended.
pub fn read_behind<R: Read>(reader: &mut R, input: &mut [u8], first: usize) -> Result<usize, Unread>
    ensures behind { ReadBehind input.old first (size_read result) input.new }
    ensures taken { Consumes (R.remaining reader.old) (R.remaining reader.new) (drop first (take (size_read result) input.new)) }
    ensures ended { IfOk result (λ n. n ≡ first → first < length input.old → IsAtEnd (R.remaining reader.new)) }
{
    if input.len() < first {
        return Err(Unread {
            size: first,
            error: io::Error::from(ErrorKind::InvalidInput),
        });
    }
    match reader.read(&mut input[first..]) {
        Ok(more) => Ok(first + more),
        Err(error) => Err(Unread { size: first, error }),
    }
}

// Reads until the octets are filled, the input ends or can't be read.
pub fn fill<R: Read>(reader: &mut R, octets: &mut [u8]) -> Result<usize, Unread>
    ensures inside { size_read result ≤ length octets.new }
    ensures taken { Consumes (R.remaining reader.old) (R.remaining reader.new) (take (size_read result) octets.new) }
    ensures ended { IfOk result (λ n. n < length octets.new → IsAtEnd (R.remaining reader.new)) }
{
    let mut size: usize = 0;
    // A `for` would count turns that nothing bounds; the rest to be filled gets smaller.
    while size < octets.len() {
        let more = read_behind(reader, octets, size)?;
        if more == size {
            break;
        }
        size = more;
    }
    Ok(size)
}

// The octets from a place on become the first ones: how many these are.
pub fn to_front(octets: &mut [u8], at: usize) -> usize
    ensures { (result ≡ length octets.old - at) × (octets.new ≡ put octets.old 0 (drop at octets.old)) }
{
    let size = octets.len();
    if size <= at {
        return 0;
    }
    octets.copy_within(at..size, 0);
    size - at
}
