// What the `main` functions of the programs have in common.
ghost use Rattle.std.specs.Prelude.{◌≡◌, ◌↔◌, IsTrue, IsOk, Err};

use super::causes;
use super::printing::{Ended, Failed};
use std::env::FillError;
use std::fmt;
use std::fmt::{Display, Formatter};

impl Display for Failed {
    fn fmt<W: fmt::Write>(&self, f: &mut Formatter<W>) -> fmt::Result {
        f.write_str(match self {
            Failed::Input(_) => "standard input can't be read",
            Failed::Output(_) => "standard output can't be written",
        })
    }
}

// Whether a program is called with no argument. With one its usage is said on standard error, with the name of what it reads.
pub fn called_alone<S: Eprint>(
    rt: &S,
    argument: Result<usize, FillError>,
    name: &str,
    reads: &str,
) -> bool
    ensures { IsTrue result ↔ (argument ≡ Err FillError.NotPresent) }
{
    let alone = matches!(argument, Err(FillError::NotPresent));
    if !alone {
        let _ = eprintln!(rt; "usage: {name} < {reads}");
    }
    alone
}

// Whether a program came to its end. Where it did not, what failed is said on standard error.
pub fn came_to_its_end<S: Eprint + AllocGlobal>(
    rt: &S,
    name: &str,
    done: Result<Ended, Failed>,
) -> bool
    ensures { IsTrue result ↔ IsOk done }
{
    if let Err(failed) = done {
        let cause = causes::cause(rt.alloc(), failed.error());
        let _ = eprintln!(rt; "{name}: {failed}{cause}");
        return false;
    }
    true
}
