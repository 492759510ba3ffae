// Why a stream failed, in the system's words.
ghost use Rattle.std.specs.Prelude.{◌≡◌, None, [], string_bytes};
ghost use Rattle.std.specs.IoError.{raw_os_error};

use std::alloc::{AllocError, Global};
use std::io;
use std::string::String;

// A colon and the system's text for an error, without its number.
fn told(alloc: Global, error: io::Error) -> Result<String, AllocError> {
    let mut text = format!(in alloc; ": {error}")?;
    if let Some(end) = text.find(" (os error ") {
        text.truncate(end);
    }
    Ok(text)
}

// What a program adds to its word that a stream failed: nothing where the system gave no error, or no memory to say it.
pub fn cause(alloc: Global, error: io::Error) -> String
    ensures { raw_os_error error ≡ None → string_bytes result ≡ [] }
{
    if error.raw_os_error().is_none() {
        return String::new(alloc);
    }
    told(alloc, error).unwrap_or(String::new(alloc))
}
