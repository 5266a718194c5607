// A file read into a lent buffer.
#![tactic(auto)]

ghost use Rattle.std.specs.Prelude.{◌≤◌, length};
ghost use Rattle.files.specs.File.{Within, ReadInto};

use std::io::{ErrorKind, Read};
use std::rt::Files;
use std::{fs, io};

// A file can't be read, and standard error was told why.
#[derive(Clone, Copy)]
pub struct Unreadable;

// Tells standard error why the file can't be read.
fn tell<R: Eprint>(rt: &R, path: &str, error: io::Error) -> Unreadable {
    let _ = eprintln!(rt; "{path}: {error}");
    Unreadable
}

// Reads until the buffer is full or the file ends, and says how many bytes it had.
#[tactic(auto, using(crate::proofs::Reading::read_on))]
fn read_whole<R: Eprint, F: Read>(
    rt: &R,
    file: &mut F,
    path: &str,
    buffer: &mut [u8],
) -> Result<usize, Unreadable>
    ensures within { Within result buffer.new }
    ensures bytes { ReadInto result (F.remaining file.old) (F.remaining file.new) buffer.new }
{
    // `read_exact` fails where the file ends first, and `read_to_end` needs a heap.
    let mut done = 0;
    while done < buffer.len() {
        let more = file
            .read(&mut buffer[done..])
            .map_err(|error| tell(rt, path, error))?;
        if more == 0 {
            break;
        }
        done += more;
    }
    Ok(done)
}

// A missing file counts as the first `missing` bytes of the buffer, as it was lent.
pub fn load<R: Files + Eprint>(
    rt: &R,
    path: &str,
    buffer: &mut [u8],
    missing: usize,
) -> Result<usize, Unreadable>
    requires { missing ≤ length buffer.old }
    ensures { Within result buffer.new }
{
    match fs::open(rt, path) {
        Ok(mut file) => read_whole(rt, &mut file, path, buffer),
        Err(error) if error.kind() == ErrorKind::NotFound => Ok(missing),
        Err(error) => Err(tell(rt, path, error)),
    }
}
