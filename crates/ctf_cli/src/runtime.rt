//! The program over a runtime.

ghost use Rattle.std.specs.Prelude.{◌≡◌, ◌⊎◌, if◌then◌else◌};

use crate::disk::Disk;
use crate::log_writer::LogWriter;
use crate::printing::{program, say};
use ctf_bits::ToWrite;
use ctf_options::Usage;
use std::env;
use std::io::{ErrorKind, Write};
use std::rt::{Env, Files};

/// How many bytes of the log are held back at the most where it goes to no terminal.
const HELD: usize = 262_144;

/// Does what the command line asks for, and gives the exit status. To a terminal each line is written at once.
pub fn start<R, O, E>(rt: &R, out: O, is_terminal: bool, err: E) -> u8
where
    R: Env + Files + AllocGlobal + Clone + Drop,
    O: Write + Drop,
    E: Write + Drop,
    ensures status { (result ≡ 0) ⊎ (result ≡ 1) }
{
    let mut messages = ToWrite::new(err);
    let words = match words(rt) {
        Ok(words) => words,
        Err(usage) => return say(usage.text(), &mut messages),
    };
    let Ok(mut log) = LogWriter::new(rt.alloc(), held_by(is_terminal), out) else {
        return say(Usage::NoMemory.text(), &mut messages);
    };
    let disk = Disk::new(rt);
    let status = program(rt.alloc(), &words, &&disk, &mut log, &mut messages);
    let _ = log.close();
    status
}

/// How many bytes of the log are held back at the most.
fn held_by(is_terminal: bool) -> usize
    ensures { result ≡ (if is_terminal then 0 else HELD) }
{
    if is_terminal { 0 } else { HELD }
}

/// The words of the command line. One that is no text is a bad one.
fn words<R: Env + AllocGlobal>(rt: &R) -> Result<Vec<String>, Usage> {
    match env::args(rt) {
        Ok(words) => words
            .collect::<Vec<String>>(rt.alloc())
            .map_err(|_| Usage::NoMemory),
        Err(error) if error.kind() == ErrorKind::OutOfMemory => Err(Usage::NoMemory),
        Err(_) => Err(Usage::Bad),
    }
}
