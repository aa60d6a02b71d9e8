//! Calls of the system are made again where a signal interrupts them before they do anything.

ghost use Rattle.std.specs.Prelude.{◌≡◌, ◌≢◌, ◌↔◌, IfErr, IsTrue, length};
ghost use Rattle.std.specs.Io.{ReadsAtMost, WritesAtMost};
ghost use Rattle.std.specs.Io.KnownBytes.{ReadConsumes, WriteAppends, Keeps};
ghost use Rattle.std.specs.IoError.{error_kind};

use std::io::{self, Error, ErrorKind, Read, Write};

/// What a call gives that no signal interrupts.
pub fn retry_interrupted<T, F: FnMut() -> io::Result<T>>(mut call: F) -> io::Result<T>
    requires { F.IsAlwaysCallable call }
    ensures { IfErr result (λ error. error_kind error ≢ ErrorKind.Interrupted) }
{
    for _ in 0..u64::MAX {
        match call() {
            Err(error) if is_interrupted(&error) => {}
            answer => return answer,
        }
    }
    Err(Error::from(ErrorKind::TimedOut))
}

/// Whether a signal interrupted the call that failed so.
fn is_interrupted(error: &Error) -> bool
    ensures { IsTrue result ↔ (error_kind error.now ≡ ErrorKind.Interrupted) }
{
    error.kind() == ErrorKind::Interrupted
}

/// Reads once, and again as long as the read was interrupted.
pub fn read_uninterrupted<R: Read>(reader: &mut R, buf: &mut [u8]) -> io::Result<usize>
    ensures bound { ReadsAtMost result buf.new }
    ensures same { length buf.new ≡ length buf.old }
    ensures bytes { ReadConsumes (R.remaining reader.old) (R.remaining reader.new) result buf.new }
    ensures again { IfErr result (λ error. error_kind error ≢ ErrorKind.Interrupted) }
{
    for _ in 0..u64::MAX {
        match reader.read(buf) {
            Err(error) if is_interrupted(&error) => {}
            answer => return answer,
        }
    }
    Err(Error::from(ErrorKind::TimedOut))
}

/// Writes once, and again as long as the write was interrupted.
pub fn write_uninterrupted<W: Write>(writer: &mut W, bytes: &[u8]) -> io::Result<usize>
    ensures bound { WritesAtMost result bytes.now }
    ensures bytes { WriteAppends (W.contents writer.old) (W.contents writer.new) result bytes.now }
    ensures again { IfErr result (λ error. error_kind error ≢ ErrorKind.Interrupted) }
{
    for _ in 0..u64::MAX {
        match writer.write(bytes) {
            Err(error) if is_interrupted(&error) => {}
            answer => return answer,
        }
    }
    Err(Error::from(ErrorKind::TimedOut))
}

/// Passes on what a writer holds back, and again as long as that was interrupted.
pub fn flush_uninterrupted<W: Write>(writer: &mut W) -> io::Result<()>
    ensures bytes { Keeps (W.contents writer.old) (W.contents writer.new) }
    ensures again { IfErr result (λ error. error_kind error ≢ ErrorKind.Interrupted) }
{
    for _ in 0..u64::MAX {
        match writer.flush() {
            Err(error) if is_interrupted(&error) => {}
            answer => return answer,
        }
    }
    Err(Error::from(ErrorKind::TimedOut))
}
