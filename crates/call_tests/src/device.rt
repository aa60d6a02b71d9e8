//! Readers and writers that mostly do alike at each call.

ghost use Rattle.std.specs.Prelude.{◌≤◌, length};

use std::io::{self, Error, ErrorKind, Read, Write};

/// What gives and takes nothing, or fails.
#[derive(Drop)]
pub enum Device {
    Silent,
    Broken,
    /// A signal interrupts its first call.
    Interrupted,
    /// After that it gives one byte, and takes everything.
    Resumed,
}

impl Device {
    /// The device of this name.
    pub fn named(name: &str) -> Device {
        match name {
            "silent" => Device::Silent,
            "interrupted" => Device::Interrupted,
            _ => Device::Broken,
        }
    }

    /// The error of a call that a signal interrupts; no later call is interrupted.
    fn interrupt(&mut self) -> Error {
        *self = Device::Resumed;
        Error::from(ErrorKind::Interrupted)
    }
}

impl Read for Device {
    fn read(&mut self, buf: &mut [u8]) -> io::Result<usize> {
        match self {
            Device::Silent => Ok(0),
            Device::Broken => Err(Error::from(ErrorKind::BrokenPipe)),
            Device::Interrupted => Err(self.interrupt()),
            Device::Resumed => {
                *self = Device::Silent;
                Ok(put_byte(buf))
            }
        }
    }
}

/// Puts a byte into a buffer, if it has room. How many bytes were put.
fn put_byte(buf: &mut [u8]) -> usize
    ensures { result ≤ length buf.new }
{
    match buf.first_mut() {
        None => 0,
        Some(first) => {
            *first = b'x';
            1
        }
    }
}

impl Write for Device {
    fn write(&mut self, buf: &[u8]) -> io::Result<usize> {
        match self {
            Device::Silent => Ok(0),
            Device::Broken => Err(Error::from(ErrorKind::BrokenPipe)),
            Device::Interrupted => Err(self.interrupt()),
            Device::Resumed => Ok(buf.len()),
        }
    }

    /// One that was interrupted and has passed on what it held back is silent then.
    fn flush(&mut self) -> io::Result<()> {
        match self {
            Device::Silent => Ok(()),
            Device::Broken => Err(Error::from(ErrorKind::BrokenPipe)),
            Device::Interrupted => Err(self.interrupt()),
            Device::Resumed => {
                *self = Device::Silent;
                Ok(())
            }
        }
    }
}
