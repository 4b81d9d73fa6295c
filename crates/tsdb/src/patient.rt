//! A standard end of the process, read or written with patience.
use std::io::{Error, ErrorKind, Read, Result as IoResult, Write};
use std::thread;
use std::time::{Clock, Duration};

/// How many milliseconds a call waits for an end that isn't ready, before it is made again.
const PAUSE: u64 = 1;

/// A reader or a writer whose calls wait until it is ready: one that doesn't block answers that it isn't (POSIX, EAGAIN), and
/// is asked again after a millisecond. It remembers the error of the last call that failed.
#[derive(Drop)]
pub struct Patient<R, E> {
    rt: R,
    end: E,
    error: Option<Error>,
}

impl<R: Clock, E> Patient<R, E> {
    /// An end of which no call failed yet. It takes no memory.
    pub fn new(rt: R, end: E) -> Patient<R, E> {
        Patient {
            rt,
            end,
            error: None,
        }
    }

    /// The error of the last call that failed.
    pub fn error(&self) -> Option<&Error> {
        self.error.as_ref()
    }

    /// Waits a while where the end isn't ready. Any other error is remembered, and given back.
    fn wait(&mut self, error: Error) -> IoResult<()> {
        if error.kind() == ErrorKind::WouldBlock {
            thread::sleep(&self.rt, Duration::from_millis(PAUSE));
            return Ok(());
        }
        self.error = Some(same_error(&error));
        Err(error)
    }
}

/// An error of the same number, or where it has none of the same kind.
fn same_error(error: &Error) -> Error {
    match error.raw_os_error() {
        Some(code) => Error::from_raw_os_error(code),
        None => error.kind().into(),
    }
}

impl<R: Clock, E: Read> Read for Patient<R, E> {
    fn read(&mut self, buf: &mut [u8]) -> IoResult<usize> {
        for _ in 0..u64::MAX {
            match self.end.read(buf) {
                Ok(n) => return Ok(n),
                Err(error) => self.wait(error)?,
            }
        }
        Err(ErrorKind::WouldBlock.into())
    }
}

impl<R: Clock, E: Write> Write for Patient<R, E> {
    fn write(&mut self, bytes: &[u8]) -> IoResult<usize> {
        for _ in 0..u64::MAX {
            match self.end.write(bytes) {
                Ok(n) => return Ok(n),
                Err(error) => self.wait(error)?,
            }
        }
        Err(ErrorKind::WouldBlock.into())
    }

    fn flush(&mut self) -> IoResult<()> {
        self.end.flush()
    }
}
