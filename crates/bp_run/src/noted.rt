//! `Noted`, a reader or a writer that keeps the last error of its calls.
ghost use Rattle.std.specs.Prelude.{◌≡◌};

use std::io;
use std::io::{Read, Write};

/// A reader or a writer, and the error of the last of its calls that failed.
#[derive(Drop)]
pub(crate) struct Noted<T> {
    inner: T,
    error: Option<io::Error>,
}

impl<T> Noted<T> {
    pub(crate) fn new(inner: T) -> Noted<T>
        ensures { result.inner ≡ inner }
    {
        Noted { inner, error: None }
    }

    pub(crate) fn inner(&self) -> &T {
        &self.inner
    }

    pub(crate) fn error(&self) -> Option<io::Error> {
        self.error
    }
}

impl<T: Read> Read for Noted<T> {
    ghost remaining = { λ noted. T.remaining noted.inner };

    fn read(&mut self, buf: &mut [u8]) -> io::Result<usize> {
        let read = self.inner.read(buf);
        if let Err(error) = &read {
            self.error = Some(*error);
        }
        read
    }
}

impl<T: Write> Write for Noted<T> {
    ghost contents = { λ noted. T.contents noted.inner };

    fn write(&mut self, buf: &[u8]) -> io::Result<usize> {
        let written = self.inner.write(buf);
        if let Err(error) = &written {
            self.error = Some(*error);
        }
        written
    }

    fn flush(&mut self) -> io::Result<()> {
        let flushed = self.inner.flush();
        if let Err(error) = &flushed {
            self.error = Some(*error);
        }
        flushed
    }
}
