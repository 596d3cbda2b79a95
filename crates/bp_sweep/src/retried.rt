//! `Retried`, a reader that repeats interrupted reads.
ghost use Rattle.std.specs.Prelude.{◌≡◌};

use std::io;
use std::io::{ErrorKind, Read};

/// The most calls for one read; after them the read is interrupted.
const MAX_CALLS: u32 = 134_217_728;

/// A reader that repeats interrupted reads.
#[derive(Drop)]
pub(crate) struct Retried<R: Read + Drop> {
    reader: R,
}

impl<R: Read + Drop> Retried<R> {
    pub(crate) fn new(reader: R) -> Retried<R>
        ensures { result.reader ≡ reader }
    {
        Retried { reader }
    }
}

impl<R: Read + Drop> Read for Retried<R> {
    ghost remaining = { λ r. R.remaining r.reader };

    fn read(&mut self, buf: &mut [u8]) -> io::Result<usize> {
        for _ in 0..MAX_CALLS {
            match self.reader.read(buf) {
                Err(e) if e.kind() == ErrorKind::Interrupted => {}
                read => return read,
            }
        }
        Err(io::Error::from(ErrorKind::Interrupted))
    }
}
