//! A page file of which some reads and writes fail.
use std::fs::{File, Metadata, OpenFile};
use std::io;
use std::os::unix::fs::FileExt;
use std::sync::atomic::{AtomicU64, Ordering};

/// Each call of so many fails.
const EVERY: u64 = 13;

/// A file of which each 13th read or write fails, and does nothing.
#[derive(Drop)]
pub(crate) struct Failing {
    file: File,
    calls: AtomicU64,
}

impl Failing {
    /// Takes a file, as if so many calls had been made.
    pub(crate) fn new(file: File, calls: u64) -> Failing {
        Failing {
            file,
            calls: AtomicU64::new(calls),
        }
    }

    fn count(&self) -> io::Result<()> {
        if self.calls.fetch_add(1, Ordering::SeqCst) % EVERY == 0 {
            return Err(io::ErrorKind::Other.into());
        }
        Ok(())
    }
}

impl FileExt for Failing {
    fn read_at(&self, buf: &mut [u8], offset: u64) -> io::Result<usize> {
        match self.count() {
            Ok(()) => self.file.read_at(buf, offset),
            Err(error) => Err(error),
        }
    }

    fn write_at(&self, buf: &[u8], offset: u64) -> io::Result<usize> {
        match self.count() {
            Ok(()) => self.file.write_at(buf, offset),
            Err(error) => Err(error),
        }
    }
}

impl OpenFile for Failing {
    fn metadata(&self) -> io::Result<Metadata> {
        self.file.metadata()
    }

    fn set_len(&self, size: u64) -> io::Result<()> {
        self.file.set_len(size)
    }

    fn sync_all(&self) -> io::Result<()> {
        self.file.sync_all()
    }

    fn sync_data(&self) -> io::Result<()> {
        self.file.sync_data()
    }
}
