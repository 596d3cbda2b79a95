//! `Limited`, a writer that gets full.
use std::alloc::Global;
use std::io;
use std::io::Write;

/// A writer that takes at most five bytes a call, and fails once it holds `limit` bytes.
#[derive(Drop)]
pub(crate) struct Limited {
    held: Vec<u8>,
    limit: usize,
}

impl Write for Limited {
    fn write(&mut self, buf: &[u8]) -> io::Result<usize> {
        let room = self.limit.saturating_sub(self.held.len());
        if room == 0 {
            return Err(io::Error::from(io::ErrorKind::StorageFull));
        }
        let count = room.min(buf.len()).min(5);
        self.held.extend_from_slice(&buf[..count])?;
        Ok(count)
    }

    fn flush(&mut self) -> io::Result<()> {
        Ok(())
    }
}

impl Limited {
    pub(crate) fn to(alloc: Global, limit: usize) -> Limited {
        let held = Vec::new(alloc);
        Limited { held, limit }
    }

    /// Returns true if the writer failed, with its own fault, exactly where it could not hold the whole text, and holds
    /// the text up to there.
    pub(crate) fn stopped_rightly(&self, outcome: io::Result<()>, whole: &[u8]) -> bool {
        let held = self.held.as_slice();
        match outcome {
            Ok(()) => held == whole,
            Err(fault) => {
                fault.kind() == io::ErrorKind::StorageFull
                    && held.len() == self.limit
                    && held.len() < whole.len()
                    && whole.starts_with(held)
            }
        }
    }
}
