//! `Memory`: how much memory the program has, as the system tells it.

use std::fs::File;
use std::os::unix::fs::FileExt;
use std::rt::Files;

/// The program's memory in blocks of 4 KiB, looked at again and again.
#[derive(Drop)]
pub(crate) struct Memory {
    /// What the system tells of the process; its second number is wanted.
    file: File,
    /// The most blocks of the first part of the time, and of the rest.
    pub(crate) first: u64,
    pub(crate) later: u64,
}

/// Returns the second number of a line.
fn second_number(line: &[u8]) -> u64 {
    let mut words = line.split(|byte| *byte == b' ');
    let _ = words.next();
    let mut number = 0u64;
    if let Some(word) = words.next() {
        for byte in word {
            if byte.is_ascii_digit() {
                number = number
                    .saturating_mul(10)
                    .saturating_add(u64::from(byte.wrapping_sub(b'0')));
            }
        }
    }
    number
}

impl Memory {
    pub(crate) fn open(rt: &impl Files<File = File>) -> Result<Memory, anyhow::Error> {
        Ok(Memory {
            file: File::open(rt, "/proc/self/statm")?,
            first: 0,
            later: 0,
        })
    }

    /// Looks how much there is now, in the first part of the time or later.
    pub(crate) fn look(&mut self, is_later: bool) {
        let mut line = [0; 128];
        let Ok(length) = self.file.read_at(&mut line, 0) else {
            return;
        };
        let blocks = second_number(&line[..length.min(128)]);
        if is_later {
            self.later = self.later.max(blocks);
        } else {
            self.first = self.first.max(blocks);
        }
    }

    /// Returns true if what there was later is no more than a quarter and 8 MiB above what there was at first.
    pub(crate) fn is_flat(&self) -> bool {
        self.first > 0
            && self.later > 0
            && self.later
                <= self
                    .first
                    .saturating_add(self.first / 4)
                    .saturating_add(2048)
    }
}
