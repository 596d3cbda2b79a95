//! `Answers`: what the clients were answered, beside what the trail has of it.

use hojzmated::{Entry, Refusal, Reply};

/// How often each refusal was answered. Those of the pool itself stand in the trail; those of the device are counted by
/// the ports too.
#[derive(Clone, Copy, Debug, PartialEq, Eq, Drop)]
pub(crate) struct Answers {
    pub(crate) no_victim: u64,
    pub(crate) need_log: u64,
    pub(crate) pinned: u64,
    /// Reads and write-outs that failed.
    pub(crate) failed: u64,
}

impl Answers {
    pub(crate) fn none() -> Answers {
        Answers {
            no_victim: 0,
            need_log: 0,
            pinned: 0,
            failed: 0,
        }
    }

    /// Counts a refusal. Returns false if it is of another kind.
    pub(crate) fn count(&mut self, refusal: Refusal) -> bool {
        let counter = match refusal {
            Refusal::NoVictim => &mut self.no_victim,
            Refusal::NeedLog(_) => &mut self.need_log,
            Refusal::Pinned => &mut self.pinned,
            Refusal::ReadFailed | Refusal::WriteFailed => &mut self.failed,
            _ => return false,
        };
        *counter = counter.saturating_add(1);
        true
    }

    /// Counts the refusals that an entry tells.
    pub(crate) fn count_entry(&mut self, entry: &Entry) {
        let _ = match &entry.reply {
            Reply::NoVictim => self.count(Refusal::NoVictim),
            Reply::NeedLog(lsn) => self.count(Refusal::NeedLog(*lsn)),
            Reply::Pinned => self.count(Refusal::Pinned),
            Reply::ReadFailed => self.count(Refusal::ReadFailed),
            Reply::WriteFailed => self.count(Refusal::WriteFailed),
            _ => false,
        };
    }

    pub(crate) fn add(&mut self, other: &Answers) {
        self.no_victim = self.no_victim.saturating_add(other.no_victim);
        self.need_log = self.need_log.saturating_add(other.need_log);
        self.pinned = self.pinned.saturating_add(other.pinned);
        self.failed = self.failed.saturating_add(other.failed);
    }
}
