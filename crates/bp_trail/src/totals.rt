//! `Totals`: the number of replies of each kind in a list of entries.
ghost use Rattle.std.specs.Prelude.{◌≡◌, ◌↔◌, ◌+◌, ◌^◌, ◌<◌, IfSome, IsSome};
ghost use Rattle.bp_trail.specs.Totals.{HasRoom, FitTogether, both, counted, no_totals, totals_of};

use crate::entries::{Entry, Reply};

/// The number of replies of each kind. A reply is of one kind at most.
#[derive(Clone, Copy, PartialEq, Eq, Debug, Drop)]
pub struct Totals {
    /// Fixes that found their page in a frame.
    pub hits: u64,
    /// Pages that came into a frame: read from the device, or new.
    pub faults: u64,
    /// Pages that left a frame for another page.
    pub evictions: u64,
    /// Write-outs that ended well.
    pub writes: u64,
    /// Reads and write-outs that failed, and reads that found another page.
    pub failed: u64,
    /// Calls that were refused with 11, 12, 13 or 25.
    pub refused: u64,
    /// Pages that left a frame because they were discarded.
    pub discards: u64,
}

impl Totals {
    pub fn none() -> Totals
        ensures { result ≡ no_totals }
    {
        Totals {
            hits: 0,
            faults: 0,
            evictions: 0,
            writes: 0,
            failed: 0,
            refused: 0,
            discards: 0,
        }
    }

    /// Counts the replies of some entries, as of a trail, of a piece of one, or of a session's list. It goes over them
    /// once.
    pub fn of(entries: &[Entry]) -> Totals
        ensures { result ≡ totals_of entries.now }
    {
        let mut totals = Totals::none();
        for entry in entries {
            totals.count(&entry.reply);
        }
        totals
    }

    /// Counts one more reply. A total that stands at 2^64 − 1 goes on from 0, and is wrong from then on.
    #[inline(always)]
    pub fn count(&mut self, reply: &Reply)
        ensures { HasRoom self.old → self.new ≡ counted reply.now self.old }
    {
        match reply {
            Reply::Hit(_) => self.hits = one_more(self.hits),
            Reply::Fixed(_) => self.faults = one_more(self.faults),
            Reply::Load {
                evicted: Some(_),
                ..
            } => self.evictions = one_more(self.evictions),
            Reply::Cleaned | Reply::StillDirty => self.writes = one_more(self.writes),
            Reply::ReadFailed | Reply::WrongPage | Reply::WriteFailed => {
                self.failed = one_more(self.failed)
            }
            Reply::NoVictim | Reply::NeedLog(_) | Reply::Busy | Reply::Pinned => {
                self.refused = one_more(self.refused)
            }
            Reply::Discarded => self.discards = one_more(self.discards),
            _ => {}
        }
    }

    /// Adds up two totals, as those of two pieces of one trail. `None` where one of the seven sums would be above 2^64 −
    /// 1.
    pub fn plus(self, more: Totals) -> Option<Totals>
        ensures sums { IfSome result (λ totals. totals ≡ both self more) }
        ensures fit { IsSome result ↔ FitTogether self more }
    {
        Some(Totals {
            hits: self.hits.checked_add(more.hits)?,
            faults: self.faults.checked_add(more.faults)?,
            evictions: self.evictions.checked_add(more.evictions)?,
            writes: self.writes.checked_add(more.writes)?,
            failed: self.failed.checked_add(more.failed)?,
            refused: self.refused.checked_add(more.refused)?,
            discards: self.discards.checked_add(more.discards)?,
        })
    }
}

/// The next number, or 0 after 2^64 − 1.
#[inline(always)]
fn one_more(n: u64) -> u64
    ensures { n + 1 < 2 ^ 64 → result ≡ n + 1 }
{
    n.wrapping_add(1)
}
