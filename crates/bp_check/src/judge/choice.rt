//! The page that LRU-K replaces, and the pages that a purge forgets.
ghost use Rattle.std.specs.Prelude.{◌≡◌, ◌<◌, true};
ghost use Rattle.bp_trail.specs.Places.{resident};
ghost use Rattle.bp_trail.specs.References as references;
ghost use Rattle.bp_trail.specs.Victim as of;
ghost use Rattle.bp_check.specs.Ranks.{rank_of};

use crate::judge::Judge;
use crate::spans::{burst_stamp, forgotten, last_of};
use bp_page::PageNo;

/// The key by which candidates are ordered: by K-th stamp, then last time, then page number.
#[derive(Clone, Copy)]
pub(super) struct Rank {
    stamp: u128,
    last: u64,
    page: PageNo,
}

/// Returns true if page `a` leaves before page `b`.
fn before(a: &Rank, b: &Rank) -> bool
    ensures { result ≡ of.before (rank_of a.now) (rank_of b.now) }
{
    a.stamp < b.stamp
        || (a.stamp == b.stamp
            && (a.last < b.last || (a.last == b.last && a.page.number() < b.page.number())))
}

impl Judge {
    /// The time of the newest reference of a resident page.
    fn last(&self, page: PageNo) -> u64
        requires { resident self.now.past page ≡ true }
        ensures { result ≡ references.last self.now.parameters self.now.past page }
    {
        last_of(&self.spans[page.number() as usize])
    }

    /// The rank of a resident page: its K-th stamp, the time of its newest reference, and its number.
    fn rank(&self, page: PageNo) -> Rank
        requires { resident self.now.past page ≡ true }
        ensures { rank_of result ≡ of.rank self.now.parameters self.now.past page }
    {
        let known = &self.spans[page.number() as usize];
        Rank {
            stamp: burst_stamp(known, self.setup.settings.k - 1),
            last: last_of(known),
            page,
        }
    }

    /// Returns true if a resident page may leave: it has no pins, is not being written out, and was last referenced
    /// more than the correlated period ago.
    fn candidate(&self, page: PageNo) -> bool
        requires { resident self.now.past page ≡ true }
        ensures { result ≡ of.candidate self.now.parameters self.now.past page }
    {
        self.pins(page) == 0
            && !self.writing(page)
            && self.setup.settings.correlated < self.clock.saturating_sub(self.last(page))
    }

    /// Returns the candidate that comes before all others, or `None` where there is none.
    pub(super) fn victim(&self) -> Option<PageNo>
        ensures { result ≡ of.victim self.now.parameters self.now.past }
    {
        let mut first: Option<Rank> = None;
        for place in 0..self.residents.len() {
            let page = self.residents.at(place);
            if self.candidate(page) {
                let rank = self.rank(page);
                first = match first {
                    Some(best) => Some(if before(&rank, &best) { rank } else { best }),
                    None => Some(rank),
                };
            }
        }
        match first {
            Some(best) => Some(best.page),
            None => None,
        }
    }

    /// Returns the number of pages that a purge forgets now.
    pub(super) fn forgotten(&self) -> u64
        ensures { result ≡ references.forgotten self.now.parameters self.now.past }
    {
        let retained = self.setup.settings.retained;
        forgotten(
            &self.spans,
            retained,
            self.clock,
            &self.residents,
            &self.reads_out,
        )
    }
}
