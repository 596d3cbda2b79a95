//! The first unsaved page of the whole file, and the counts of all parts. The parts are asked one after the other, and
//! each answers of its own trail, as its session saw it then.
ghost use Rattle.std.specs.Prelude.{◌≡◌, ◌<◌, ◌≤◌, ◌+◌, ◌*◌, ℕ, IfSome};
ghost use Rattle.bp_parts.specs.Finding.{in_file};
ghost use Rattle.bp_parts.specs.Redo.{earlier};
ghost use Rattle.bp_parts.specs.Sums.{both_stats, both_totals, no_stats};

use super::{PartCount, PartedPool};
use crate::sessions::PartedSession;
use bp_core::Stats;
use bp_keeper::ListKeeper;
use bp_page::PageNo;
use bp_shared::PartNames;
use bp_trail::Totals;
use std::sync::Wait;

/// Returns the first page of a part, of so many, that stands in the file at this number or after it.
fn first_from(from: u64, parts: u64, part: u64) -> u64
    requires { part < parts }
    ensures enough { from ≤ result * parts + part }
    ensures least { (page : ℕ) → from ≤ page * parts + part → result ≤ page }
{
    let row = from / parts;
    if part < from % parts { row + 1 } else { row }
}

/// Returns the page of the file that a page of a part, of so many, is.
fn place_in_file(page: Option<PageNo>, parts: u64, part: u64) -> Option<PageNo>
    requires part { part < parts }
    requires few_parts { parts ≤ 64 }
    requires few { IfSome page (λ page. page < 1048576) }
    ensures { result ≡ in_file parts part page }
{
    match page {
        Some(page) => Some(PageNo::new(page.number() * parts + part)),
        None => None,
    }
}

/// Returns the lesser of two pages, where there are both.
fn nearer_of(one: Option<PageNo>, other: Option<PageNo>) -> Option<PageNo>
    ensures { result ≡ earlier one other }
{
    match (one, other) {
        (Some(one), Some(other)) => Some(one.min(other)),
        (None, other) => other,
        (one, None) => one,
    }
}

/// Returns the sums of the replies, each 2^64 − 1 at most.
fn both_totals_of(one: &Totals, other: &Totals) -> Totals
    ensures { result ≡ both_totals one.now other.now }
{
    Totals {
        hits: one.hits.saturating_add(other.hits),
        faults: one.faults.saturating_add(other.faults),
        evictions: one.evictions.saturating_add(other.evictions),
        writes: one.writes.saturating_add(other.writes),
        failed: one.failed.saturating_add(other.failed),
        refused: one.refused.saturating_add(other.refused),
        discards: one.discards.saturating_add(other.discards),
    }
}

/// Returns the sums of the counts, each 2^64 − 1 at most.
fn both_of(one: &Stats, other: &Stats) -> Stats
    ensures { result ≡ both_stats one.now other.now }
{
    Stats {
        totals: both_totals_of(&one.totals, &other.totals),
        resident: one.resident.saturating_add(other.resident),
        pinned: one.pinned.saturating_add(other.pinned),
        unsaved: one.unsaved.saturating_add(other.unsaved),
        loading: one.loading.saturating_add(other.loading),
        writing: one.writing.saturating_add(other.writing),
    }
}

/// Counts nothing.
fn none() -> Stats
    ensures { result ≡ no_stats }
{
    Stats {
        totals: Totals::none(),
        resident: 0,
        pinned: 0,
        unsaved: 0,
        loading: 0,
        writing: 0,
    }
}

impl<N: PartNames + PartCount, K: ListKeeper> PartedPool<N, K> {
    ghost use Rattle.std.specs.Prelude.{◌≡◌, ◌<◌, ◌≤◌, ◌*◌, IfSome};
    ghost use Rattle.bp_shared.specs.Telling.{Sees};
    ghost use Rattle.bp_parts.specs.Finding.{FindsInFile};
    ghost use Rattle.bp_parts.specs.Parts.{InEachPart};
    ghost use Rattle.bp_parts.specs.Sums.{SumsUp};

    /// Returns the first unsaved page of the whole file from this number on, each part as it is when it is asked, one
    /// after the other: `None` where no part had one then. A part has 1,048,576 pages at most.
    pub fn next_unsaved_of_all<R: Wait>(
        &self,
        rt: &R,
        session: &mut PartedSession<N, K>,
        from: u64,
    ) -> Option<PageNo>
        requires few { N.parameters.pages ≤ 1048576 }
        ensures client { session.new.client ≡ session.old.client }
        ensures sees { InEachPart session.old session.new (Sees N.parameters N.past) }
        ensures found { FindsInFile N.parts N.parts N.parameters.pages from session.new.sessions
            result }
        ensures page_in { IfSome result (λ page. page < N.parts * N.parameters.pages) }
    {
        let parts = self.parts.len() as u64;
        let mut least = None;
        for part in 0..self.parts.len() {
            let mine = &mut session.sessions[part];
            let first = first_from(from, parts, part as u64);
            let found = self.pool_of(mine).next_unsaved(rt, mine, first);
            least = nearer_of(least, place_in_file(found, parts, part as u64));
        }
        least
    }

    /// Returns the counts of all parts, added up, each part as it is when it is asked. A sum above 2^64 − 1 is told as
    /// that.
    pub fn stats_of_all<R: Wait>(&self, rt: &R, session: &mut PartedSession<N, K>) -> Stats
        ensures client { session.new.client ≡ session.old.client }
        ensures sees { InEachPart session.old session.new (Sees N.parameters N.past) }
        ensures sums { SumsUp session.new.sessions N.parts result }
    {
        let mut sum = none();
        for part in 0..self.parts.len() {
            let mine = &mut session.sessions[part];
            let own = self.pool_of(mine).stats(rt, mine);
            sum = both_of(&sum, &own);
        }
        sum
    }
}
