//! The totals of entries, as an answer.

use crate::answers::Answer;
use bp_trail::{Entry, Totals};
use std::alloc::Global;

/// Returns the totals of these entries, less so many of the failed reads.
pub fn totals_of(alloc: Global, entries: &[Entry], unread: u64) -> Answer {
    let totals = Totals::of(entries);
    let (hits, faults, evictions) = (totals.hits, totals.faults, totals.evictions);
    let (writes, failed) = (totals.writes, totals.failed.saturating_sub(unread));
    let text = format!(in alloc;
        "hits {hits} faults {faults} evictions {evictions} writes {writes} failed {failed}"
    );
    match text {
        Ok(text) => Answer::Text(text),
        Err(_) => Answer::BadLine,
    }
}

/// Returns the number of entries that are refusals with 11, 12, 13 or 25.
pub fn refusals_of(entries: &[Entry]) -> Answer {
    Answer::Number(Totals::of(entries).refused)
}
