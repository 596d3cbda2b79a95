//! Answers from the results of calls.

use bp_core::{Discarded, Stats};
use bp_device::{Flushed, NotFlushed};
use bp_page::{Image, Lsn, PageNo, PortFault, Refusal};
use bp_trail::Reply;
use scenario_words::Answer;
use std::alloc::Global;

/// Returns the answer of a call that gives nothing.
pub fn done(outcome: Result<(), Refusal>) -> Answer {
    match outcome {
        Ok(()) => Answer::Reply(Reply::Done),
        Err(refusal) => Answer::Refused(refusal),
    }
}

pub fn content(read: Result<Image, Refusal>) -> Answer {
    match read {
        Ok(image) => Answer::Reply(Reply::Content(image)),
        Err(refusal) => Answer::Refused(refusal),
    }
}

/// Returns the answer of a flush that was done with its write-out.
pub fn flushed(outcome: Result<Flushed, Refusal>) -> Answer {
    match outcome {
        Ok(Flushed::Clean) => Answer::Reply(Reply::Clean),
        Ok(Flushed::Absent) => Answer::Reply(Reply::Absent),
        Ok(Flushed::Cleaned) => Answer::Reply(Reply::Cleaned),
        Ok(Flushed::StillDirty) => Answer::Reply(Reply::StillDirty),
        Err(refusal) => Answer::Refused(refusal),
    }
}

pub fn discarded(outcome: Result<Discarded, Refusal>) -> Answer {
    match outcome {
        Ok(how) => Answer::Reply(how.reply()),
        Err(refusal) => Answer::Refused(refusal),
    }
}

pub fn flushed_all(outcome: Result<(), NotFlushed>) -> Answer {
    match outcome {
        Ok(()) => Answer::Reply(Reply::Done),
        Err(stop) => Answer::Stopped(stop.page, stop.why),
    }
}

/// Returns the answer of a write or a sync of a device.
pub fn went(outcome: Result<(), PortFault>) -> Answer {
    match outcome {
        Ok(()) => Answer::Reply(Reply::Done),
        Err(_) => Answer::Word("failed"),
    }
}

pub fn page_or_none(page: Option<PageNo>) -> Answer {
    match page {
        Some(page) => Answer::Number(page.number()),
        None => Answer::Word("none"),
    }
}

pub fn lsn_or_none(lsn: Option<Lsn>) -> Answer {
    match lsn {
        Some(lsn) => Answer::Number(lsn.number()),
        None => Answer::Word("none"),
    }
}

/// Returns the counters as text, less so many of the failed reads.
pub fn stats_of(alloc: Global, stats: &Stats, unread: u64) -> Answer {
    let totals = &stats.totals;
    let text = format!(in alloc;
        "hits {hits} faults {faults} evictions {evictions} writes {writes} failed {failed} \
        refused {refused} resident {resident} pinned {pinned} unsaved {unsaved} \
        loading {loading} writing {writing}",
        hits = totals.hits,
        faults = totals.faults,
        evictions = totals.evictions,
        writes = totals.writes,
        failed = totals.failed.saturating_sub(unread),
        refused = totals.refused,
        resident = stats.resident,
        pinned = stats.pinned,
        unsaved = stats.unsaved,
        loading = stats.loading,
        writing = stats.writing
    );
    match text {
        Ok(text) => Answer::Text(text),
        Err(_) => Answer::BadLine,
    }
}

pub fn forgot(count: Result<u64, Refusal>) -> Answer {
    match count {
        Ok(count) => Answer::Reply(Reply::Forgot(count)),
        Err(refusal) => Answer::Refused(refusal),
    }
}
