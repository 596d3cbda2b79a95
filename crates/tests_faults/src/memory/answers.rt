//! Compares a trail with its rows: each row that is not refused has its answer in the trail, once and in order.
use crate::memory::telling::all_went_back;
use bp_core::{Call, Entry, Reply};
use bp_page::PageNo;
use bp_scripts::{Refused, Row, Step};
use std::process::Abort;

/// What the last entry of a row shows, where the row is not refused.
#[derive(Clone, Copy, PartialEq, Eq, Debug, Drop)]
enum Answer {
    Fixed(PageNo),
    Unfixed(PageNo),
    Read(PageNo),
    Written(PageNo),
    Flushed(PageNo),
    Discarded(PageNo),
    Ticked,
    Purged,
}

/// Returns the answer that a row has in the trail, if it has one.
fn answer_to(step: &Step) -> Option<Answer> {
    match step {
        Step::Fix(page) => Some(Answer::Fixed(*page)),
        Step::Unfix(page) => Some(Answer::Unfixed(*page)),
        Step::Read(page) => Some(Answer::Read(*page)),
        Step::Write { page, .. } => Some(Answer::Written(*page)),
        Step::Flush(page) => Some(Answer::Flushed(*page)),
        Step::Discard(page) => Some(Answer::Discarded(*page)),
        Step::Tick(_) => Some(Answer::Ticked),
        Step::Purge => Some(Answer::Purged),
        Step::Log(_) => None,
    }
}

/// Returns true if a flush gave this ticket: the write-out of a fix ends no flush.
fn is_of_a_flush(trail: &[Entry], number: u64) -> bool {
    for entry in trail {
        if let (Call::Flush(_), Reply::WriteFirst { ticket, .. }) = (&entry.call, &entry.reply)
            && *ticket == number
        {
            return true;
        }
    }
    false
}

/// Returns the answer that an entry is, if it ends a row.
fn answer_in(trail: &[Entry], entry: &Entry) -> Option<Answer> {
    match &entry.call {
        Call::Fix(page) if matches!(entry.reply, Reply::Hit(_)) => Some(Answer::Fixed(*page)),
        Call::ReadEnd { page, .. } if matches!(entry.reply, Reply::Fixed(_)) => {
            Some(Answer::Fixed(*page))
        }
        Call::Flush(page) if matches!(entry.reply, Reply::Clean | Reply::Absent) => {
            Some(Answer::Flushed(*page))
        }
        Call::WriteEnd { ticket, page, good } if *good && is_of_a_flush(trail, *ticket) => {
            Some(Answer::Flushed(*page))
        }
        Call::Discard(page) if matches!(entry.reply, Reply::Discarded | Reply::Absent) => {
            Some(Answer::Discarded(*page))
        }
        Call::Unfix { page, .. } => Some(Answer::Unfixed(*page)),
        Call::Read { page, .. } => Some(Answer::Read(*page)),
        Call::Write { page, .. } => Some(Answer::Written(*page)),
        Call::Tick(_) => Some(Answer::Ticked),
        Call::Purge => Some(Answer::Purged),
        _ => None,
    }
}

fn is_refused(refused: &[Refused], row: u64) -> bool {
    for it in refused {
        if it.row == row {
            return true;
        }
    }
    false
}

/// Returns the answer of the next row that is not refused, from a place on, and the place after it.
fn next_wanted(rows: &[Row], refused: &[Refused], from: usize) -> (Option<Answer>, usize) {
    for at in from..rows.len() {
        let row = &rows[at];
        if let Some(wanted) = answer_to(&row.step)
            && !is_refused(refused, row.row)
        {
            return (Some(wanted), at + 1);
        }
    }
    (None, rows.len())
}

/// Asserts that each row that was not refused has its answer in the trail, once and in order, that all passes and
/// tickets went back, and that nothing was marked, since no row is of the log. At most one row was refused for want of
/// memory; each other refused row had no frame or no pass. It returns true if there was such a row.
pub(crate) fn expect_counted<R: Abort + AllocGlobal>(
    rt: &R,
    rows: &[Row],
    refused: &[Refused],
    trail: &[Entry],
) -> bool {
    let mut from = 0;
    for entry in trail {
        assert!(rt; !matches!(entry.call, Call::Mark(_)));
        if let Some(answer) = answer_in(trail, entry) {
            let (wanted, next) = next_wanted(rows, refused, from);
            // Passes that are still held go back at the end.
            let is_lawful = match wanted {
                Some(wanted) => answer == wanted,
                None => matches!(answer, Answer::Unfixed(_)),
            };
            assert!(rt; is_lawful, "{answer:?}");
            from = next;
        }
    }
    assert_eq!(rt; next_wanted(rows, refused, from).0, None);
    assert!(rt; all_went_back(trail));
    let mut for_memory = 0u64;
    for it in refused {
        match it.number {
            // 22 by the pool, or 17 by the port at the end of a read.
            22 | 17 => for_memory = for_memory.saturating_add(1),
            11 | 14 => {}
            number => panic!(rt; "row {} refused {number}", it.row),
        }
    }
    assert!(rt; for_memory <= 1);
    for_memory == 1
}
