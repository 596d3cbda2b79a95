//! Counts of passes and tickets in entries.
use bp_core::{Call, Entry, Reply};
use bp_trail::Totals;
use test_support::pools::unfixes;

/// Returns true if all tickets of these entries went back.
fn no_ticket_is_out(entries: &[Entry]) -> bool {
    let mut given = 0u64;
    let mut ended = 0u64;
    for entry in entries {
        if matches!(entry.reply, Reply::Load { .. } | Reply::WriteFirst { .. }) {
            given = given.saturating_add(1);
        }
        if matches!(entry.call, Call::ReadEnd { .. } | Call::WriteEnd { .. }) {
            ended = ended.saturating_add(1);
        }
    }
    given == ended
}

/// Returns true if all passes and all tickets of these entries went back.
pub(crate) fn all_went_back(entries: &[Entry]) -> bool {
    let Totals { hits, faults, .. } = Totals::of(entries);
    no_ticket_is_out(entries) && hits.checked_add(faults) == Some(unfixes(entries) as u64)
}
