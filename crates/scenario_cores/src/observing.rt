//! Calls that tell something of a core, and add no entry.

use crate::outcomes::{lsn_or_none, page_or_none};
use bp_core::{Keeper, PoolCore};
use bp_page::PageNo;
use scenario_words::{Answer, Said, Verb, mixed};

/// The hash covers so many pages, from 0.
const PAGES: u64 = 16;

/// Answers what a core tells of a page, or from a page on.
pub(crate) fn answer_of_page<K: Keeper>(core: &PoolCore<K>, call: &Said) -> Answer {
    let [number, i, _] = call.numbers.list;
    let page = PageNo::new(number);
    match call.verb {
        Verb::Next => page_or_none(core.next_unsaved(number)),
        Verb::First => lsn_or_none(core.first_lsn(page)),
        Verb::TopLsn => lsn_or_none(core.resident_lsn(page)),
        Verb::Resident => Answer::yes_or_no(core.is_resident(page)),
        Verb::Unsaved => Answer::yes_or_no(core.is_unsaved(page)),
        Verb::Last => Answer::Number(core.last(page)),
        Verb::Stamp => Answer::Number(core.stamp(page, i as usize)),
        _ => Answer::BadLine,
    }
}

/// Returns a hash of what a core tells: clock, mark, free room, and of the first pages their stamps, their newest
/// references and whether they are unsaved.
pub(crate) fn digest_of<K: Keeper>(core: &PoolCore<K>) -> u64 {
    let mut digest = mixed(core.clock(), core.durable().number());
    digest = mixed(digest, core.free() as u64);
    for number in 0..PAGES {
        let page = PageNo::new(number);
        digest = mixed(digest, core.last(page));
        digest = mixed(digest, core.stamp(page, 1));
        digest = mixed(digest, core.stamp(page, 2));
        digest = mixed(digest, u64::from(core.is_unsaved(page)));
    }
    digest
}
