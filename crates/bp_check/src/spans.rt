//! The references of the pages, as the spans of their bursts. The spans of one page are in the order of time.
ghost use Rattle.std.specs.Prelude.{◌≡◌, ◌≢◌, ℕ, ◌-◌, ◌*◌, ◌^◌, ◌<◌, ◌≤◌, List, [], map, length, reverse, slice_index_or, if◌then◌else◌, OnOk, IfOk, vec_len};
ghost use Rattle.bp_references.specs.Burst.{Burst};
ghost use Rattle.bp_references.specs.Stamp as stamp;
ghost use Rattle.bp_references.specs.Numbers.{count_below};
ghost use Rattle.bp_check.specs.Spans as of;
ghost use Rattle.bp_check.specs.Spans.{span, with_reference, spans_at};
ghost use Rattle.bp_check.specs.declared.spans.Span.{Span as ASpan};

use crate::grants::Grants;
use crate::residents::Residents;
use bp_page::PageNo;
use std::alloc::{AllocError, Global};

/// A burst of references: the times of its oldest and its newest, and whether a hit opened it.
#[derive(Clone, Copy)]
pub(crate) struct Span {
    pub(crate) first: u64,
    pub(crate) last: u64,
    pub(crate) by_hit: bool,
}

/// The time from the oldest to the newest reference.
fn width(known: Span) -> u64
    ensures { result ≡ known.last - known.first }
{
    known.last.saturating_sub(known.first)
}

/// The span at a place, where the newest has place 0.
fn span_at(known: &[Span], place: usize) -> Span
    requires { place < length known.now }
    ensures { (d : ASpan) → result ≡ slice_index_or (reverse known.now) place d }
{
    known[known.len() - 1 - place]
}

/// The time of the newest reference, or 0.
pub(crate) fn last_of(known: &[Span]) -> u64
    ensures { result ≡ of.last_of (reverse known.now) }
{
    match known.last() {
        Some(newest) => newest.last,
        None => 0,
    }
}

/// The widths of the bursts at the places from 1 to this one, each where a hit opened the next newer burst. In 128 bits
/// no sum of 16 wraps.
fn counted_widths(known: &[Span], place: usize) -> u128
    requires there { place < length known.now }
    requires few { place < 16 }
    ensures counted { (all : List Burst) → reverse known.now ≡ map span all →
        result ≡ stamp.counted_widths all place }
    ensures small { result ≤ place * 2 ^ 64 }
{
    let mut counted = 0;
    for newer in 0..place {
        if span_at(known, newer).by_hit {
            counted += u128::from(width(span_at(known, newer + 1)));
        }
    }
    counted
}

/// The first time of the burst at a place, put later by those widths, or 0 where there is no such burst.
pub(crate) fn burst_stamp(known: &[Span], place: usize) -> u128
    requires { place < 16 }
    ensures { (all : List Burst) → reverse known.now ≡ map span all →
        result ≡ stamp.burst_stamp all place }
{
    if place < known.len() {
        u128::from(span_at(known, place).first) + counted_widths(known, place)
    } else {
        0
    }
}

/// Adds a reference, which opens a burst or stands in the newest one.
fn refer(known: &mut Vec<Span>, correlated: u64, by_hit: bool, now: u64) -> Result<(), AllocError>
    ensures { OnOk result (reverse known.new.items ≡
        with_reference correlated by_hit now (reverse known.old.items)) }
{
    let count = known.len();
    if by_hit && 0 < count && now.saturating_sub(known[count - 1].last) <= correlated {
        known[count - 1].last = now;
        return Ok(());
    }
    known.push(Span {
        first: now,
        last: now,
        by_hit,
    })?;
    Ok(())
}

/// Returns an empty list of spans for each of so many pages. It fails by want of memory alone.
pub(crate) fn no_references(alloc: Global, pages: usize) -> Result<Vec<Vec<Span>>, AllocError>
    ensures count { IfOk result (λ table. vec_len table ≡ pages) }
    ensures none { IfOk result (λ table. (p : ℕ) → spans_at table.items p ≡ []) }
{
    let mut table = Vec::with_capacity(alloc, pages)?;
    for _ in 0..pages {
        table.push_reserved(Vec::new(alloc));
    }
    Ok(table)
}

pub(crate) fn refer_at(
    table: &mut [Vec<Span>],
    page: PageNo,
    correlated: u64,
    by_hit: bool,
    now: u64,
) -> Result<(), AllocError>
    requires { page < length table.old }
    ensures count { length table.new ≡ length table.old }
    ensures own { OnOk result (spans_at table.new page ≡
        with_reference correlated by_hit now (spans_at table.old page)) }
    ensures others { OnOk result ((q : ℕ) →
        q ≢ page → spans_at table.new q ≡ spans_at table.old q) }
{
    let known = &mut table[page.number() as usize];
    refer(known, correlated, by_hit, now)?;
    Ok(())
}

/// Drops the references of the page.
pub(crate) fn drop_at(table: &mut [Vec<Span>], page: PageNo)
    ensures count { length table.new ≡ length table.old }
    ensures own { page < length table.old → spans_at table.new page ≡ [] }
    ensures others { (q : ℕ) → q ≢ page → spans_at table.new q ≡ spans_at table.old q }
{
    let at = page.number();
    if at < table.len() as u64 {
        table[at as usize].clear();
    }
}

/// Returns true if a purge at this time forgets a page with these references.
fn outdated(
    known: &[Span],
    page: PageNo,
    retained: u64,
    now: u64,
    residents: &Residents,
    reads: &Grants,
) -> bool
    ensures { result ≡ of.outdated retained now residents.now reads.now page (reverse known.now) }
{
    !known.is_empty()
        && !(residents.has(page) || reads.has_of(page))
        && retained < now.saturating_sub(last_of(known))
}

/// Returns the number of pages that a purge at this time forgets.
pub(crate) fn forgotten(
    table: &[Vec<Span>],
    retained: u64,
    now: u64,
    residents: &Residents,
    reads: &Grants,
) -> u64
    ensures { result ≡ count_below
        (λ p. of.outdated retained now residents.now reads.now p (spans_at table.now p))
        (length table.now) }
{
    let mut count = 0;
    for at in 0..table.len() {
        let page = PageNo::new(at as u64);
        if outdated(&table[at], page, retained, now, residents, reads) {
            count += 1;
        }
    }
    count
}

/// Drops the references of the pages that a purge at this time forgets.
pub(crate) fn forget(
    table: &mut [Vec<Span>],
    retained: u64,
    now: u64,
    residents: &Residents,
    reads: &Grants,
)
    ensures count { length table.new ≡ length table.old }
    ensures each { (p : ℕ) → p < length table.old → spans_at table.new p ≡
        (if of.outdated retained now residents.now reads.now p (spans_at table.old p) then []
        else spans_at table.old p) }
{
    for at in 0..table.len() {
        let page = PageNo::new(at as u64);
        let known = &mut table[at];
        if outdated(known, page, retained, now, residents, reads) {
            known.clear();
        }
    }
}
