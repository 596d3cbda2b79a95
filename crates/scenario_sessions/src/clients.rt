//! The calls of one client of a pool.
ghost use Rattle.std.specs.Prelude.{◌≡◌};

use crate::kinds::Kind;
use crate::making::Noting;
use bp_check::agrees;
use bp_core::{Call, Entry, Pass, Reply};
use bp_device::Port;
use bp_page::{Geometry, Lsn, Refusal};
use bp_shared::{PoolName, Session, SharedPool};
use scenario_cores::{
    Lists, bytes_read, content, discarded, done, flushed, flushed_all, forgot, grant_of,
    lsn_or_none, page_or_none, pass_of, span_of, stats_of, went,
};
use scenario_words::{Answer, Said, Verb, named};
use std::alloc::Global;
use std::sync::Wait;

/// What is kept of a client besides its session.
#[derive(Drop)]
pub(crate) struct Note {
    /// The entries that were cut off the session's list.
    pub(crate) cut: Vec<Entry>,
    /// The reads of the client that failed only for want of memory.
    pub(crate) unread: u64,
}

impl Note {
    pub(crate) fn new(alloc: Global) -> Note {
        Note {
            cut: Vec::new(alloc),
            unread: 0,
        }
    }
}

/// The numbers of a client that are compared before and after a call.
#[derive(Clone, Copy)]
pub(crate) struct Standing {
    pub(crate) held: usize,
    pub(crate) entries: usize,
    /// The tickets that the list gave and that did not go back.
    pub(crate) out: u64,
    pub(crate) failures: u64,
}

/// Returns how many of the tickets that these entries gave did not go back.
fn tickets_out(entries: &[Entry]) -> u64 {
    let mut out = 0u64;
    for entry in entries {
        if matches!(entry.reply, Reply::Load { .. } | Reply::WriteFirst { .. }) {
            out = out.saturating_add(1);
        }
        if matches!(entry.call, Call::ReadEnd { .. } | Call::WriteEnd { .. }) {
            out = out.saturating_sub(1);
        }
    }
    out
}

/// Returns the numbers of a client with this session, whose port had so many failures.
pub(crate) fn standing_of<N: PoolName, K: Kind>(
    session: &Session<N, K>,
    failures: u64,
) -> Standing {
    let list = K::list(session);
    Standing {
        held: session.held_count(),
        entries: list.len(),
        out: tickets_out(list),
        failures,
    }
}

/// Returns the number of entries of a client.
fn count_of(entries: &[Entry], client: u8) -> usize {
    let mut count = 0usize;
    for entry in entries {
        if entry.client == client {
            count = count.saturating_add(1);
        }
    }
    count
}

/// Returns true if a list is a client's part of a trail in two pieces.
pub(crate) fn is_part(first: &[Entry], rest: &[Entry], list: &[Entry], client: u8) -> bool {
    let count = count_of(first, client);
    count <= list.len()
        && agrees(first, &list[..count], client)
        && agrees(rest, &list[count..], client)
}

/// Answers a line that asks about a client's session or cuts its list. It returns None for a call of the pool. The two
/// entries of a read that is not counted are not counted in the list's length either.
pub(crate) fn tell<N: PoolName, K: Kind>(
    session: &mut Session<N, K>,
    note: &mut Note,
    failures: u64,
    lsn: u64,
    verb: Verb,
) -> Option<Answer> {
    let entries = K::list(session).len() as u64;
    match verb {
        Verb::List => Some(Answer::Number(entries.saturating_sub(note.unread.saturating_mul(2)))),
        Verb::Held => Some(Answer::Number(session.held_count() as u64)),
        Verb::CutList => Some(K::cut_list(session, &mut note.cut)),
        Verb::Failures => Some(Answer::Number(failures)),
        Verb::NewestLsn => Some(Answer::Number(lsn)),
        _ => None,
    }
}

/// Keeps the pass of a fix, and returns the answer of the fix.
fn fixed(lists: &mut Lists, outcome: Result<Pass, Refusal>) -> Answer {
    match outcome {
        Ok(pass) => lists.keep_given(pass),
        Err(refusal) => Answer::Refused(refusal),
    }
}

/// Fixes a page, or a new one, or flushes or discards one.
fn by_page<N: PoolName, K: Kind, R: Wait>(
    rt: &R,
    pool: &SharedPool<N, K>,
    session: &mut Session<N, K>,
    port: &mut Noting,
    lists: &mut Lists,
    call: &Said,
) -> Answer
    requires pages { port.old.inner.inner.device.pages ≡ N.parameters.pages }
    requires size { port.old.inner.inner.device.size ≡ N.parameters.size }
    ensures port { port.new.inner.inner.device ≡ port.old.inner.inner.device }
{
    let Some(page) = port.geometry().page(call.numbers.list[1]) else {
        return Answer::BadLine;
    };
    match call.verb {
        Verb::Flush => flushed(pool.flush(rt, session, port, page)),
        Verb::Discard => discarded(pool.discard(rt, session, page)),
        Verb::New => fixed(lists, pool.fix_new(rt, session, port, page)),
        _ => fixed(lists, pool.fix(rt, session, port, page)),
    }
}

/// Reads bytes of a page. The line is a bad one where they do not lie within a page.
fn read_into<N: PoolName, K: Kind, R: Wait>(
    rt: &R,
    pool: &SharedPool<N, K>,
    session: &mut Session<N, K>,
    geometry: &Geometry,
    alloc: Global,
    pass: &Pass,
    call: &Said,
) -> Answer
    requires size { geometry.now.size ≡ N.parameters.size }
{
    let [_, offset, count] = call.numbers.list;
    let Some(mut span) = span_of(alloc, geometry, offset, count) else {
        return Answer::BadLine;
    };
    let read = pool.read_into(rt, session, pass, span.offset, &mut span.into);
    bytes_read(read, span)
}

/// Writes the bytes of a line, if they fit a page.
fn write<N: PoolName, K: Kind, R: Wait>(
    rt: &R,
    pool: &SharedPool<N, K>,
    session: &mut Session<N, K>,
    geometry: &Geometry,
    pass: &Pass,
    call: &Said,
) -> Answer
    requires size { geometry.now.size ≡ N.parameters.size }
{
    let [_, offset, lsn] = call.numbers.list;
    let Some(bytes) = &call.bytes else {
        return Answer::BadLine;
    };
    let fits = geometry.fits(offset as usize, bytes.bytes().len());
    match u32::try_from(offset) {
        Ok(offset) if fits => {
            let lsn = Lsn::new(lsn);
            done(match call.verb {
                Verb::WriteFrom => {
                    pool.write_from(rt, session, pass, offset, bytes.bytes(), lsn)
                }
                _ => pool.write(rt, session, pass, offset, bytes, lsn),
            })
        }
        _ => Answer::BadLine,
    }
}

fn unfix<N: PoolName, K: Kind>(
    pool: &SharedPool<N, K>,
    session: &mut Session<N, K>,
    pass: Pass,
) -> Answer {
    match pool.unfix(session, pass) {
        Ok(()) => Answer::Reply(Reply::Done),
        Err((pass, refusal)) => Answer::Back(refusal, grant_of(pass), None),
    }
}

/// Makes a call that has a pass.
fn by_pass<N: PoolName, K: Kind, R: Wait>(
    rt: &R,
    pool: &SharedPool<N, K>,
    session: &mut Session<N, K>,
    geometry: &Geometry,
    lists: &Lists,
    call: &Said,
) -> Answer
    requires size { geometry.now.size ≡ N.parameters.size }
{
    let Some(grant) = named(&lists.passes, &call.name) else {
        return Answer::BadLine;
    };
    let pass = pass_of(grant);
    if matches!(call.verb, Verb::Unfix) {
        return unfix(pool, session, pass);
    }
    let answer = match call.verb {
        Verb::Read => content(pool.read(rt, session, &pass)),
        Verb::ReadInto => read_into(rt, pool, session, geometry, lists.alloc, &pass, call),
        Verb::Write | Verb::WriteFrom => write(rt, pool, session, geometry, &pass, call),
        _ => Answer::BadLine,
    };
    pass.note();
    answer
}

/// Makes a call that needs neither a port nor a pass. `unread` reads of the pool failed only for want of memory.
fn by_session<N: PoolName, K: Kind, R: Wait>(
    rt: &R,
    pool: &SharedPool<N, K>,
    session: &mut Session<N, K>,
    alloc: Global,
    unread: u64,
    call: &Said,
) -> Answer {
    let [_, second, _] = call.numbers.list;
    match call.verb {
        Verb::Next => page_or_none(pool.next_unsaved(rt, session, second)),
        Verb::Redo => lsn_or_none(pool.redo_from(rt, session)),
        Verb::Stats => stats_of(alloc, &pool.stats(rt, session), unread),
        Verb::Tick => done(pool.tick(rt, session, second)),
        Verb::Purge => forgot(pool.purge(rt, session)),
        Verb::Settle => {
            pool.settle(rt, session);
            Answer::Reply(Reply::Done)
        }
        _ => Answer::BadLine,
    }
}

/// Makes a call by a client. A pass that it gives is added to `lists`. `unread` reads of the pool failed only for want
/// of memory.
pub(crate) fn call<N: PoolName, K: Kind, R: Wait>(
    rt: &R,
    pool: &SharedPool<N, K>,
    session: &mut Session<N, K>,
    port: &mut Noting,
    lists: &mut Lists,
    unread: u64,
    call: &Said,
) -> Answer
    requires pages { port.old.inner.inner.device.pages ≡ N.parameters.pages }
    requires size { port.old.inner.inner.device.size ≡ N.parameters.size }
    ensures port { port.new.inner.inner.device ≡ port.old.inner.inner.device }
{
    match call.verb {
        Verb::Fix | Verb::New | Verb::Flush | Verb::Discard => {
            by_page(rt, pool, session, port, lists, call)
        }
        Verb::FlushAll => flushed_all(pool.flush_all(rt, session, port)),
        Verb::Sync => went(port.sync(rt)),
        Verb::Read | Verb::ReadInto | Verb::Unfix | Verb::Write | Verb::WriteFrom => {
            by_pass(rt, pool, session, &port.geometry(), lists, call)
        }
        _ => by_session(rt, pool, session, lists.alloc, unread, call),
    }
}
