//! Ends all parts of a pool at once.
ghost use Rattle.std.specs.Prelude.{◌≡◌, ◌<◌, ◌≤◌, [], IfOk, OnErr, vec_len, vec_capacity};
ghost use Rattle.bp_page.specs.declared.refusals.Refusal.TheVariants as Refusal;
ghost use Rattle.bp_parts.specs.Parts.{AreNumbered, AreSessionsOf};
ghost use Rattle.bp_parts.specs.Logs.{AreEndsOf};
ghost use Rattle.bp_parts.specs.Ending.{AreClosed, AreEnded, AreClients, AreShelves, AreTakersOf, BooksOf, CoresOf, EndsEach, SameCores};

use crate::making::Parted;
use crate::pool::PartCount;
use crate::sessions::PartedSession;
use bp_core::PoolCore;
use bp_keeper::{ListKeeper, RecordingKeeper};
use bp_mark::LogEnd;
use bp_page::Refusal;
use bp_session_log::Book;
use bp_shared::PartNames;
use bp_shared::closed_part::ClosedPart;
use bp_shared::pool::SharedPool;
use bp_shared::session::Session;
use bp_shared::taker::Taker;
use std::alloc::Global;
use std::marker::Model;
use std::sync::Wait;

/// The memory in which the parts of a pool end, so that an end takes none. Contracts see for how many parts and clients
/// it is.
#[derive(Drop)]
pub struct EndRoom<N: PartNames, K: ListKeeper = RecordingKeeper> {
    parts: u8,
    closed: Vec<ClosedPart<N, K>>,
    cores: Vec<PoolCore<K>>,
    /// A list for each client's books.
    books: Vec<Vec<Book<K>>>,
}

impl<N: PartNames, K: ListKeeper> Model for EndRoom<N, K> {
    ghost use Rattle.std.specs.Prelude.{◌≡◌, ◌≤◌, [], vec_len, vec_capacity};
    ghost use Rattle.bp_parts.specs.Ending.{AreShelves, RoomValue};

    ghost Value = { RoomValue };

    ghost view = { λ r. record { parts = r.parts; clients = vec_len r.books } };

    ghost invariant = { λ r. (r.closed.items ≡ []) × (r.parts ≤ vec_capacity r.closed)
        × (r.cores.items ≡ []) × (r.parts ≤ vec_capacity r.cores)
        × AreShelves r.parts r.books.items };
}

impl<N: PartNames, K: ListKeeper> EndRoom<N, K> {
    ghost use Rattle.std.specs.Prelude.{◌≡◌, IfOk, OnErr};
    ghost use Rattle.bp_page.specs.declared.refusals.Refusal.TheVariants as Refusal;

    /// Makes the room for the end of so many parts of so many clients, or answers `OutOfMemory`.
    pub fn new(alloc: Global, parts: u8, clients: u8) -> Result<EndRoom<N, K>, Refusal>
        ensures parts { IfOk result (λ room. room.parts ≡ parts) }
        ensures clients { IfOk result (λ room. room.clients ≡ clients) }
        ensures refused { OnErr result (result ≡ Err Refusal.OutOfMemory) }
    {
        let books = shelves(alloc, parts, clients)?;
        let closed = Vec::with_capacity(alloc, parts as usize)?;
        let cores = Vec::with_capacity(alloc, parts as usize)?;
        Ok(EndRoom {
            parts,
            closed,
            cores,
            books,
        })
    }
}

/// Makes an empty list with room for so many books for each of so many clients.
fn shelves<K: ListKeeper>(
    alloc: Global,
    parts: u8,
    clients: u8,
) -> Result<Vec<Vec<Book<K>>>, Refusal>
    ensures count { IfOk result (λ made. vec_len made ≡ clients) }
    ensures empty { IfOk result (λ made. AreShelves parts made.items) }
    ensures refused { OnErr result (result ≡ Err Refusal.OutOfMemory) }
{
    let mut made = Vec::new(alloc);
    for _ in 0..clients {
        let shelf = Vec::with_capacity(alloc, parts as usize)?;
        let Ok(()) = made.push(shelf) else {
            return Err(Refusal::OutOfMemory);
        };
    }
    Ok(made)
}

/// What is left of a pool in parts.
#[derive(Drop)]
pub struct EndedParts<K: ListKeeper = RecordingKeeper> {
    /// The core of each part, in order.
    pub cores: Vec<PoolCore<K>>,
    /// Of each client, in order, the book of its session in each part.
    pub books: Vec<Vec<Book<K>>>,
}

/// Closes each part.
fn close_each<N: PartNames, K: ListKeeper, R: Wait>(
    rt: &R,
    parts: Vec<SharedPool<N, K>>,
    closed: Vec<ClosedPart<N, K>>,
) -> Vec<ClosedPart<N, K>>
    requires parts { AreNumbered parts.items }
    requires empty { closed.items ≡ [] }
    requires room { vec_len parts ≤ vec_capacity closed }
    ensures closed { AreClosed result.items }
    ensures count { vec_len result ≡ vec_len parts }
{
    let mut closed = closed;
    for part in parts {
        closed.push_reserved(part.close_part(rt));
    }
    closed
}

/// Ends one client's session in each part.
fn end_each<N: PartNames, K: ListKeeper>(
    closed: &mut Vec<ClosedPart<N, K>>,
    sessions: Vec<Session<N, K>>,
    books: &mut Vec<Book<K>>,
)
    requires closed { AreClosed closed.old.items }
    requires count { vec_len sessions ≡ vec_len closed.old }
    requires sessions { (client : _) × AreSessionsOf client sessions.items }
    requires empty { books.old.items ≡ [] }
    requires room { vec_len closed.old ≤ vec_capacity books.old }
    ensures closed { AreClosed closed.new.items }
    ensures same { vec_len closed.new ≡ vec_len closed.old }
    ensures count { vec_len books.new ≡ vec_len closed.old }
    ensures ended { EndsEach N.past sessions.items closed.old.items closed.new.items
        books.new.items }
{
    let mut part = 0;
    for session in sessions {
        let Ok(book) = closed[part].end_session(session) else {
            unreachable!()
        };
        books.push_reserved(book);
        part += 1;
    }
}

/// Ends the sessions of each client in each part.
fn end_all<N: PartNames + PartCount, K: ListKeeper>(
    closed: &mut Vec<ClosedPart<N, K>>,
    sessions: Vec<PartedSession<N, K>>,
    books: &mut Vec<Vec<Book<K>>>,
)
    requires closed { AreClosed closed.old.items }
    requires parts { vec_len closed.old ≡ N.parts }
    requires clients { AreClients sessions.items }
    requires count { vec_len books.old ≡ vec_len sessions }
    requires books { AreShelves N.parts books.old.items }
    ensures closed { AreClosed closed.new.items }
    ensures same { vec_len closed.new ≡ vec_len closed.old }
    ensures count { vec_len books.new ≡ vec_len books.old }
    ensures ended { AreEnded N.past N.parts (vec_len sessions) sessions.items closed.new.items
        books.new.items }
{
    let mut sessions = sessions.into_iter();
    for client in 0..books.len() {
        let Some(session) = sessions.next() else {
            unreachable!()
        };
        end_each(closed, session.into_sessions(), &mut books[client]);
    }
}

/// Takes the core out of each part, and closes its mark.
fn cores_of<N: PartNames, K: ListKeeper>(
    closed: Vec<ClosedPart<N, K>>,
    takers: Vec<Taker<N>>,
    ends: Vec<LogEnd>,
    cores: Vec<PoolCore<K>>,
) -> Vec<PoolCore<K>>
    requires closed { AreClosed closed.items }
    requires takers { AreTakersOf takers.items }
    requires taken { vec_len takers ≡ vec_len closed }
    requires ends { (raised : _) × AreEndsOf N.mark raised ends.items }
    requires marked { vec_len ends ≡ vec_len closed }
    requires empty { cores.items ≡ [] }
    requires room { vec_len closed ≤ vec_capacity cores }
    ensures count { vec_len result ≡ vec_len closed }
    ensures same { SameCores closed.items result.items }
    ensures cores { (raised : _) → AreEndsOf N.mark raised ends.items →
        CoresOf N.parameters N.past raised takers.items result.items }
{
    let (mut cores, mut takers, mut ends) = (cores, takers.into_iter(), ends.into_iter());
    for part in closed {
        let Some(taker) = takers.next() else {
            unreachable!()
        };
        let Some(end) = ends.next() else {
            unreachable!()
        };
        let Ok((core, mark, reader)) = part.into_core(taker) else {
            unreachable!()
        };
        // The mark's last word bounds what its reader has seen, and so the LSNs that the core has marked.
        mark.close(end, reader);
        core.keeps_the_rules();
        cores.push_reserved(core);
    }
    cores
}

/// Ends a pool in parts: closes each part, ends each session there, and takes the cores out, whose marks are closed. It
/// takes no memory.
///
/// The trail of each core is one legal history. A client's book of a part has exactly the entries of that core which
/// are the client's, in the same order, each unfix in its place, as from
/// [`ClosedPool::end_session`](bp_shared::ClosedPool::end_session). A pass that a client still holds stays out.
pub fn end_parts<N: PartNames + PartCount, K: ListKeeper, R: Wait>(
    rt: &R,
    parted: Parted<N, K>,
) -> EndedParts<K>
    requires clients { AreClients parted.sessions.items }
    requires takers { AreTakersOf parted.takers.items }
    requires taken { vec_len parted.takers ≡ N.parts }
    requires room { (parted.room.parts ≡ N.parts)
        × (parted.room.clients ≡ vec_len parted.sessions) }
    ensures parts { vec_len result.cores ≡ N.parts }
    ensures cores { CoresOf N.parameters N.past parted.log parted.takers.items
        result.cores.items }
    ensures clients { vec_len result.books ≡ vec_len parted.sessions }
    ensures books { BooksOf N.past N.parts (vec_len parted.sessions) parted.sessions.items
        result.cores.items result.books.items }
{
    let Parted {
        pool,
        sessions,
        takers,
        log,
        room,
    } = parted;
    let EndRoom {
        parts: _,
        closed,
        cores,
        mut books,
    } = room;
    let mut closed = close_each(rt, pool.into_parts(), closed);
    end_all(&mut closed, sessions, &mut books);
    let cores = cores_of(closed, takers, log.into_ends(), cores);
    EndedParts { cores, books }
}
