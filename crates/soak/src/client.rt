//! `Client`: what a client does, and what it was answered.

ghost use Rattle.std.specs.Prelude.{◌≡◌, ◌<◌};

use crate::answers::Answers;
use hojzmated::{Entry, Lsn, PageNo, Pass, PoolName, Port, Refusal, SharedPool};
use std::alloc::Global;
use std::sync::atomic::{AtomicU64, Ordering};
use std::sync::{Arc, Wait};
use std::thread;
use std::thread::Parker;
use std::time::Duration;

/// A client's session and port. The session stays that client's: the clauses `client` say so.
pub(crate) type Own<N, P> = hojzmated::Client<N, P>;

/// What the clients share.
#[derive(Drop)]
pub(crate) struct Shared {
    /// The LSN of the newest record.
    pub(crate) last: AtomicU64,
    /// The rounds that client 0 began. In each round every other client makes some calls, and then waits for the next.
    pub(crate) rounds: AtomicU64,
    /// The clients that have made the calls of the round.
    pub(crate) arrived: AtomicU64,
    /// 1 once the round is the last.
    pub(crate) over: AtomicU64,
    /// How often the trail was full.
    pub(crate) full: AtomicU64,
}

pub(crate) type Meeting = Arc<Shared, Global>;

/// What a client did.
#[derive(Drop)]
pub(crate) struct Deeds {
    pub(crate) answers: Answers,
    /// The entries of its list that were cut.
    pub(crate) listed: u64,
    pub(crate) fixes: u64,
    /// The first refusal that has no cause here.
    pub(crate) stray: Option<Refusal>,
}

impl Deeds {
    pub(crate) fn none() -> Deeds {
        Deeds {
            answers: Answers::none(),
            listed: 0,
            fixes: 0,
            stray: None,
        }
    }

    /// Notes why a call was refused, if it was.
    pub(crate) fn note<T: Drop>(&mut self, shared: &Shared, answer: Result<T, Refusal>) {
        let Err(refusal) = answer else { return };
        // Client 0 has to cut the trail, or to raise the mark.
        thread::yield_now();
        if refusal == Refusal::TrailFull {
            shared.full.fetch_add(1, Ordering::SeqCst);
        } else if !self.answers.count(refusal) && self.stray.is_none() {
            self.stray = Some(refusal);
        }
    }
}

/// A client that uses pages at random.
#[derive(Drop)]
pub(crate) struct Using {
    pub(crate) shared: Meeting,
    pub(crate) deeds: Deeds,
    pub(crate) random: u64,
}

/// The calls of a client in a round, after which it cuts its list.
const CALLS_A_ROUND: u64 = 64;

impl Shared {
    pub(crate) fn new() -> Shared {
        Shared {
            last: AtomicU64::new(0),
            rounds: AtomicU64::new(0),
            arrived: AtomicU64::new(0),
            over: AtomicU64::new(0),
            full: AtomicU64::new(0),
        }
    }

    /// Begins a round, or the last one.
    pub(crate) fn begin_round(&self, is_last: bool) {
        self.arrived.store(0, Ordering::SeqCst);
        self.over.store(u64::from(is_last), Ordering::SeqCst);
        self.rounds.fetch_add(1, Ordering::SeqCst);
    }

    /// Returns once so many rounds have begun.
    fn wait_for_round<R: Wait>(&self, rt: &R, rounds: u64) {
        for _ in rt.forever() {
            if self.rounds.load(Ordering::SeqCst) >= rounds {
                return;
            }
            Parker::new().park_timeout(rt, Duration::from_millis(1));
        }
    }
}

impl Using {
    /// The next number below the limit, of a linear congruential generator.
    fn below(&mut self, limit: u64) -> u64 {
        self.random = self
            .random
            .wrapping_mul(6364136223846793005)
            .wrapping_add(1442695040888963407);
        (self.random >> 33) % limit.max(1)
    }

    /// Writes a byte under a new record.
    fn write<N: PoolName, P: Port, R: Wait>(
        &mut self,
        rt: &R,
        pool: &SharedPool<N>,
        own: &mut Own<N, P>,
        pass: &Pass,
    )
        ensures client { own.new.session.client ≡ own.old.session.client }
    {
        let byte = self.random.to_le_bytes()[4];
        let last = self.shared.last.fetch_add(1, Ordering::SeqCst);
        let lsn = Lsn::new(last.saturating_add(1));
        let written = pool.write_from(rt, &mut own.session, pass, 0, &[byte], lsn);
        self.deeds.note(&self.shared, written);
    }

    /// Fixes a page, reads it or writes to it, and gives it back.
    fn fix<N: PoolName, P: Port, R: Wait>(
        &mut self,
        rt: &R,
        pool: &SharedPool<N>,
        own: &mut Own<N, P>,
        page: PageNo,
    )
        requires page_in { page < N.parameters.pages }
        ensures client { own.new.session.client ≡ own.old.session.client }
    {
        let pass = match pool.fix(rt, &mut own.session, &mut own.port, page) {
            Ok(pass) => pass,
            Err(refusal) => return self.deeds.note::<()>(&self.shared, Err(refusal)),
        };
        self.deeds.fixes = self.deeds.fixes.saturating_add(1);
        if self.below(3) == 0 {
            self.write(rt, pool, own, &pass);
        } else {
            let mut bytes = [0; 16];
            let read = pool.read_into(rt, &mut own.session, &pass, 0, &mut bytes);
            self.deeds.note(&self.shared, read);
        }
        if let Err((pass, refusal)) = pool.unfix_draining(rt, &mut own.session, pass) {
            pass.note();
            self.deeds.note::<()>(&self.shared, Err(refusal));
        }
    }

    /// Makes one call at random, or fixes a page.
    fn call<N: PoolName, P: Port, R: Wait>(
        &mut self,
        rt: &R,
        pool: &SharedPool<N>,
        own: &mut Own<N, P>,
    )
        ensures client { own.new.session.client ≡ own.old.session.client }
    {
        // Low pages are asked for more often.
        let pages = own.port.geometry().pages;
        let limit = self.below(pages).saturating_add(1);
        let Some(page) = own.port.geometry().page(self.below(limit)) else {
            return;
        };
        match self.below(32) {
            0 => {
                let left = pool.discard(rt, &mut own.session, page);
                self.deeds.note(&self.shared, left);
            }
            1 => {
                let purged = pool.purge(rt, &mut own.session);
                self.deeds.note(&self.shared, purged);
            }
            2 | 3 => {
                let flushed = pool.flush(rt, &mut own.session, &mut own.port, page);
                self.deeds.note(&self.shared, flushed);
            }
            4 | 5 | 6 | 7 => {
                let ticked = pool.tick(rt, &mut own.session, 1);
                self.deeds.note(&self.shared, ticked);
            }
            _ => self.fix(rt, pool, own, page),
        }
    }

    /// Cuts the client's own list, and continues in the memory of the list before.
    fn cut_list<N: PoolName, P: Port>(
        &mut self,
        own: &mut Own<N, P>,
        spare: Vec<Entry>,
    ) -> Option<Vec<Entry>>
        ensures client { own.new.session.client ≡ own.old.session.client }
    {
        match own.session.cut_into(spare) {
            Ok(list) => {
                self.deeds.listed = self.deeds.listed.saturating_add(list.len() as u64);
                Some(list)
            }
            Err(refusal) => {
                self.deeds.note::<()>(&self.shared, Err(refusal));
                None
            }
        }
    }

    /// Makes the calls of each round, and cuts the client's own list.
    pub(crate) fn run<N: PoolName, P: Port, R: Wait>(
        &mut self,
        rt: &R,
        alloc: Global,
        pool: &SharedPool<N>,
        own: &mut Own<N, P>,
    )
        ensures client { own.new.session.client ≡ own.old.session.client }
    {
        let mut spare = Vec::new(alloc);
        let mut rounds = 0u64;
        'rounds: for _ in rt.forever() {
            rounds = rounds.saturating_add(1);
            self.shared.wait_for_round(rt, rounds);
            'calls: for _ in 0..CALLS_A_ROUND {
                self.call(rt, pool, own);
            }
            let cut = self.cut_list(own, spare);
            spare = cut.unwrap_or(Vec::new(alloc));
            let is_last = self.shared.over.load(Ordering::SeqCst) == 1;
            self.shared.arrived.fetch_add(1, Ordering::SeqCst);
            if is_last {
                return;
            }
        }
    }
}
