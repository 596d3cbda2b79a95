//! `Judging`: client 0, which raises the durable mark, cuts the trail and judges each piece as it comes.
ghost use Rattle.std.specs.Prelude.{◌≡◌, ◌+◌, ◌^◌, ◌<◌, length};

use crate::answers::Answers;
use crate::client::{Deeds, Meeting, Own};
use crate::findings::Finding;
use crate::memory::Memory;
use bp_check::{Judge, Setup};
use hojzmated::{Entry, Lsn, PoolName, Port, SharedPool, Upkeep};
use std::alloc::Global;
use std::sync::Wait;
use std::sync::atomic::Ordering;
use std::thread::Parker;
use std::time::{Clock, Duration, Instant};

/// What the judge was told.
#[derive(Drop)]
pub(crate) struct Heard {
    pub(crate) entries: u64,
    pub(crate) pieces: u64,
    /// The most entries of a piece.
    pub(crate) fullest: u64,
    pub(crate) answers: Answers,
    pub(crate) finding: Option<Finding>,
}

/// Client 0.
#[derive(Drop)]
pub(crate) struct Judging<C: Clock + Drop> {
    pub(crate) shared: Meeting,
    pub(crate) deeds: Deeds,
    pub(crate) setup: Setup,
    pub(crate) clock: C,
    pub(crate) seconds: u64,
    /// The number of the other clients.
    pub(crate) others: u64,
    pub(crate) memory: Memory,
    pub(crate) heard: Heard,
}

impl Heard {
    pub(crate) fn nothing() -> Heard {
        Heard {
            entries: 0,
            pieces: 0,
            fullest: 0,
            answers: Answers::none(),
            finding: None,
        }
    }

    /// Has the judge go on with some entries. Returns no judge if the soak has failed.
    fn go_on(&mut self, alloc: Global, judge: Judge, entries: &[Entry]) -> Option<Judge> {
        let before = judge.count();
        if before.checked_add(entries.len() as u64).is_none() {
            self.finding = Some(Finding::TooMany);
            return None;
        }
        match judge.go_on(alloc, entries) {
            Ok((judge, None)) => Some(judge),
            Ok((_, Some(place))) => {
                self.finding = Some(Finding::Unlawful(before.saturating_add(place as u64)));
                None
            }
            Err(_) => {
                self.finding = Some(Finding::NoMemory);
                None
            }
        }
    }

    /// Counts the entries of a piece.
    fn count(&mut self, piece: &[Entry]) {
        self.pieces = self.pieces.saturating_add(1);
        self.entries = self.entries.saturating_add(piece.len() as u64);
        self.fullest = self.fullest.max(piece.len() as u64);
        for entry in piece {
            self.answers.count_entry(entry);
        }
    }
}

impl<C: Clock + Drop> Judging<C> {
    /// Returns true once the time is over.
    fn is_over(&mut self, start: &Option<Instant>) -> bool {
        let passed = match start {
            Some(start) => start.elapsed(&self.clock).ok(),
            None => None,
        };
        match passed {
            Some(passed) => {
                self.memory
                    .look(passed.as_secs().saturating_mul(4) >= self.seconds);
                passed.as_secs() >= self.seconds
            }
            None => {
                self.heard.finding = Some(Finding::NoClock);
                true
            }
        }
    }

    /// Raises the mark to the newest record.
    fn raise<N: PoolName>(&self, pool: &SharedPool<N>, upkeep: &mut Upkeep<N>) {
        let last = self.shared.last.load(Ordering::SeqCst);
        upkeep.log.raise(pool, Lsn::new(last));
    }

    /// Judges a piece. In between it raises the mark, so that the other clients' pages may go out.
    fn judge<N: PoolName>(
        &mut self,
        alloc: Global,
        pool: &SharedPool<N>,
        upkeep: &mut Upkeep<N>,
        judge: Option<Judge>,
        piece: &[Entry],
    ) -> Option<Judge> {
        self.heard.count(piece);
        let mut judge = judge;
        for entries in piece.chunks(256) {
            self.raise(pool, upkeep);
            let Some(known) = judge else { return None };
            judge = self.heard.go_on(alloc, known, entries);
        }
        judge
    }

    /// Flushes all pages, and cuts this client's own list.
    fn checkpoint<N: PoolName, P: Port, R: Wait>(
        &mut self,
        rt: &R,
        pool: &SharedPool<N>,
        own: &mut Own<N, P>,
    )
        ensures client { own.new.session.client ≡ own.old.session.client }
    {
        let flushed = pool.flush_all(rt, &mut own.session, &mut own.port);
        let flushed = flushed.map_err(|stop| stop.why);
        self.deeds.note(&self.shared, flushed);
        match own.session.cut() {
            Ok(list) => self.deeds.listed = self.deeds.listed.saturating_add(list.len() as u64),
            Err(refusal) => self.deeds.note::<()>(&self.shared, Err(refusal)),
        }
    }

    /// Cuts the trail and judges it piece by piece, until the other clients have made their calls of the round.
    fn run_round<N: PoolName, R: Wait>(
        &mut self,
        rt: &R,
        alloc: Global,
        pool: &SharedPool<N>,
        upkeep: &mut Upkeep<N>,
        judge: Option<Judge>,
        spare: Vec<Entry>,
    ) -> (Option<Judge>, Vec<Entry>) {
        let (mut judge, mut spare) = (judge, spare);
        for _ in rt.forever() {
            self.raise(pool, upkeep);
            let have_arrived = self.shared.arrived.load(Ordering::SeqCst) == self.others;
            match pool.cut_into(rt, &mut upkeep.taker, spare) {
                Ok(piece) => {
                    judge = self.judge(alloc, pool, upkeep, judge, &piece);
                    spare = piece;
                }
                Err(refusal) => {
                    self.deeds.note::<()>(&self.shared, Err(refusal));
                    spare = Vec::new(alloc);
                }
            }
            if have_arrived {
                break;
            }
            Parker::new().park_timeout(rt, Duration::from_micros(100));
        }
        (judge, spare)
    }

    /// Begins rounds until the time is over or the soak has failed, and judges the trail.
    pub(crate) fn run<N: PoolName, P: Port, R: Wait>(
        &mut self,
        rt: &R,
        alloc: Global,
        pool: &SharedPool<N>,
        own: &mut Own<N, P>,
        upkeep: &mut Upkeep<N>,
    )
        ensures client { own.new.session.client ≡ own.old.session.client }
    {
        let start = Instant::now(&self.clock).ok();
        let mut judge = Judge::new(alloc, &self.setup).ok();
        let mut spare = Vec::new(alloc);
        'rounds: for _ in rt.forever() {
            let is_last = self.is_over(&start) || judge.is_none();
            self.shared.begin_round(is_last);
            if !is_last {
                self.checkpoint(rt, pool, own);
            }
            (judge, spare) = self.run_round(rt, alloc, pool, upkeep, judge, spare);
            if is_last {
                return;
            }
        }
    }
}
