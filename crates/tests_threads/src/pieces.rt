//! Threads that use a pool repeatedly, and cut the trail and their lists as they go.
ghost use Rattle.std.specs.Prelude.{◌≡◌};

use bp_check::agrees;
use bp_core::{Core, Entry};
use bp_device::{MemDevice, MemPort};
use bp_shared::{PoolName, Session, SharedPool, Taker};
use bp_trail::Totals;
use bp_workers::Client;
use std::alloc::Global;
use std::marker::Brand;
use std::process::Abort;
use std::sync::{Mutex, Wait};
use std::thread::Threads;
use std::{mem, thread};
use test_support::judging::{setup_of, unlawful};
use test_support::pools::{Made, Opened, fix, make, open, read, unfix_draining, unfixes};

#[derive(Clone, Copy, Drop)]
struct Plan {
    frames: usize,
    /// The number of threads.
    clients: u8,
    /// The rounds of each thread, of four entries each.
    rounds: usize,
    /// Whether each thread uses a page of its own, and cuts as it goes. Else all use page 1, and nothing is cut.
    cuts: bool,
    keeps: bool,
}

/// The rounds of a thread between two of its cuts: so two threads need a room of at most 4,096 entries.
const ROUNDS_A_CUT: usize = 250;

#[derive(Drop)]
struct Pieces {
    /// The piece that was cut last. The next cut leaves its memory to the trail or the list.
    spare: Vec<Entry>,
    cuts: usize,
    entries: usize,
    /// The greatest capacity of a piece.
    capacity: usize,
    keeps: bool,
    /// The joined pieces, where they are kept.
    kept: Vec<Entry>,
}

impl Pieces {
    fn none(alloc: Global, keeps: bool) -> Pieces {
        Pieces {
            spare: Vec::new(alloc),
            cuts: 0,
            entries: 0,
            capacity: 0,
            keeps,
            kept: Vec::new(alloc),
        }
    }

    // Takes the memory of the last piece.
    fn lend(&mut self, alloc: Global) -> Vec<Entry> {
        mem::replace(&mut self.spare, Vec::new(alloc))
    }

    // Counts a piece, and keeps its memory. Where memory for its entries is refused, they are lost.
    fn keep(&mut self, mut piece: Vec<Entry>) {
        self.cuts = self.cuts.saturating_add(1);
        self.entries = self.entries.saturating_add(piece.len());
        self.capacity = self.capacity.max(piece.capacity());
        if self.keeps {
            let _ = self.kept.append(&mut piece);
        }
        self.spare = piece;
    }
}

/// The pieces of the trail, for whichever thread cuts it.
#[derive(Drop)]
struct Takings<N: PoolName> {
    taker: Taker<N>,
    pieces: Pieces,
}

/// One thread, which uses a page repeatedly and cuts as it goes.
#[derive(Drop)]
struct Runner<N: PoolName> {
    alloc: Global,
    client: Client<N, MemPort>,
    page: u64,
    plan: Plan,
    passes: usize,
    pieces: Pieces,
}

// Cuts the trail, and leaves it the memory of the last piece.
fn cut_trail<N: PoolName, R: Wait>(
    rt: &R,
    alloc: Global,
    pool: &SharedPool<N>,
    takings: &Mutex<Takings<N>>,
) {
    let mut takings = takings.lock(rt);
    let spare = takings.pieces.lend(alloc);
    if let Ok(piece) = pool.cut_into(rt, &mut takings.taker, spare) {
        takings.pieces.keep(piece);
    }
}

/// Fixes a page, reads it and gives it back. It returns true if there was a pass.
fn run_once<N: PoolName, R: Wait>(
    rt: &R,
    pool: &SharedPool<N>,
    client: &mut Client<N, MemPort>,
    page: u64,
) -> bool {
    let Ok(note) = fix(rt, pool, client, page) else {
        return false;
    };
    let _ = read(rt, pool, client, note);
    let _ = unfix_draining(rt, pool, client, note);
    true
}

impl<N: PoolName> Runner<N> {
    // Cuts the list, and leaves it the memory of the last piece.
    fn cut_list(&mut self) {
        let spare = self.pieces.lend(self.alloc);
        if let Ok(list) = self.client.session.cut_into(spare) {
            self.pieces.keep(list);
        }
    }

    // Runs the rounds. Each has four entries: a fix, a read, an unfix and a tick.
    fn run<R: Wait>(&mut self, rt: &R, pool: &SharedPool<N>, takings: &Mutex<Takings<N>>) {
        for round in 0..self.plan.rounds {
            if run_once(rt, pool, &mut self.client, self.page) {
                self.passes = self.passes.saturating_add(1);
            }
            let _ = pool.tick(rt, &mut self.client.session, 1);
            if self.plan.cuts && round % ROUNDS_A_CUT == 0 {
                cut_trail(rt, self.alloc, pool, takings);
                self.cut_list();
            }
        }
    }
}

/// Makes a runner for each session.
fn make_runners<N: PoolName, R: Abort + AllocGlobal>(
    rt: &R,
    device: &MemDevice,
    sessions: Vec<Session<N>>,
    plan: Plan,
) -> Vec<Runner<N>>
    requires pages { device.now.pages ≡ N.parameters.pages }
    requires size { device.now.size ≡ N.parameters.size }
{
    let alloc = rt.alloc();
    let mut runners = Vec::new(alloc);
    for session in sessions {
        let page = if plan.cuts {
            u64::from(session.client())
        } else {
            1
        };
        let port = device.port().expect(rt, "the port");
        let runner = Runner {
            alloc,
            client: Client { session, port },
            page,
            plan,
            passes: 0,
            pieces: Pieces::none(alloc, plan.keeps),
        };
        runners.push(runner).expect(rt, "the runner");
    }
    runners
}

/// Runs each runner in a thread of its own, and returns when all have ended.
fn run_all<N: PoolName + Send + Sync, R: Threads + Wait + Sync>(
    rt: &R,
    pool: &SharedPool<N>,
    takings: &Mutex<Takings<N>>,
    runners: &mut [Runner<N>],
) {
    let count = runners.len();
    if count > 0 {
        thread::for_each_mut(
            rt,
            runners,
            count,
            &|_, runner| runner.run(rt, pool, takings),
        );
    }
}

/// The counts of a run, with what was not cut at its end.
#[derive(Clone, Copy, Drop)]
struct Tally {
    passes: usize,
    /// The entries of the trail, and of all lists.
    entries: usize,
    listed: usize,
    /// The cuts of the trail, and of all lists.
    cuts: usize,
    list_cuts: usize,
    /// The greatest capacity of a piece.
    capacity: usize,
    faults: u64,
}

// Returns the counts of the trail, of which `left` entries were not cut, and of all runners.
fn tally_of<N: PoolName>(pieces: &Pieces, left: usize, runners: &[Runner<N>]) -> Tally {
    let mut tally = Tally {
        passes: 0,
        entries: pieces.entries.saturating_add(left),
        listed: 0,
        cuts: pieces.cuts,
        list_cuts: 0,
        capacity: pieces.capacity,
        faults: 0,
    };
    for runner in runners {
        let listed = runner.pieces.entries;
        let left = runner.client.session.said().len();
        tally.passes = tally.passes.saturating_add(runner.passes);
        tally.listed = tally.listed.saturating_add(listed).saturating_add(left);
        tally.list_cuts = tally.list_cuts.saturating_add(runner.pieces.cuts);
        tally.capacity = tally.capacity.max(runner.pieces.capacity);
    }
    tally
}

/// What is left of a run, once its threads have ended.
#[derive(Drop)]
struct Left<N: PoolName> {
    pieces: Pieces,
    core: Core,
    runners: Vec<Runner<N>>,
}

// Joins the rest of the trail to its pieces. The judge finds the whole legal.
fn join_trail<R: Abort + AllocGlobal>(rt: &R, pieces: &mut Pieces, core: Core) {
    let setup = setup_of(&core);
    assert_eq!(rt; pieces.kept.len(), pieces.entries);
    let mut left = core.into_trail();
    pieces.kept.append(&mut left).expect(rt, "the entries");
    assert_eq!(rt; unlawful(rt.alloc(), &setup, &pieces.kept), Ok(None));
}

// Asserts that each joined list is its client's part of the trail.
fn expect_agreement<N: PoolName, R: Abort>(rt: &R, entries: &[Entry], runners: Vec<Runner<N>>) {
    for runner in runners {
        let Runner { client, pieces, .. } = runner;
        let number = client.session.client();
        let mut list = pieces.kept;
        let mut left = client.session.into_said();
        list.append(&mut left).expect(rt, "the list");
        assert!(rt; agrees(entries, &list, number), "client {number}");
    }
}

// Asserts that all entries are legal, that each pass went back once, and that each list is its client's part of the
// trail. Returns the number of faults.
fn expect_all_back<N: PoolName, R: Abort + AllocGlobal>(
    rt: &R,
    left: Left<N>,
    passes: usize,
) -> u64 {
    let Left {
        mut pieces,
        core,
        runners,
    } = left;
    join_trail(rt, &mut pieces, core);
    let entries = &pieces.kept;
    let totals = Totals::of(entries);
    let given = totals.hits.saturating_add(totals.faults);
    assert_eq!(rt; (given, unfixes(entries)), (passes as u64, passes));
    expect_agreement(rt, entries, runners);
    totals.faults
}

// Runs threads over the pool, and ends it.
fn run_over<N: PoolName + Send + Sync, R: Threads + Wait + Abort + Sync + AllocGlobal>(
    rt: &R,
    made: Made,
    plan: Plan,
) -> Left<N>
    requires mark { made.parts.mark ≡ N.mark }
    requires parameters { made.core.parameters ≡ N.parameters }
    requires before { made.core.before ≡ N.before }
    requires past { made.core.past ≡ N.past }
    requires ring { made.parts.ring ≡ N.ring }
{
    let Opened {
        pool,
        sessions,
        taker,
        end: _,
        device,
    } = open::<N, _>(rt.alloc(), made).expect(rt, "the pool");
    let mut runners = make_runners(rt, &device, sessions, plan);
    let takings = Mutex::new(Takings {
        taker,
        pieces: Pieces::none(rt.alloc(), plan.keeps),
    });
    run_all(rt, &pool, &takings, &mut runners);
    let Takings { taker, pieces } = takings.into_inner();
    let (core, _, _) = pool.finish(taker);
    Left {
        pieces,
        core,
        runners,
    }
}

// Runs threads over the pool, and returns the counts. Where all entries are kept, they are judged.
fn see_over<N: PoolName + Send + Sync, R: Threads + Wait + Abort + Sync + AllocGlobal>(
    rt: &R,
    made: Made,
    plan: Plan,
) -> Tally
    requires mark { made.parts.mark ≡ N.mark }
    requires parameters { made.core.parameters ≡ N.parameters }
    requires before { made.core.before ≡ N.before }
    requires past { made.core.past ≡ N.past }
    requires ring { made.parts.ring ≡ N.ring }
{
    let left = run_over::<N, R>(rt, made, plan);
    let mut tally = tally_of(&left.pieces, left.core.trail().len(), &left.runners);
    if plan.keeps {
        tally.faults = expect_all_back(rt, left, tally.passes);
    } else {
        drop(left);
    }
    tally
}

// Runs threads over a new pool, and returns the counts.
fn run_threads<R: Threads + Wait + Abort + Sync + AllocGlobal>(rt: &R, plan: Plan) -> Tally {
    let made = make(rt.alloc(), plan.frames, plan.clients, 4096);
    see_over::<Brand, R>(rt, made.expect(rt, "the pool's parts"), plan)
}

/// Several threads fix one page at once, and it is read once.
#[test]
fn threads_on_one_page(rt: HostRuntime) {
    for clients in [2, 4] {
        let plan = Plan {
            frames: 1,
            clients,
            rounds: 20,
            cuts: false,
            keeps: true,
        };
        let tally = run_threads(&rt, plan);
        assert_eq!(rt; tally.faults, 1, "{clients} clients");
    }
}

/// Two threads make a million entries in a room of 4,096, since they cut the trail and their lists.
#[test]
fn a_million_entries_in_little_room(rt: HostRuntime) {
    let plan = Plan {
        frames: 2,
        clients: 2,
        rounds: 125000,
        cuts: true,
        keeps: false,
    };
    let tally = run_threads(&rt, plan);
    // Each round has four entries, and a client's first fix has one more.
    assert_eq!(rt;
        (tally.passes, tally.entries, tally.listed),
        (250000, 1000002, 1000002)
    );
    // Each thread cuts the trail and its list once in 250 rounds. The capacity of the first pieces never grows.
    assert_eq!(rt;
        (tally.cuts, tally.list_cuts, tally.capacity),
        (1000, 1000, 4096)
    );
}

/// The joined pieces are legal. The run is a hundredth of the one above, which the judge would take too long over.
#[test]
fn pieces_that_threads_cut_are_legal(rt: HostRuntime) {
    let plan = Plan {
        frames: 2,
        clients: 2,
        rounds: 1250,
        cuts: true,
        keeps: true,
    };
    let tally = run_threads(&rt, plan);
    assert_eq!(rt;
        (tally.passes, tally.entries, tally.listed),
        (2500, 10002, 10002)
    );
    assert_eq!(rt;
        (tally.cuts, tally.list_cuts, tally.capacity, tally.faults),
        (10, 10, 4096, 2)
    );
}
