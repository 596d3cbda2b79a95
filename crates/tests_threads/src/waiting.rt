//! Sessions in threads: two wait for the device work of a third, which may fail.
//!
//! The work goes on only once the trail shows that both have found the page in flight, so they wait under every
//! schedule. If one of them were not woken, its thread would never end.
ghost use Rattle.std.specs.Prelude.{◌≡◌};

use crate::gates::Gate;
use crate::making::{Fails, Way, change, clients_of, counts, look, on_device};
use bp_core::{Discarded, Entry, Reply};
use bp_device::{Flushed, MemDevice};
use bp_page::Refusal;
use bp_shared::{PoolName, SharedPool, Taker};
use bp_trail::Totals;
use bp_workers::Client;
use std::marker::{Brand, Send, Sync};
use std::process::Abort;
use std::sync::{Mutex, Wait};
use std::thread;
use std::thread::Threads;
use test_support::judging::{setup_of, unlawful};
use test_support::pools::{Made, Opened, discard, flush, make, open};

/// The calls of the clients about page 1.
#[derive(Clone, Copy)]
enum Ask {
    Fix,
    Flush,
    /// The first one fixes page 2, for which page 1 has to go out; the others flush page 1.
    MakeWay,
    /// The first one fixes the page, and the others discard it.
    DiscardRead,
    /// The first one flushes the page, and the others discard it.
    DiscardWritten,
}

#[derive(Clone, Copy, PartialEq, Eq, Debug, Drop)]
enum Answer {
    Nothing,
    Byte(Option<u8>),
    Flushed(Flushed),
    Discarded(Discarded),
    Refused(Refusal),
}

/// One thread: its client, and the answer that the client got.
#[derive(Drop)]
struct Runner<N: PoolName> {
    client: Client<N, Way>,
    answer: Answer,
}

/// The part of the trail that was cut so far.
#[derive(Drop)]
struct Takings<N: PoolName> {
    taker: Taker<N>,
    entries: Vec<Entry>,
}

/// Shared by all threads.
#[derive(Drop)]
struct Shared<'a, N: PoolName> {
    pool: &'a SharedPool<N>,
    takings: &'a Mutex<Takings<N>>,
    /// The gate of the first client's port.
    gate: &'a Gate,
    ask: Ask,
}

fn fixed(looked: Result<Option<u8>, Refusal>) -> Answer {
    match looked {
        Ok(byte) => Answer::Byte(byte),
        Err(refusal) => Answer::Refused(refusal),
    }
}

fn flushed(answer: Result<Flushed, Refusal>) -> Answer {
    match answer {
        Ok(flushed) => Answer::Flushed(flushed),
        Err(refusal) => Answer::Refused(refusal),
    }
}

fn discarded(answer: Result<Discarded, Refusal>) -> Answer {
    match answer {
        Ok(discarded) => Answer::Discarded(discarded),
        Err(refusal) => Answer::Refused(refusal),
    }
}

impl Ask {
    /// Returns true if the last client changes page 1 before.
    fn is_of_changed(self) -> bool {
        !matches!(self, Ask::Fix | Ask::DiscardRead)
    }
}

impl<N: PoolName> Runner<N> {
    fn ask<R: Wait + Abort>(&mut self, rt: &R, pool: &SharedPool<N>, ask: Ask) {
        let is_first = self.client.session.client() == 0;
        self.answer = match ask {
            Ask::Fix => fixed(look(rt, pool, &mut self.client, 1)),
            Ask::MakeWay if is_first => fixed(look(rt, pool, &mut self.client, 2)),
            Ask::DiscardRead if is_first => fixed(look(rt, pool, &mut self.client, 1)),
            Ask::DiscardRead | Ask::DiscardWritten if !is_first => {
                discarded(discard(rt, pool, &mut self.client, 1))
            }
            _ => flushed(flush(rt, pool, &mut self.client, 1)),
        };
    }
}

/// Returns true if both others found a page in flight.
fn both_waited(trail: &[Entry]) -> bool {
    let mut waited = [false; 3];
    for entry in trail {
        if entry.client < 3 && matches!(entry.reply, Reply::Busy) {
            waited[entry.client as usize] = true;
        }
    }
    waited[1] && waited[2]
}

/// Cuts the trail, and returns true if both others have found the page in flight.
fn both_wait<N: PoolName, R: Wait + Abort>(
    rt: &R,
    pool: &SharedPool<N>,
    takings: &mut Takings<N>,
) -> bool {
    let mut piece = pool.cut(rt, &mut takings.taker).expect(rt, "the trail");
    takings.entries.append(&mut piece).expect(rt, "the entries");
    both_waited(&takings.entries)
}

/// Opens the first client's gate once both others wait.
fn let_go<N: PoolName, R: Wait + Abort>(rt: &R, shared: &Shared<'_, N>) {
    let mut takings = shared.takings.lock(rt);
    for _ in rt.forever() {
        if both_wait(rt, shared.pool, &mut takings) {
            break;
        }
        thread::yield_now();
    }
    shared.gate.open(rt);
}

/// Runs one thread. The first client asks at once, and the others once its device work has begun; client 3 does not
/// ask, but cuts the trail until both others wait.
fn run<N: PoolName, R: Wait + Abort>(rt: &R, shared: &Shared<'_, N>, runner: &mut Runner<N>) {
    let client = runner.client.session.client();
    if client > 0 {
        shared.gate.wait_for_work(rt);
    }
    if client == 3 {
        let_go(rt, shared);
    } else {
        runner.ask(rt, shared.pool, shared.ask);
    }
}

/// Runs each client in a thread of its own, and returns when all have ended.
fn run_all<N: PoolName + Send + Sync, R: Threads + Wait + Abort + Sync>(
    rt: &R,
    shared: &Shared<'_, N>,
    runners: &mut [Runner<N>],
) {
    let count = runners.len();
    if count > 0 {
        thread::for_each_mut(rt, runners, count, &|_, runner| run(rt, shared, runner));
    }
}

fn runners_of<N: PoolName, R: Abort + AllocGlobal>(
    rt: &R,
    clients: Vec<Client<N, Way>>,
) -> Vec<Runner<N>> {
    let mut runners = Vec::new(rt.alloc());
    for client in clients {
        let runner = Runner {
            client,
            answer: Answer::Nothing,
        };
        runners.push(runner).expect(rt, "the runner");
    }
    runners
}

/// The outcome of the threads.
#[derive(Debug, Drop)]
struct Done {
    answers: [Answer; 3],
    totals: Totals,
    /// What the first client then reads of page 1, and what the device has of it.
    after: Result<Option<u8>, Refusal>,
    on_device: Option<u8>,
}

fn answers_of<N: PoolName>(runners: &[Runner<N>]) -> [Answer; 3] {
    let mut answers = [Answer::Nothing; 3];
    for (at, answer) in answers.iter_mut().enumerate() {
        if let Some(runner) = runners.get(at) {
            *answer = runner.answer;
        }
    }
    answers
}

/// Returns the first client's gate. The last client changes page 1 before, where that is asked for.
fn prepare<N: PoolName, R: Wait + Abort + AllocGlobal>(
    rt: &R,
    pool: &SharedPool<N>,
    runners: &mut [Runner<N>],
    ask: Ask,
) -> Gate {
    if let Some(last) = runners.last_mut()
        && ask.is_of_changed()
    {
        change(rt, pool, &mut last.client);
    }
    match runners.first() {
        Some(first) => first.client.port.gate.again(rt),
        None => panic!(rt; "no client"),
    }
}

fn look_again<N: PoolName, R: Wait + Abort>(
    rt: &R,
    pool: &SharedPool<N>,
    runners: &mut [Runner<N>],
) -> Result<Option<u8>, Refusal> {
    match runners.first_mut() {
        Some(first) => look(rt, pool, &mut first.client, 1),
        None => panic!(rt; "no client"),
    }
}

/// Ends the pool, and returns the totals of all its entries. The judge finds them legal.
fn end<N: PoolName, R: Abort + AllocGlobal>(
    rt: &R,
    pool: SharedPool<N>,
    takings: Takings<N>,
) -> Totals {
    let Takings { taker, mut entries } = takings;
    let (core, _, _) = pool.finish(taker);
    let setup = setup_of(&core);
    let mut left = core.into_trail();
    entries.append(&mut left).expect(rt, "the entries");
    assert_eq!(rt; unlawful(rt.alloc(), &setup, &entries), Ok(None));
    Totals::of(&entries)
}

/// An open pool and its device, its clients, the gate of the first one's port, and what was cut of the trail.
struct Table<N: PoolName> {
    pool: SharedPool<N>,
    takings: Mutex<Takings<N>>,
    gate: Gate,
    runners: Vec<Runner<N>>,
    device: MemDevice,
}

/// Opens the pool. Its last client has changed page 1, where that is asked for.
fn open_table<N: PoolName, R: Wait + Abort + AllocGlobal>(
    rt: &R,
    made: Made,
    fails: &Fails,
    ask: Ask,
) -> Table<N>
    requires mark { made.parts.mark ≡ N.mark }
    requires parameters { made.core.parameters ≡ N.parameters }
    requires before { made.core.before ≡ N.before }
    requires past { made.core.past ≡ N.past }
    requires ring { made.parts.ring ≡ N.ring }
{
    let Opened {
        pool,
        sessions,
        taker,
        end: _,
        device,
    } = open::<N, _>(rt.alloc(), made).expect(rt, "the pool");
    let mut runners = runners_of(rt, clients_of(rt, &device, sessions, fails));
    let gate = prepare(rt, &pool, &mut runners, ask);
    let takings = Mutex::new(Takings {
        taker,
        entries: Vec::new(rt.alloc()),
    });
    Table {
        pool,
        takings,
        gate,
        runners,
        device,
    }
}

impl<N: PoolName + Send + Sync> Table<N> {
    /// Runs the threads, and returns what the first client then reads of page 1.
    fn run<R: Threads + Wait + Abort + Sync>(
        &mut self,
        rt: &R,
        ask: Ask,
    ) -> Result<Option<u8>, Refusal> {
        let shared = Shared {
            pool: &self.pool,
            takings: &self.takings,
            gate: &self.gate,
            ask,
        };
        run_all(rt, &shared, &mut self.runners);
        look_again(rt, &self.pool, &mut self.runners)
    }
}

fn run_over<N: PoolName + Send + Sync, R: Threads + Wait + Abort + Sync + AllocGlobal>(
    rt: &R,
    made: Made,
    fails: &Fails,
    ask: Ask,
) -> Done
    requires mark { made.parts.mark ≡ N.mark }
    requires parameters { made.core.parameters ≡ N.parameters }
    requires before { made.core.before ≡ N.before }
    requires past { made.core.past ≡ N.past }
    requires ring { made.parts.ring ≡ N.ring }
{
    let mut table = open_table::<N, R>(rt, made, fails, ask);
    let after = table.run(rt, ask);
    let Table {
        pool,
        takings,
        gate: _,
        runners,
        device,
    } = table;
    Done {
        answers: answers_of(&runners),
        totals: end(rt, pool, takings.into_inner()),
        after,
        on_device: on_device(rt, &device),
    }
}

/// Runs four clients. The first one's port fails at its n-th call, or never where n is 0.
fn run_together<R: Threads + Wait + Abort + Sync + AllocGlobal>(
    rt: &R,
    frames: usize,
    n: u64,
    spoil: bool,
    ask: Ask,
) -> Done {
    let made = make(rt.alloc(), frames, 4, 4096).expect(rt, "the pool's parts");
    let fails = Fails {
        n,
        spoil,
        is_held: true,
    };
    run_over::<Brand, R>(rt, made, &fails, ask)
}

/// Returns true if the first client got one answer, and both others the other.
fn are(answers: &[Answer; 3], first: Answer, others: Answer) -> bool {
    let [one, two, three] = *answers;
    one == first && two == others && three == others
}

/// Both threads that waited get the page that the first client read.
#[test]
fn waits_for_a_read(rt: HostRuntime) {
    let done = run_together(&rt, 2, 0, false, Ask::Fix);
    assert!(rt;
        are(&done.answers, Answer::Byte(Some(0)), Answer::Byte(Some(0))),
        "{done:?}"
    );
    assert_eq!(rt;
        (counts(&done.totals), done.after),
        ([3, 1, 0, 0, 0], Ok(Some(0)))
    );
}

/// The first client's read fails. One of the threads that waited reads the page, and the other gets it.
#[test]
fn waits_for_a_failing_read(rt: HostRuntime) {
    let done = run_together(&rt, 2, 1, false, Ask::Fix);
    let refused = Answer::Refused(Refusal::ReadFailed);
    assert!(rt;
        are(&done.answers, refused, Answer::Byte(Some(0))),
        "{done:?}"
    );
    assert_eq!(rt;
        (counts(&done.totals), done.after),
        ([2, 1, 0, 0, 1], Ok(Some(0)))
    );
}

/// Both threads that waited find that the first client has written the page out.
#[test]
fn waits_for_a_write_out(rt: HostRuntime) {
    let done = run_together(&rt, 2, 0, false, Ask::Flush);
    let cleaned = Answer::Flushed(Flushed::Cleaned);
    assert!(rt;
        are(&done.answers, cleaned, Answer::Flushed(Flushed::Clean)),
        "{done:?}"
    );
    assert_eq!(rt;
        (counts(&done.totals), done.after, done.on_device),
        ([1, 1, 0, 1, 0], Ok(Some(5)), Some(5))
    );
}

/// Returns true if one of the threads that waited wrote the page out, and the other found it clean.
fn one_wrote(answers: &[Answer; 3]) -> bool {
    let cleaned = Answer::Flushed(Flushed::Cleaned);
    let clean = Answer::Flushed(Flushed::Clean);
    let [_, second, third] = *answers;
    (second == cleaned && third == clean) || (second == clean && third == cleaned)
}

/// Asserts that the first client's write failed, and that one of the others wrote the page out, once.
fn expect_written<R: Abort>(rt: &R, done: &Done) {
    let [first, _, _] = done.answers;
    assert!(rt; one_wrote(&done.answers), "{done:?}");
    assert_eq!(rt;
        (first, counts(&done.totals), done.after, done.on_device),
        (
            Answer::Refused(Refusal::WriteFailed),
            [1, 1, 0, 1, 1],
            Ok(Some(5)),
            Some(5)
        )
    );
}

/// A write-out of a flush fails. One of the threads that waited writes the page out, and the other finds it clean.
#[test]
fn waits_for_a_failing_write_out(rt: HostRuntime) {
    for spoil in [false, true] {
        expect_written(&rt, &run_together(&rt, 2, 1, spoil, Ask::Flush));
    }
}

/// A write-out of a victim fails. One of the threads that waited writes the page out, and the other finds it clean.
#[test]
fn waits_for_a_failing_write_out_of_a_fix(rt: HostRuntime) {
    for spoil in [false, true] {
        expect_written(&rt, &run_together(&rt, 1, 1, spoil, Ask::MakeWay));
    }
}

/// Returns true if one of the threads that waited had the page leave, and the other found it away.
fn one_discarded(answers: &[Answer; 3]) -> bool {
    let left = Answer::Discarded(Discarded::Left);
    let absent = Answer::Discarded(Discarded::Absent);
    let [_, second, third] = *answers;
    (second == left && third == absent) || (second == absent && third == left)
}

/// The page leaves once it was written out, for one of the threads that waited. The device has what went out.
#[test]
fn discard_waits_for_a_write_out(rt: HostRuntime) {
    let done = run_together(&rt, 2, 0, false, Ask::DiscardWritten);
    let [first, _, _] = done.answers;
    assert!(rt; one_discarded(&done.answers), "{done:?}");
    assert_eq!(rt;
        (first, counts(&done.totals), done.after, done.on_device),
        (
            Answer::Flushed(Flushed::Cleaned),
            [0, 2, 0, 1, 0],
            Ok(Some(5)),
            Some(5)
        )
    );
}

/// The read fails, and both threads that waited find the page away.
#[test]
fn discard_waits_for_a_failing_read(rt: HostRuntime) {
    let done = run_together(&rt, 2, 1, false, Ask::DiscardRead);
    let refused = Answer::Refused(Refusal::ReadFailed);
    assert!(rt;
        are(&done.answers, refused, Answer::Discarded(Discarded::Absent)),
        "{done:?}"
    );
    assert_eq!(rt;
        (counts(&done.totals), done.after),
        ([0, 1, 0, 0, 1], Ok(Some(0)))
    );
}
