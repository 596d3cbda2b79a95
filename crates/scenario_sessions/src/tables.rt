//! `Table`, an open pool that sessions use in turn.
ghost use Rattle.std.specs.Prelude.{◌≡◌};

use crate::answers::Answers;
use crate::clients::{Note, Standing, call, is_part, standing_of, tell};
use crate::kinds::Kind;
use crate::making::{Beside, Made};
use bp_core::{Entry, PoolCore};
use bp_device::Port;
use bp_mark::LogEnd;
use bp_page::{Lsn, Refusal};
use bp_shared::{ClosedPool, Parts, PoolName, Session, SharedPool, Taker};
use bp_trail::Reply;
use scenario_cores::{Pool, done, pool_of};
use scenario_words::{Answer, Said, Verb, Way, session_call_of};
use std::alloc::Global;
use std::sync::Wait;

/// An open pool, its sessions, and what it gave.
pub(crate) struct Table<N: PoolName, K: Kind> {
    alloc: Global,
    way: Way,
    pool: SharedPool<N, K>,
    taker: Taker<N>,
    end: LogEnd,
    sessions: Vec<Session<N, K>>,
    beside: Beside,
    ghost end_is: { end.mark ≡ N.mark },
    ghost first_pages: { beside.first.inner.inner.device.pages ≡ N.parameters.pages },
    ghost first_size: { beside.first.inner.inner.device.size ≡ N.parameters.size },
    ghost others_pages: { beside.others.inner.inner.device.pages ≡ N.parameters.pages },
    ghost others_size: { beside.others.inner.inner.device.size ≡ N.parameters.size },
}

/// Opens a pool over its parts.
pub(crate) fn open<N: PoolName, K: Kind>(
    alloc: Global,
    way: Way,
    made: Made<K>,
) -> Result<Table<N, K>, Refusal>
    requires mark { made.parts.mark ≡ N.mark }
    requires parameters { made.core.parameters ≡ N.parameters }
    requires before { made.core.before ≡ N.before }
    requires past { made.core.past ≡ N.past }
    requires ring { made.parts.ring ≡ N.ring }
{
    let Made {
        core,
        parts,
        beside,
    } = made;
    let Parts {
        mark,
        end,
        reader,
        ring,
    } = parts;
    match SharedPool::<N, K>::new(alloc, core, mark, reader, ring) {
        Ok((pool, sessions, taker)) => Ok(Table {
            alloc,
            way,
            pool,
            taker,
            end,
            sessions,
            beside,
        }),
        Err(refusal) => {
            drop(beside);
            Err(refusal)
        }
    }
}

/// What a call lacked, if it failed for want of memory.
#[derive(Clone, Copy)]
enum Lack {
    Nothing,
    Memory,
    /// Its port had no memory for the image of a read.
    Image,
    /// It lacked memory, but changed what is told.
    Change,
}

/// Returns what a call with this answer lacked, by what was told before and after it. A fix or a flush may leave
/// entries, where memory was wanted after its first event; no call may leave a pass or a ticket.
fn lack_of(verb: Verb, answer: &Answer, before: Standing, after: Standing) -> Lack {
    let is_image = matches!(answer, Answer::Refused(Refusal::ReadFailed))
        && before.failures == after.failures;
    if !is_image && !answer.lacks_memory() {
        return Lack::Nothing;
    }
    let is_same = before.held == after.held && before.out == after.out;
    let may_add = matches!(verb, Verb::Fix | Verb::New | Verb::Flush | Verb::FlushAll);
    if !is_same || (before.entries != after.entries && !may_add) {
        return Lack::Change;
    }
    if is_image { Lack::Image } else { Lack::Memory }
}

/// Returns true for a call that drains the rings, as a cut of the trail does.
fn drains(verb: Verb) -> bool {
    matches!(
        verb,
        Verb::Fix
            | Verb::New
            | Verb::Flush
            | Verb::FlushAll
            | Verb::Discard
            | Verb::Next
            | Verb::Redo
            | Verb::Stats
            | Verb::Tick
            | Verb::Purge
            | Verb::Read
            | Verb::ReadInto
            | Verb::Write
            | Verb::WriteFrom
            | Verb::Settle
    )
}

/// Returns the first fault of some cuts, of which the last has this answer. A number is no fault; refused memory is
/// none either, and is counted.
fn first_fault(first: Option<Answer>, answer: Answer, answers: &mut Answers) -> Option<Answer> {
    match answer {
        Answer::Number(_) => first,
        Answer::Refused(Refusal::OutOfMemory) => {
            answers.count();
            first
        }
        answer => first.or(Some(answer)),
    }
}

/// Cuts each session's list. It returns the first fault of a cut, which may be one from before.
fn cut_lists<N: PoolName, K: Kind>(
    sessions: &mut [Session<N, K>],
    notes: &mut [Note],
    before: Option<Answer>,
    answers: &mut Answers,
) -> Option<Answer> {
    let mut first = before;
    for (session, note) in sessions.iter_mut().zip(notes.iter_mut()) {
        let answer = K::cut_list(session, &mut note.cut);
        first = first_fault(first, answer, answers);
    }
    first
}

/// Parses a line as a call. Where memory may have been refused, it tries again.
fn read_again(alloc: Global, line: &str) -> Option<Said> {
    match session_call_of(alloc, line) {
        Some(call) => Some(call),
        None => session_call_of(alloc, line),
    }
}

impl<N: PoolName, K: Kind> Table<N, K> {
    fn raise(&mut self, lsn: u64) -> Answer {
        self.end.raise(self.pool.mark(), Lsn::new(lsn));
        done(Ok(()))
    }

    fn cut<R: Wait>(&mut self, rt: &R) -> Answer {
        K::cut_trail(rt, &self.pool, &mut self.taker, &mut self.beside.lists)
    }

    /// Makes the call of a line that names a client.
    fn ask_client<R: Wait>(&mut self, rt: &R, line: &Said) -> Answer {
        let [client, _, _] = line.numbers.list;
        let (failures, lsn) = self.beside.port_state(client);
        let unread = self.beside.unread();
        let at = client as usize;
        let (Some(session), Some(note)) = (self.sessions.get_mut(at), self.beside.notes.get_mut(at))
        else {
            return Answer::BadLine;
        };
        if let Some(answer) = tell(session, note, failures, lsn, line.verb) {
            return answer;
        }
        if client == 0 {
            call(
                rt,
                &self.pool,
                session,
                &mut self.beside.first,
                &mut self.beside.lists,
                unread,
                line,
            )
        } else {
            call(
                rt,
                &self.pool,
                session,
                &mut self.beside.others,
                &mut self.beside.lists,
                unread,
                line,
            )
        }
    }

    fn obey<R: Wait>(&mut self, rt: &R, line: &Said) -> Answer {
        match line.verb {
            Verb::Raise => self.raise(line.numbers.list[0]),
            Verb::Cut => self.cut(rt),
            Verb::Put | Verb::Device => self.beside.device.call(rt, line),
            _ => self.ask_client(rt, line),
        }
    }

    fn standing(&self, client: u64) -> Standing {
        let (failures, _) = self.beside.port_state(client);
        match self.sessions.get(client as usize) {
            Some(session) => standing_of(session, failures),
            None => Standing {
                held: 0,
                entries: 0,
                out: 0,
                failures: 0,
            },
        }
    }

    fn count_unread(&mut self, client: u64) {
        if let Some(note) = self.beside.notes.get_mut(client as usize) {
            note.unread = note.unread.saturating_add(1);
        }
    }

    /// Makes a call, and makes it again where memory was refused. That must have changed nothing that is told.
    fn ask<R: Wait>(&mut self, rt: &R, call: &Said, answers: &mut Answers) -> Answer {
        let [client, _, _] = call.numbers.list;
        let before = self.standing(client);
        let answer = self.obey(rt, call);
        let lack = lack_of(call.verb, &answer, before, self.standing(client));
        if matches!(lack, Lack::Nothing) {
            return answer;
        }
        drop(answer);
        if matches!(lack, Lack::Change) {
            return Answer::Word("22, and something has changed");
        }
        if matches!(lack, Lack::Image) {
            self.count_unread(client);
        }
        let answer = self.obey(rt, call);
        if !answer.lacks_memory() {
            answers.count();
        }
        answer
    }

    /// Cuts the trail and all lists, and counts each cut that is refused memory: the next one must have its entries. It
    /// returns any other answer of a cut.
    fn cut_all<R: Wait>(&mut self, rt: &R, answers: &mut Answers) -> Option<Answer> {
        let first = first_fault(None, self.cut(rt), answers);
        cut_lists(&mut self.sessions, &mut self.beside.notes, first, answers)
    }

    /// Takes a line. It returns None where the line asks for something that is not there in a way that cuts.
    fn take<R: Wait>(&mut self, rt: &R, line: &str, answers: &mut Answers) -> Option<Answer> {
        let Some(call) = read_again(self.alloc, line) else {
            return Some(Answer::BadLine);
        };
        let is_of_lists = matches!(call.verb, Verb::Cut | Verb::CutList | Verb::List);
        if is_of_lists && !matches!(self.way, Way::Whole) {
            return None;
        }
        let answer = self.ask(rt, &call, answers);
        if matches!(self.way, Way::Pieces) && drains(call.verb) {
            return Some(self.cut_all(rt, answers).unwrap_or(answer));
        }
        Some(answer)
    }

    /// Takes the lines between the first and the last.
    pub(crate) fn take_all<R: Wait>(&mut self, rt: &R, lines: &[String], answers: &mut Answers) {
        for line in lines {
            let answer = self.take(rt, line.as_str(), answers);
            answers.add(answer);
        }
    }

    /// Ends the pool, and answers whether each list is its client's part of the trail, and each pass that was given
    /// back went back. It returns the core.
    pub(crate) fn finish(self, answers: &mut Answers) -> Pool<K> {
        let Table {
            alloc,
            way: _,
            pool,
            taker,
            end,
            sessions,
            beside,
        } = self;
        drop(end);
        let unread = beside.unread();
        let Beside {
            device,
            first,
            others,
            mut notes,
            lists,
        } = beside;
        drop(first);
        drop(others);
        let core = end_pool(pool, taker, sessions, &mut notes);
        answers.add(Some(agreement(&lists.entries, K::trail(&core), &notes)));
        drop(notes);
        pool_of(alloc, core, device, lists, unread)
    }
}

/// Answers whether each client's list is its part of the trail, of which some entries were cut.
fn agreement(cut: &[Entry], rest: &[Entry], notes: &[Note]) -> Answer {
    let (mut agree, mut client) = (true, 0u8);
    for note in notes {
        agree = is_part(cut, rest, &note.cut, client) && agree;
        client = client.saturating_add(1);
    }
    if agree {
        Answer::Reply(Reply::Done)
    } else {
        Answer::Word("a list is not its client's part of the trail")
    }
}

/// Ends the sessions and their pool, and returns the core.
fn end_pool<N: PoolName, K: Kind>(
    pool: SharedPool<N, K>,
    taker: Taker<N>,
    sessions: Vec<Session<N, K>>,
    notes: &mut [Note],
) -> PoolCore<K> {
    let mut pool = pool.close();
    let mut sessions = sessions.into_iter();
    for note in notes {
        if let Some(session) = sessions.next() {
            end_session(&mut pool, session, note);
        }
    }
    let (core, _, _) = pool.into_core(taker);
    core
}

/// Ends a session, whose list is cut to its end. A cut that is refused memory is made again.
fn end_session<N: PoolName, K: Kind>(
    pool: &mut ClosedPool<N, K>,
    session: Session<N, K>,
    note: &mut Note,
) {
    let mut session = session;
    if let Answer::Refused(_) = K::cut_list(&mut session, &mut note.cut) {
        K::cut_list(&mut session, &mut note.cut);
    }
    pool.end_session(session);
}
