//! `World`, what a scenario made in one way, and the judgement of its trails.
ghost use Rattle.std.specs.Prelude.{◌<◌, OnOk, vec_len, vec_capacity};

use crate::histories::{Timed, new_timed};
use crate::ranks::{Ranked, new_ranked};
use bp_check::{Setup, first_unlawful};
use bp_core::{RecordingKeeper, SilentKeeper};
use bp_page::Refusal;
use bp_trail::{Entry, Reply};
use scenario_cores::{Judged, Owned, Pool, new_judged, new_owned, new_pool, owned_of};
use scenario_sessions::{Answers, Ran, play_pool, play_run};
use scenario_words::{Answer, Keeps, Said, Shape, Thing, Verb, Way, call_of, maker_of};
use std::alloc::{AllocError, Global};
use std::marker::Sync;
use std::sync::Wait;
use std::thread::Threads;

const NOTHING: Answer = Answer::Word("nothing to call");

const DONE: Answer = Answer::Reply(Reply::Done);

#[derive(Drop)]
enum Made {
    Kept(Pool<RecordingKeeper>),
    Counted(Pool<SilentKeeper>),
    Owned(Owned<RecordingKeeper>),
    OwnedCounted(Owned<SilentKeeper>),
    Histories(Timed),
    Candidates(Ranked),
    Judged(Judged),
    Ran(Ran),
    /// A core that was dropped, since its owner was refused.
    Dropped,
}

/// Returns true if a call asks for the trail, which is different in the ways after the first.
fn asks_the_trail(verb: Verb) -> bool {
    matches!(
        verb,
        Verb::Trail | Verb::Fresh | Verb::Cut | Verb::Entry | Verb::Totals | Verb::Refusals
    )
}

/// Returns true if a call was made, and refused memory.
fn lacks_memory(answer: &Option<Answer>) -> bool {
    matches!(answer, Some(answer) if answer.lacks_memory())
}

/// Reserves room for one thing more. Where memory is refused, it tries again.
fn make_room(made: &mut Vec<Made>) -> Result<(), AllocError>
    ensures { OnOk result (vec_len made.new < vec_capacity made.new) }
{
    match made.reserve(1) {
        Ok(()) => Ok(()),
        Err(_) => made.reserve(1),
    }
}

/// Parses a line that makes something. Where memory may have been refused, it tries again.
fn made_again(alloc: Global, line: &str) -> Option<(Thing, Shape)> {
    match maker_of(alloc, line) {
        Some(made) => Some(made),
        None => maker_of(alloc, line),
    }
}

#[derive(Drop)]
pub struct World {
    alloc: Global,
    way: Way,
    made: Vec<Made>,
    /// The place of the one that is called.
    at: usize,
    /// Whether a line made something that this way does not have. Then the rest of the scenario is skipped.
    is_out: bool,
    /// The number of calls that were refused memory, and made again.
    pub again: u64,
}

/// Returns true if this way has what the line makes. Only the first way has things without a core, and those whose line
/// says how they keep their trail. The way that cuts has no pools with one owner.
fn is_there(way: Way, thing: Thing, keeps: Keeps) -> bool {
    match (way, thing, keeps) {
        (Way::Whole, _, _) | (Way::Counted, Thing::Owned, Keeps::Each) => true,
        (_, Thing::Core | Thing::Driven | Thing::Pool, Keeps::Each) => true,
        _ => false,
    }
}

/// Returns true if the core of a line only counts its entries in this way.
fn only_counts(way: Way, keeps: Keeps) -> bool {
    matches!((way, keeps), (Way::Counted, _) | (_, Keeps::Counted))
}

/// Makes a core, or a pool with one owner, that only counts its entries.
fn new_counted(alloc: Global, thing: Thing, shape: &Shape) -> Result<Made, Refusal> {
    if matches!(thing, Thing::Owned) {
        return match new_owned(alloc, shape) {
            Ok(owned) => Ok(Made::OwnedCounted(owned)),
            Err(refusal) => Err(refusal),
        };
    }
    match new_pool(alloc, thing, shape) {
        Ok(pool) => Ok(Made::Counted(pool)),
        Err(refusal) => Err(refusal),
    }
}

/// Makes a core, or a pool with one owner, that keeps its entries.
fn new_kept(alloc: Global, thing: Thing, shape: &Shape) -> Result<Made, Refusal> {
    if matches!(thing, Thing::Owned) {
        return match new_owned(alloc, shape) {
            Ok(owned) => Ok(Made::Owned(owned)),
            Err(refusal) => Err(refusal),
        };
    }
    match new_pool(alloc, thing, shape) {
        Ok(pool) => Ok(Made::Kept(pool)),
        Err(refusal) => Err(refusal),
    }
}

fn new_made(alloc: Global, way: Way, thing: Thing, shape: &Shape) -> Result<Made, Refusal> {
    match thing {
        Thing::Histories => match new_timed(alloc, shape) {
            Ok(timed) => Ok(Made::Histories(timed)),
            Err(refusal) => Err(refusal),
        },
        Thing::Candidates => match new_ranked(alloc, shape) {
            Ok(ranked) => Ok(Made::Candidates(ranked)),
            Err(refusal) => Err(refusal),
        },
        Thing::Judged => match new_judged(alloc, shape) {
            Ok(judged) => Ok(Made::Judged(judged)),
            Err(refusal) => Err(refusal),
        },
        _ if only_counts(way, shape.keeps) => new_counted(alloc, thing, shape),
        _ => new_kept(alloc, thing, shape),
    }
}

impl Made {
    fn call(&mut self, rt: &impl Wait, call: &Said) -> Answer {
        match self {
            Made::Kept(core) => core.ask(rt, call),
            Made::Counted(core) => core.call(rt, call),
            Made::Owned(owned) => owned.call(rt, call),
            Made::OwnedCounted(owned) => owned.call(rt, call),
            Made::Histories(timed) => timed.call(call),
            Made::Candidates(ranked) => ranked.call(call),
            Made::Ran(ran) => ran.call(rt, call),
            Made::Judged(_) => Answer::BadLine,
            Made::Dropped => NOTHING,
        }
    }

    /// Gives an owner to a core. A refusal drops the core. For all else the line is a bad one.
    fn with_owner(self, call: &Said) -> (Made, Answer) {
        match self {
            Made::Kept(core) => match owned_of(core, call) {
                Ok(owned) => (Made::Owned(owned), DONE),
                Err(refusal) => (Made::Dropped, Answer::Refused(refusal)),
            },
            Made::Counted(core) => match owned_of(core, call) {
                Ok(owned) => (Made::OwnedCounted(owned), DONE),
                Err(refusal) => (Made::Dropped, Answer::Refused(refusal)),
            },
            made => (made, Answer::BadLine),
        }
    }

    /// Makes a core with a device of a pool with one owner. For all else the line is a bad one.
    fn without_owner(self) -> (Made, Answer) {
        match self {
            Made::Owned(owned) => (Made::Kept(owned.into_pool()), DONE),
            Made::OwnedCounted(owned) => (Made::Counted(owned.into_pool()), DONE),
            made => (made, Answer::BadLine),
        }
    }

    /// Returns a hash of what it tells without a call.
    fn digest(&self) -> u64 {
        match self {
            Made::Kept(core) => core.digest(),
            Made::Counted(core) => core.digest(),
            Made::Owned(owned) => owned.digest(),
            Made::OwnedCounted(owned) => owned.digest(),
            Made::Histories(timed) => timed.digest(),
            Made::Candidates(_) | Made::Judged(_) | Made::Ran(_) | Made::Dropped => 0,
        }
    }
}

/// Plays the lines of a pool of sessions or client threads, and returns what is left, if the pool was made.
fn played<R: Threads + Wait + Sync>(
    rt: &R,
    alloc: Global,
    way: Way,
    made: (Thing, Shape),
    lines: &[String],
    answers: &mut Answers,
) -> Option<Made> {
    let (thing, shape) = made;
    if matches!(thing, Thing::Run) {
        return match play_run(rt, alloc, &shape, lines, answers) {
            Some(ran) => Some(Made::Ran(ran)),
            None => None,
        };
    }
    if only_counts(way, shape.keeps) {
        return match play_pool::<SilentKeeper, R>(rt, alloc, way, &shape, lines, answers) {
            Some(pool) => Some(Made::Counted(pool)),
            None => None,
        };
    }
    match play_pool::<RecordingKeeper, R>(rt, alloc, way, &shape, lines, answers) {
        Some(pool) => Some(Made::Kept(pool)),
        None => None,
    }
}

impl World {
    pub fn new(alloc: Global, way: Way) -> World {
        World {
            alloc,
            way,
            made: Vec::new(alloc),
            at: 0,
            is_out: false,
            again: 0,
        }
    }

    /// Adds what was made. It is called from here on.
    fn have(&mut self, made: Made)
        requires { vec_len self.old.made < vec_capacity self.old.made }
    {
        self.at = self.made.len();
        self.made.push_reserved(made);
    }

    /// Returns true if this way has what the line makes. Else the rest of the scenario is skipped.
    fn goes_on(&mut self, thing: Thing, shape: &Shape) -> bool {
        if !is_there(self.way, thing, shape.keeps) {
            self.is_out = true;
            self.made.clear();
        }
        !self.is_out
    }

    /// Makes something. The room for it comes first, so that nothing made is to be dropped where there is none.
    fn make(&mut self, thing: Thing, shape: &Shape) -> Option<Answer> {
        if !self.goes_on(thing, shape) {
            return None;
        }
        let Ok(()) = make_room(&mut self.made) else {
            return Some(Answer::Refused(Refusal::OutOfMemory));
        };
        match new_made(self.alloc, self.way, thing, shape) {
            Ok(made) => {
                self.have(made);
                Some(DONE)
            }
            Err(refusal) => Some(Answer::Refused(refusal)),
        }
    }

    fn go_on(&mut self, at: u64) -> Answer {
        if at as usize >= self.made.len() {
            return NOTHING;
        }
        self.at = at as usize;
        DONE
    }

    fn call(&mut self, rt: &impl Wait, call: &Said) -> Option<Answer> {
        let Some(made) = self.made.get_mut(self.at) else {
            return Some(NOTHING);
        };
        let answer = match (self.way, call.verb) {
            (Way::Pieces | Way::Counted, verb) if asks_the_trail(verb) => return None,
            _ => made.call(rt, call),
        };
        if let (Way::Pieces, Made::Kept(core)) = (self.way, made) {
            core.gather();
        }
        Some(answer)
    }

    /// Takes the pool with one owner that was made last apart, or gives an owner to the core that was.
    fn turn(&mut self, call: &Said) -> Answer {
        if self.at.saturating_add(1) != self.made.len() {
            return Answer::BadLine;
        }
        let Some(made) = self.made.pop() else {
            return NOTHING;
        };
        let (made, answer) = match call.verb {
            Verb::Own => made.with_owner(call),
            _ => made.without_owner(),
        };
        self.made.push_reserved(made);
        answer
    }

    /// Plays the lines of a pool after the one that makes it; the last of them ends it. What they leave is called from
    /// here on. It returns None where this way skips them.
    pub fn play<R: Threads + Wait + Sync>(
        &mut self,
        rt: &R,
        first: &str,
        lines: &[String],
    ) -> Option<Answers> {
        if self.is_out {
            return None;
        }
        let mut answers = Answers::new(self.alloc, lines.len().saturating_add(1));
        let Some((thing, shape)) = made_again(self.alloc, first) else {
            answers.add(Some(Answer::BadLine));
            return Some(answers);
        };
        if !self.goes_on(thing, &shape) {
            return None;
        }
        let Ok(()) = make_room(&mut self.made) else {
            answers.add(Some(Answer::Refused(Refusal::OutOfMemory)));
            return Some(answers);
        };
        if let Some(made) = played(
            rt,
            self.alloc,
            self.way,
            (thing, shape),
            lines,
            &mut answers,
        ) {
            self.have(made);
        }
        self.again = self.again.saturating_add(answers.again);
        Some(answers)
    }

    /// Takes a line `CALL gives REPLY`.
    fn claim(&mut self, call: &str, reply: &str) -> Answer {
        let Some(Made::Judged(judged)) = self.made.get_mut(self.at) else {
            return Answer::BadLine;
        };
        match call_of(self.alloc, call) {
            Some(call) => judged.claim(&call, reply),
            None => Answer::BadLine,
        }
    }

    fn obey(&mut self, rt: &impl Wait, line: &str) -> Option<Answer> {
        if let Some((call, reply)) = line.split_once(" gives ") {
            return Some(self.claim(call, reply));
        }
        if let Some((thing, shape)) = maker_of(self.alloc, line) {
            return self.make(thing, &shape);
        }
        match call_of(self.alloc, line) {
            Some(call) => match call.verb {
                Verb::On => Some(self.go_on(call.numbers.list[0])),
                Verb::Parts | Verb::Own => Some(self.turn(&call)),
                _ => self.call(rt, &call),
            },
            None => Some(Answer::BadLine),
        }
    }

    fn digest(&self) -> u64 {
        match self.made.get(self.at) {
            Some(made) => made.digest(),
            None => 0,
        }
    }

    /// Does what a line asks for. It returns None where this way skips it. A call that was refused memory must have
    /// changed nothing that can be told, except for a flush of all pages, and is made again.
    pub fn take(&mut self, rt: &impl Wait, line: &str) -> Option<Answer> {
        if self.is_out {
            return None;
        }
        let before = self.digest();
        let answer = self.obey(rt, line);
        if !lacks_memory(&answer) {
            return answer;
        }
        if self.digest() == before || matches!(answer, Some(Answer::Stopped(_, _))) {
            self.once_more(rt, line)
        } else {
            Some(Answer::Word("22, and something has changed"))
        }
    }

    fn once_more(&mut self, rt: &impl Wait, line: &str) -> Option<Answer> {
        let answer = self.obey(rt, line);
        if answer.is_some() && !lacks_memory(&answer) {
            self.again = self.again.saturating_add(1);
        }
        answer
    }

    /// Cuts the rest of the trails of its cores. A pool that has an owner still is not judged.
    pub fn gather(&mut self) {
        for at in 0..self.made.len() {
            if let Some(Made::Kept(core)) = self.made.get_mut(at) {
                core.gather();
            }
        }
    }

    pub fn clear(&mut self) {
        self.made.clear();
        self.at = 0;
        self.is_out = false;
        self.again = 0;
    }
}

#[derive(Clone, Copy)]
pub enum Verdict {
    Good,
    /// The number of the first unlawful entry, from 1.
    Unlawful(u64),
    /// The joined pieces of a trail are not the trail that was kept whole.
    Torn,
    /// A core that only counts its entries has another count.
    Miscounted,
    NoMemory,
}

/// Returns the place of the first unlawful entry. Where memory is refused, it tries again.
fn unlawful(alloc: Global, setup: &Setup, trail: &[Entry]) -> Result<Option<usize>, AllocError> {
    match first_unlawful(alloc, setup, trail) {
        Ok(place) => Ok(place),
        Err(_) => first_unlawful(alloc, setup, trail),
    }
}

fn judged(alloc: Global, setup: &Setup, trail: &[Entry]) -> Verdict {
    match unlawful(alloc, setup, trail) {
        Ok(None) => Verdict::Good,
        Ok(Some(place)) => Verdict::Unlawful((place as u64).saturating_add(1)),
        Err(_) => Verdict::NoMemory,
    }
}

/// Compares a core's entries with those of the same core in the other ways: cut after each call, and only counted.
fn beside(core: &Pool<RecordingKeeper>, pieces: Option<&Made>, counted: Option<&Made>) -> Verdict {
    match (pieces, counted) {
        (Some(Made::Kept(pieces)), _) if !core.is_joined(pieces) => Verdict::Torn,
        (_, Some(Made::Counted(counted))) if !core.is_counted(counted) => Verdict::Miscounted,
        _ => Verdict::Good,
    }
}

/// Judges a core's trail, and compares it with the other ways, if they have the core.
fn verdict_of(
    alloc: Global,
    core: &Pool<RecordingKeeper>,
    pieces: Option<&Made>,
    counted: Option<&Made>,
) -> Verdict {
    if !core.is_gathered() {
        return Verdict::NoMemory;
    }
    match judged(alloc, &core.setup(), core.entries()) {
        Verdict::Good => beside(core, pieces, counted),
        verdict => verdict,
    }
}

/// Judges what a scenario made, once all its trails are cut. Each trail goes to the judge, is compared with its pieces
/// where all ways have the core, and with the count of the core that only counts. It returns the first verdict that is
/// not good.
pub fn judge(alloc: Global, whole: &World, pieces: &World, counted: &World) -> Verdict {
    let mut verdict = Verdict::Good;
    for (at, made) in whole.made.iter().enumerate() {
        verdict = match (verdict, made) {
            (Verdict::Good, Made::Kept(core)) => {
                verdict_of(alloc, core, pieces.made.get(at), counted.made.get(at))
            }
            (Verdict::Good, Made::Ran(ran)) => judged(alloc, &ran.setup(), ran.trail()),
            _ => verdict,
        };
    }
    verdict
}
