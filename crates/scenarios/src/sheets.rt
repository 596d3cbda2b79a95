//! `Sheet`, which takes the lines of all scenarios, plays them, and compares the answers.

use crate::worlds::{Verdict, World, judge};
use scenario_sessions::Answers;
use scenario_words::{Answer, Way};
use std::alloc::Global;
use std::marker::Sync;
use std::sync::Wait;
use std::thread::Threads;
use std::{io, mem};

/// The line that ends a pool of sessions or of client threads.
const END: &str = "finish";

/// The wanted answer of a line, and the number of the line.
#[derive(Drop)]
struct Wanted {
    line: u64,
    text: String,
}

/// The counts so far, and the present scenario, which is played in three ways side by side.
#[derive(Drop)]
pub struct Sheet {
    alloc: Global,
    whole: World,
    pieces: World,
    counted: World,
    /// The lines so far of a pool of sessions or client threads, which are played together at its end, and their
    /// answers.
    lines: Vec<String>,
    wanted: Vec<Wanted>,
    name: String,
    /// Whether its lines held so far.
    holds: bool,
    line: u64,
    passed: u64,
    failed: u64,
}

const WAYS: [Way; 3] = [Way::Whole, Way::Pieces, Way::Counted];

/// Returns the words for the way in the report of a wrong answer.
fn said_of(way: Way) -> &'static str {
    match way {
        Way::Whole => "",
        Way::Pieces => ", cut after each call",
        Way::Counted => ", counted",
    }
}

/// Returns a line without its comment.
fn said(line: &str) -> &str {
    match line.split_once('#') {
        Some((before, _)) => before.trim(),
        None => line.trim(),
    }
}

/// Returns the call of a line, and its wanted answer.
fn row(line: &str) -> (&str, &str) {
    match line.split_once("->") {
        Some((call, wanted)) => (call.trim(), wanted.trim()),
        None => (line, "done"),
    }
}

/// Returns true if a line makes a pool of sessions or of client threads.
fn makes_a_pool(call: &str) -> bool {
    let (word, _) = call.split_once(' ').unwrap_or((call, ""));
    word == "pool" || word == "run"
}

/// Returns true if an answer is one of those wanted, which have `|` between them.
fn may_come(wanted: &str, text: &str) -> bool {
    let mut found = false;
    for one in wanted.split('|') {
        found = found || one.trim() == text;
    }
    found
}

impl Sheet {
    pub fn new(alloc: Global) -> Sheet {
        Sheet {
            alloc,
            whole: World::new(alloc, Way::Whole),
            pieces: World::new(alloc, Way::Pieces),
            counted: World::new(alloc, Way::Counted),
            lines: Vec::new(alloc),
            wanted: Vec::new(alloc),
            name: String::new(alloc),
            holds: true,
            line: 0,
            passed: 0,
            failed: 0,
        }
    }

    fn world(&mut self, way: Way) -> &mut World {
        match way {
            Way::Whole => &mut self.whole,
            Way::Pieces => &mut self.pieces,
            Way::Counted => &mut self.counted,
        }
    }

    pub fn take(
        &mut self,
        rt: &(impl Print + Threads + Wait + Sync),
        line: &str,
    ) -> io::Result<()> {
        self.line = self.line.saturating_add(1);
        for part in said(line).split(';') {
            self.take_part(rt, part.trim())?;
        }
        Ok(())
    }

    fn take_part(
        &mut self,
        rt: &(impl Print + Threads + Wait + Sync),
        part: &str,
    ) -> io::Result<()> {
        if part.is_empty() {
            return Ok(());
        }
        match part.strip_prefix("scenario ") {
            Some(name) => self.begin(rt, name.trim()),
            None => self.call(rt, part),
        }
    }

    fn begin(&mut self, rt: &(impl Print + Threads + Wait + Sync), name: &str) -> io::Result<()> {
        self.close(rt)?;
        self.name = String::from_str(self.alloc, name)?;
        Ok(())
    }

    /// Makes a call, or keeps the line until the end of its pool.
    fn call(&mut self, rt: &(impl Print + Threads + Wait + Sync), line: &str) -> io::Result<()> {
        let (call, wanted) = row(line);
        if self.lines.is_empty() && !makes_a_pool(call) {
            return self.call_at_once(rt, call, wanted);
        }
        self.keep(call, wanted)?;
        if call == END {
            self.play(rt)?;
        }
        Ok(())
    }

    fn call_at_once(
        &mut self,
        rt: &(impl Print + Threads + Wait + Sync),
        call: &str,
        wanted: &str,
    ) -> io::Result<()> {
        for way in WAYS {
            let answer = self.world(way).take(rt, call);
            self.compare(rt, self.line, way, wanted, &answer)?;
        }
        Ok(())
    }

    fn keep(&mut self, call: &str, wanted: &str) -> io::Result<()> {
        let call = String::from_str(self.alloc, call)?;
        let text = String::from_str(self.alloc, wanted)?;
        self.lines.push(call)?;
        self.wanted.push(Wanted {
            line: self.line,
            text,
        })?;
        Ok(())
    }

    /// Plays the lines of a pool, in each way.
    fn play(&mut self, rt: &(impl Print + Threads + Wait + Sync)) -> io::Result<()> {
        let lines = mem::replace(&mut self.lines, Vec::new(self.alloc));
        let wanted = mem::replace(&mut self.wanted, Vec::new(self.alloc));
        self.play_all(rt, &lines, &wanted)
    }

    fn play_all(
        &mut self,
        rt: &(impl Print + Threads + Wait + Sync),
        lines: &[String],
        wanted: &[Wanted],
    ) -> io::Result<()> {
        let Some((first, lines)) = lines.split_first() else {
            return Ok(());
        };
        for way in WAYS {
            let answers = self.world(way).play(rt, first.as_str(), lines);
            self.compare_all(rt, way, wanted, &answers)?;
        }
        Ok(())
    }

    /// Plays the lines of a pool that no line ended.
    fn end_pool(&mut self, rt: &(impl Print + Threads + Wait + Sync)) -> io::Result<()> {
        if self.lines.is_empty() {
            return Ok(());
        }
        self.keep(END, "done")?;
        self.play(rt)
    }

    /// Prints the lines whose answer in one of the ways is not the wanted one.
    fn compare_all(
        &mut self,
        rt: &impl Print,
        way: Way,
        wanted: &[Wanted],
        answers: &Option<Answers>,
    ) -> io::Result<()> {
        let Some(answers) = answers else {
            return Ok(());
        };
        for (at, wanted) in wanted.iter().enumerate() {
            match answers.list.get(at) {
                Some(answer) => self.compare(rt, wanted.line, way, wanted.text.as_str(), answer)?,
                None => self.tell(rt, wanted.line, way, wanted.text.as_str(), "no answer")?,
            }
        }
        Ok(())
    }

    /// Prints the line if its answer in one of the ways is not the wanted one.
    fn compare(
        &mut self,
        rt: &impl Print,
        line: u64,
        way: Way,
        wanted: &str,
        answer: &Option<Answer>,
    ) -> io::Result<()> {
        let Some(answer) = answer else {
            return Ok(());
        };
        let text = format!(in self.alloc; "{answer}")?;
        if may_come(wanted, text.as_str()) {
            Ok(())
        } else {
            self.tell(rt, line, way, wanted, text.as_str())
        }
    }

    fn tell(
        &mut self,
        rt: &impl Print,
        line: u64,
        way: Way,
        wanted: &str,
        got: &str,
    ) -> io::Result<()> {
        self.holds = false;
        let (name, way) = (self.name.as_str(), said_of(way));
        println!(rt; "{name} line {line}{way}: wanted {wanted}, got {got}")
    }

    /// Returns the number of calls that were refused memory, and made again.
    fn again(&self) -> u64 {
        self.whole
            .again
            .saturating_add(self.pieces.again)
            .saturating_add(self.counted.again)
    }

    /// Judges what the scenario made, and drops it, in each way.
    fn end_worlds(&mut self) -> Verdict {
        self.whole.gather();
        self.pieces.gather();
        let verdict = judge(self.alloc, &self.whole, &self.pieces, &self.counted);
        for way in WAYS {
            self.world(way).clear();
        }
        verdict
    }

    /// Ends the present scenario, if there is one. Lines before the first scenario should ask for nothing: they fail
    /// where one has another answer than wanted, and are not counted where none has.
    fn close(&mut self, rt: &(impl Print + Threads + Wait + Sync)) -> io::Result<()> {
        self.end_pool(rt)?;
        let again = self.again();
        let verdict = self.end_worlds();
        let holds = self.holds;
        self.holds = true;
        match verdict {
            Verdict::Good if holds && self.name.is_empty() => Ok(()),
            Verdict::Good if holds => self.tell_passed(rt, again),
            verdict => self.tell_failed(rt, verdict),
        }
    }

    fn tell_passed(&mut self, rt: &impl Print, again: u64) -> io::Result<()> {
        self.passed = self.passed.saturating_add(1);
        let name = self.name.as_str();
        match again {
            0 => println!(rt; "ok {name}"),
            _ => println!(rt; "ok {name}, calls made once more for want of memory: {again}"),
        }
    }

    fn tell_failed(&mut self, rt: &impl Print, verdict: Verdict) -> io::Result<()> {
        self.failed = self.failed.saturating_add(1);
        let name = self.name.as_str();
        match verdict {
            Verdict::Good => Ok(()),
            Verdict::Unlawful(place) => {
                println!(rt; "{name}: entry {place} of its trail is not lawful")
            }
            Verdict::Torn => println!(rt; "{name}: the pieces of its trail are not its trail"),
            Verdict::Miscounted => println!(rt; "{name}: what only counts made other entries"),
            Verdict::NoMemory => println!(rt; "{name}: there was no memory to judge its trail"),
        }
    }

    /// Ends the last scenario, and prints how many hold and how many do not. It returns true if all hold.
    pub fn end(&mut self, rt: &(impl Print + Threads + Wait + Sync)) -> io::Result<bool> {
        self.close(rt)?;
        let (passed, failed) = (self.passed, self.failed);
        println!(rt; "{passed} passed, {failed} failed")?;
        Ok(failed == 0)
    }
}
