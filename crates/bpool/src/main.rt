//! The program bpool: runs a trace over a buffer pool and reports what the pool did, counts the replies of pools of
//! many sizes to a list of references, or writes a page file again in its second version.
#![tactic(auto)]

use bp_cli::{Ending, Stop};
use bp_page::Refusal;
use bp_run::{Awaiting, PageFiles, run_with};
use std::fs::File;
use std::io::{BufWriter, ErrorKind, IsTerminal, Write};
use std::marker::Sync;
use std::process::ExitCode;
use std::rt::{Env, Files};
use std::sync::Wait;
use std::thread::Threads;
use std::time::Clock;
use std::{env, io};

/// Returns the words of the command line, without the program's name.
fn words_given<R: AllocGlobal + Env>(rt: &R) -> Result<Vec<String>, Ending> {
    let words = match env::args(rt) {
        Ok(words) => words,
        Err(error) if error.kind() == ErrorKind::OutOfMemory => {
            return Err(Ending::RunRefused(Refusal::OutOfMemory));
        }
        Err(_) => return Err(Ending::WordsNotText),
    };
    words
        .skip(1)
        .collect(rt.alloc())
        .map_err(|_| Ending::RunRefused(Refusal::OutOfMemory))
}

/// Does what the words say, over standard input and output, and returns the exit status. Where somebody watches, `err`
/// shows the progress of a migration or a sweep. `note`, if there is one, gets a line once standard input is read.
fn run_words<
    R: AllocGlobal + Files<File = File> + Clock + Input + Print + Threads + Wait + Sync,
    N: Write + Drop,
    E: Write,
>(rt: &R, given: &[String], is_watched: bool, note: Option<N>, err: &mut E) -> Result<u8, Ending> {
    let alloc = rt.alloc();
    let mut words = Vec::new(alloc);
    for word in given {
        let Ok(()) = words.push(word.as_str()) else {
            return Err(Ending::RunRefused(Refusal::OutOfMemory));
        };
    }
    let Ok(mut out) = BufWriter::new(alloc, io::writer(rt)) else {
        return Err(Ending::RunRefused(Refusal::OutOfMemory));
    };
    let mut ports = PageFiles::new(alloc).watched(is_watched);
    let status = run_with(
        rt,
        alloc,
        words.as_slice(),
        &mut Awaiting::new(rt.reader(), note),
        &mut ports,
        &mut out,
        err,
    );
    Ok(status)
}

fn main(rt: HostRuntime) -> ExitCode {
    let mut err = rt.stderr();
    let is_watched = err.is_terminal();
    let note = if rt.stdin().is_terminal() {
        Some(rt.stderr())
    } else {
        None
    };
    let run = match words_given(&rt) {
        Ok(given) => run_words(&rt, &given, is_watched, note, &mut err),
        Err(ending) => Err(ending),
    };
    let status = match run {
        Ok(status) => status,
        Err(ending) => Stop::from(ending).finish(&mut io::writer(&rt), &mut err),
    };
    ExitCode::from(status)
}
