//! Plays the scenarios of standard input: text with calls and the answers that were worked out by hand.
//!
//! A scenario is a line with its name, a line that makes something to call, and a line for each call. README.md
//! lists all lines. The status is 0 where all scenarios hold, 1 where one does not, and 2 where they could not be read
//! or the report not be printed.
#![tactic(auto)]

mod histories;
mod ranks;
mod sheets;
mod worlds;

use sheets::Sheet;
use std::alloc::Global;
use std::io;
use std::marker::Sync;
use std::process::ExitCode;
use std::sync::Wait;
use std::thread::Threads;

/// Plays the scenarios of a text. It prints `ok` and the name of each that holds, each line of the others with another
/// answer than wanted, and at the end how many hold and how many do not. It returns true if all hold. It fails where a
/// line can't be printed, or memory for the text of an answer or for a name is refused.
fn play(
    rt: &(impl Print + Threads + Wait + Sync),
    sheet: &mut Sheet,
    text: &str,
) -> io::Result<bool> {
    for line in text.lines() {
        sheet.take(rt, line)?;
    }
    sheet.end(rt)
}

fn run(rt: &(impl Print + Input + Threads + Wait + Sync + Alloc<A = Global>)) -> io::Result<bool> {
    let text = io::read_to_string(rt.alloc(), rt.reader())?;
    let mut sheet = Sheet::new(rt.alloc());
    play(rt, &mut sheet, text.as_str())
}

fn main(rt: HostRuntime) -> ExitCode {
    match run(&rt) {
        Ok(true) => ExitCode::from(0),
        Ok(false) => ExitCode::from(1),
        Err(_) => ExitCode::from(2),
    }
}
