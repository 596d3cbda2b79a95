//! `Stop`, how the program ends where it makes no report, and why.
ghost use Rattle.std.specs.Prelude.{◌≡◌, ◌<◌, true, false};
ghost use Rattle.std.specs.Io.KnownBytes.{Appends};
ghost use Rattle.bp_cli.specs.Ending.{is_help, message_of};

use crate::ending::Ending;
use crate::line::Line;
use std::alloc::Global;
use std::fmt::Display;
use std::io;
use std::io::{ErrorKind, Write};
use thiserror::Error;

/// What the system answered to an operation on a file, which has this name.
#[derive(Clone, Copy, Debug, Drop, Error)]
#[error("{name}: {error}")]
pub struct SystemFault<'a> {
    pub name: &'a str,
    pub error: io::Error,
}

/// What is said after the message of an ending.
#[derive(Drop)]
pub enum Reason {
    /// What is known by the ending alone.
    Unsaid,
    /// This line.
    Said(Line),
    /// Not even the message is said: the reader of standard output has gone, as `head` does.
    ReaderGone,
}

impl Reason {
    /// Returns the reason as a line, with a question mark in place of each control character. Without memory for it, it
    /// stays unsaid.
    pub fn of<D: Display>(alloc: Global, why: &D) -> Reason {
        let Ok(text) = format!(in alloc; "{why}") else {
            return Reason::Unsaid;
        };
        match Line::plain(alloc, text.as_str()) {
            Ok(line) => Reason::Said(line),
            Err(_) => Reason::Unsaid,
        }
    }
}

/// How the program ends where it makes no report, and why.
#[derive(Drop)]
pub struct Stop {
    pub ending: Ending,
    pub reason: Reason,
}

impl From<Ending> for Stop {
    ghost use Rattle.std.specs.Prelude.{◌≡◌};

    ghost from_gives = { λ ending stop. stop.ending ≡ ending };

    fn from(ending: Ending) -> Stop {
        Stop {
            ending,
            reason: Reason::Unsaid,
        }
    }
}

impl Stop {
    pub fn because<D: Display>(alloc: Global, ending: Ending, why: &D) -> Stop
        ensures { result.ending ≡ ending }
    {
        Stop {
            ending,
            reason: Reason::of(alloc, why),
        }
    }

    /// The output that has this name took not all. Where its reader has gone, nothing is said.
    pub fn output_failed(alloc: Global, name: &str, error: io::Error) -> Stop
        ensures { result.ending ≡ Ending.OutputFailed }
    {
        let reason = if error.kind() == ErrorKind::BrokenPipe {
            Reason::ReaderGone
        } else {
            Reason::of(alloc, &SystemFault { name, error })
        };
        Stop {
            ending: Ending::OutputFailed,
            reason,
        }
    }

    /// Writes why the program ended, as a line, where that is known. A fault of `err` is ignored.
    fn say_reason<E: Write>(&self, err: &mut E) {
        let _ = match &self.reason {
            Reason::Said(line) => writeln!(err, "{}", line.as_str()),
            Reason::ReaderGone => Ok(()),
            Reason::Unsaid => match self.ending.explanation() {
                Some(text) => writeln!(err, "{text}"),
                None => Ok(()),
            },
        };
    }

    /// Writes the message of its ending and then the reason, and returns the exit status.
    ///
    /// A fault of `err` is ignored. Where help or the version can't be written, `output failed` is written to `err`,
    /// and the status is 2. Where the reader of the output has gone, nothing is written.
    pub fn finish<W: Write, E: Write>(&self, out: &mut W, err: &mut E) -> u8
        ensures help { result ≡ 0 → (is_help self.now.ending ≡ true) ×
            Appends (W.contents out.old) (W.contents out.new) (message_of self.now.ending) }
        ensures fault { (result ≡ 0 → ⊥) → result ≡ 2 }
        ensures out_kept { is_help self.now.ending ≡ false → out.new ≡ out.old }
        ensures err_kept { result < 2 → err.new ≡ err.old }
    {
        if matches!(self.reason, Reason::ReaderGone) {
            return 2;
        }
        let status = self.ending.finish(out, err);
        if status == 2 {
            self.say_reason(err);
        }
        status
    }
}
