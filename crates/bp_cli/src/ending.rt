//! `Ending`, how the program ends where it makes no report.
ghost use Rattle.std.specs.Prelude.{◌≡◌, ◌<◌, true, false, OnOk};
ghost use Rattle.std.specs.Io.KnownBytes.{Appends};
ghost use Rattle.bp_cli.specs.Ending.{is_help, message_of, on_err, on_out, status_of};
ghost use Rattle.bp_cli.specs.Line.{is_line};

use crate::line::Line;
use bp_page::{Refusal, explanation_of};
use bp_trace::{InputFault, TraceFault};
use std::io::{ErrorKind, Write};
use std::{fmt, io};

pub const VERSION: &str = "0.13.0";

/// How the program ends where it makes no report. `Display` prints its message.
#[derive(Drop)]
pub enum Ending {
    /// The words ask for help, which is this text.
    Help(String),
    /// The words ask for the version.
    Version,
    /// A word is not UTF-8.
    WordsNotText,
    /// The words have this fault.
    CommandLine(Line),
    PageFileNotOpened,
    /// No pool can be made over this page file: its pages have a wrong size or number, or memory is refused.
    PageFileRefused(Refusal),
    TraceNotOpened,
    /// The trace has no script.
    TraceRefused(TraceFault),
    /// The run could not begin, or not end.
    RunRefused(Refusal),
    OutputFailed,
    ReferencesNotOpened,
    /// A line of the references has a fault. Line 0 is the list as a whole.
    ReferenceRefused {
        /// The number of the line from 1, in CSV of the record, or 0.
        line: u64,
        why: InputFault,
    },
    /// The picture of a table was not written, but the table was.
    PictureNotWritten,
}

impl fmt::Display for Ending {
    ghost use Rattle.std.specs.Prelude.{Some};
    ghost use Rattle.bp_cli.specs.Ending.{message_of};

    ghost output = { λ ending. Some (message_of ending) };

    fn fmt<W: fmt::Write>(&self, f: &mut fmt::Formatter<W>) -> fmt::Result {
        match self {
            Ending::Help(text) => f.write_str(text.as_str()),
            Ending::Version => writeln!(f, "bpool {VERSION}"),
            Ending::WordsNotText => {
                f.write_str("error: a word is not UTF-8; try 'bpool --help'")
            },
            Ending::CommandLine(line) => write!(f, "{}; try 'bpool --help'", line.as_str()),
            Ending::PageFileNotOpened => f.write_str("page file not opened"),
            Ending::PageFileRefused(refusal) => {
                write!(f, "page file refused {}", refusal.number())
            }
            Ending::TraceNotOpened => f.write_str("trace not opened"),
            Ending::TraceRefused(fault) => {
                let TraceFault { row, number } = *fault;
                write!(f, "trace row {row} refused {number}")
            }
            Ending::RunRefused(refusal) => write!(f, "run refused {}", refusal.number()),
            Ending::OutputFailed => f.write_str("output failed"),
            Ending::ReferencesNotOpened => f.write_str("references not opened"),
            Ending::ReferenceRefused { line, why } => {
                write!(f, "reference line {line} refused {}", why.number())
            }
            Ending::PictureNotWritten => f.write_str("picture not written"),
        }
    }
}

impl Ending {
    /// Returns what its number says of the reason, where it has one.
    pub fn explanation(&self) -> Option<&'static str> {
        let number = match self {
            Ending::PageFileRefused(Refusal::BadGeometry) => {
                return Some(
                    "a page file has 1 to 1048576 pages; a page has 16 to 65536 bytes, a multiple of 16",
                );
            }
            Ending::PageFileRefused(refusal) | Ending::RunRefused(refusal) => refusal.number(),
            Ending::TraceRefused(fault) => fault.number,
            Ending::ReferenceRefused { why, .. } => why.number(),
            _ => return None,
        };
        explanation_of(u64::from(number))
    }

    /// Returns true for help and for the version.
    pub fn is_help(&self) -> bool
        ensures { result ≡ is_help self.now }
    {
        matches!(self, Ending::Help(_) | Ending::Version)
    }

    /// Returns the exit status: 0 for help and for the version, else 2.
    pub fn status(&self) -> u8
        ensures { result ≡ status_of self.now }
    {
        if self.is_help() { 0 } else { 2 }
    }

    /// Writes help and the version to `out`, and anything else as one line to `err`.
    pub fn say<W: Write, E: Write>(&self, out: &mut W, err: &mut E) -> io::Result<()>
        ensures out { OnOk result (Appends (W.contents out.old) (W.contents out.new)
            (on_out self.now)) }
        ensures err { OnOk result (Appends (E.contents err.old) (E.contents err.new)
            (on_err self.now)) }
        ensures one_line { is_help self.now ≡ false → is_line (message_of self.now) ≡ true }
        ensures out_kept { is_help self.now ≡ false → out.new ≡ out.old }
        ensures err_kept { is_help self.now ≡ true → err.new ≡ err.old }
    {
        if self.is_help() {
            write!(out, "{self}")?;
            out.flush()
        } else {
            writeln!(err, "{self}")
        }
    }

    /// Writes its message, and returns the exit status.
    ///
    /// A fault of `err` is ignored. Where help or the version can't be written, `output failed` and why is written to
    /// `err`, and the status is 2; where the reader of the output has gone, nothing is written.
    pub fn finish<W: Write, E: Write>(&self, out: &mut W, err: &mut E) -> u8
        ensures help { result ≡ 0 → (is_help self.now ≡ true) ×
            Appends (W.contents out.old) (W.contents out.new) (message_of self.now) }
        ensures fault { (result ≡ 0 → ⊥) → result ≡ 2 }
        ensures out_kept { is_help self.now ≡ false → out.new ≡ out.old }
        ensures err_kept { result < 2 → err.new ≡ err.old }
    {
        let said = self.say(out, err);
        if said.is_ok() {
            return self.status();
        }
        if let Err(error) = said {
            if self.is_help() && error.kind() != ErrorKind::BrokenPipe {
                let _ = writeln!(err, "{}\nstandard output: {error}", Ending::OutputFailed);
            }
        }
        2
    }
}
