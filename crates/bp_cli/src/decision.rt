//! `decide`, which turns the words of the command line into a task, or into the end of the program.
ghost use Rattle.std.specs.Prelude.{◌≡◌, IfErr, IfOk};
ghost use Rattle.clap.specs.Walk.{texts};
ghost use Rattle.clap.specs.Values.{kind_of};
ghost use Rattle.bp_cli.specs.Decision.{CanBegin, FitsNoPage, IsDecision, IsRefusal, size_asked};
ghost use Rattle.bp_cli.specs.Asked.{AreInLimits, asked_of};
ghost use Rattle.bp_cli.specs.Words.{words_or_default};
ghost use Rattle.bp_cli.specs.Words as spec;

use crate::ending::Ending;
use crate::line::{Line, plain};
use crate::words::{Task, read_words};
use bp_page::{Geometry, Refusal};
use clap::Error;
use clap::error::ErrorKind;
use std::alloc::{AllocError, Global};

fn default_words<'a>() -> &'a [&'a str]
    ensures { texts result.now ≡ spec.default_words }
{
    &["run", "stdin", "mem:16", "--frames", "2", "--k", "1"]
}

/// Passes the task on if its page size is allowed. It is checked here, before any page file is opened.
fn check_size(task: Task<'_>) -> Result<Task<'_>, Ending>
    requires { AreInLimits (asked_of task) }
    ensures accepted { IfOk result (λ same. (asked_of same ≡ asked_of task.entry) ×
        CanBegin (asked_of same)) }
    ensures refused { IfErr result (λ e. (e ≡ Ending.PageFileRefused Refusal.BadGeometry) ×
        FitsNoPage (size_asked (asked_of task.entry))) }
{
    let Some(size) = task.page_size() else {
        return Ok(task);
    };
    match Geometry::new(1, size) {
        Ok(_) => Ok(task),
        Err(refusal) => Err(Ending::PageFileRefused(refusal)),
    }
}

/// Replaces each control character of the words with a question mark.
fn plain_words(alloc: Global, words: &[&str]) -> Result<Vec<String>, AllocError> {
    let mut shown = Vec::new(alloc);
    for word in words {
        shown.push(plain(alloc, word)?)?;
    }
    Ok(shown)
}

/// Returns the text of the fault that clap finds in the words, if its kind is this one.
fn text_by_kind(
    alloc: Global,
    words: &[&str],
    kind: ErrorKind,
) -> Result<Option<String>, AllocError> {
    match read_words(alloc, words) {
        Ok(_task) => Ok(None),
        Err(error) => {
            if error.kind() != kind {
                return Ok(None);
            }
            let text = error.to_string(alloc)?;
            Ok(Some(text))
        }
    }
}

/// Returns the text of the fault that clap found in the words. clap quotes a word as it is, with its control
/// characters, which may end a line; so it parses again, with plain words.
fn text_of(alloc: Global, words: &[&str], error: &Error) -> Result<String, AllocError> {
    let shown = plain_words(alloc, words)?;
    let again: Vec<&str> = shown.iter().map(|word| word.as_str()).collect(alloc)?;
    match text_by_kind(alloc, again.as_slice(), error.kind())? {
        Some(text) => Ok(text),
        None => error.to_string(alloc),
    }
}

/// Returns the text of a fault with the name that clap thinks was meant, if it has one, which stands in a paragraph of
/// its own.
fn with_similar(alloc: Global, text: &str) -> Result<String, AllocError> {
    match text.split_once("\n\n  tip: a similar ") {
        Some((fault, similar)) => format!(in alloc; "{fault}; a similar {similar}"),
        None => String::from_str(alloc, text),
    }
}

/// Returns a fault of the words, as a line.
fn line_of(alloc: Global, text: &str) -> Result<Line, AllocError> {
    let text = with_similar(alloc, text)?;
    Line::of(alloc, text.as_str())
}

/// Returns how the program ends where clap refused the words.
fn refused(alloc: Global, words: &[&str], error: &Error) -> Ending
    ensures { IsRefusal (kind_of error.now) result }
{
    let no_memory = Ending::RunRefused(Refusal::OutOfMemory);
    if error.kind() == ErrorKind::OutOfMemory {
        return no_memory;
    }
    if error.kind() == ErrorKind::DisplayVersion {
        return Ending::Version;
    }
    let Ok(text) = text_of(alloc, words, error) else {
        return no_memory;
    };
    if error.kind() == ErrorKind::DisplayHelp {
        return Ending::Help(text);
    }
    match line_of(alloc, text.as_str()) {
        Ok(line) => Ending::CommandLine(line),
        Err(_) => no_memory,
    }
}

/// Decides by words that are not empty.
fn decide_by<'a>(alloc: Global, words: &'a [&'a str]) -> Result<Task<'a>, Ending>
    ensures { IsDecision (texts words.now) result }
{
    match read_words(alloc, words) {
        Ok(task) => check_size(task),
        Err(error) => Err(refused(alloc, words, &error)),
    }
}

/// Decides by the words of the command line, without the program's name, what is to be done. No words are those of the
/// default run.
///
/// An `Err` is how the program ends otherwise: with help, with the version, with the first fault of the words, or with
/// a page size that no page file has.
pub fn decide<'a>(alloc: Global, words: &'a [&'a str]) -> Result<Task<'a>, Ending>
    ensures { IsDecision (words_or_default (texts words.now)) result }
{
    if words.is_empty() {
        decide_by(alloc, default_words())
    } else {
        decide_by(alloc, words)
    }
}
