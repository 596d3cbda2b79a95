//! `read_words`, which parses the words of a command line, and the tasks that they may name.
ghost use Rattle.std.specs.Prelude.{◌≡◌, ◌<◌, ◌^◌, option_map, Some, IfOk};
ghost use Rattle.clap.specs.Walk.{texts};
ghost use Rattle.clap.specs.Values.{kind_of};
ghost use Rattle.clap.specs.Words.{first_of, found_of, rows_of, subcommand_rows_of, FailsBy};
ghost use Rattle.bp_cli.specs.Words.{explanation_at, fault_in, flag_at, format_of, number_at, order_at, order_of};
ghost use Rattle.bp_cli.specs.Words.{draws_over, list_at};
ghost use Rattle.bp_cli.specs.Words.{options_by_rows};
ghost use Rattle.bp_cli.specs.Words as spec;
ghost use Rattle.bp_cli.specs.Asked.{AreInLimits, asked_by, asked_in, asked_of, migration_by_rows};
ghost use Rattle.bp_cli.specs.Asked.{sweep_by_rows, sweep_with};
ghost use Rattle.bp_cli.specs.Asked.Asked.{a_migration, a_run, a_sweep, an_explanation};
ghost use Rattle.bp_cli.specs.Decision.{size_asked};

use crate::command::bpool_command;
use bp_page::{Format, explanation_of};
use bp_replacer::settings::MAX_STAMPS;
use bp_trace::decimal::parse_number;
use bp_trace::{MAX_LISTED, numbers_listed};
use clap::error::ErrorKind;
use clap::{ArgMatches, Error};
use std::alloc::{AllocError, Global};

const MAX_FRAMES: usize = 65_536;

/// The input of a run or of a sweep: a trace or references.
#[derive(Clone, Copy)]
pub enum TraceSource<'a> {
    Stdin,
    Path(&'a str),
}

/// The order in which the rows of a trace are run.
#[derive(Clone, Copy)]
pub enum Order {
    /// That of the trace.
    Trace,
    /// Any order that keeps the rows of each client in order: each client is a thread.
    Free,
}

/// The words of `bpool run`.
#[derive(Clone, Copy)]
pub struct RunWords<'a> {
    pub trace: TraceSource<'a>,
    /// The word of the page file: `mem:N`, or a path.
    pub page_file: &'a str,
    pub frames: usize,
    pub k: usize,
    /// The correlated reference period of LRU-K, in ticks.
    pub correlated: u64,
    /// The retained information period of LRU-K, in ticks.
    pub retained: u64,
    /// The size of a page in bytes.
    pub page_size: usize,
    /// The version of a page file at a path.
    pub format: Format,
    pub order: Order,
    /// True if the report has no lines of events: totals and refused rows alone.
    pub totals: bool,
}

/// The words of `bpool migrate`.
#[derive(Clone, Copy)]
pub struct MigrationWords<'a> {
    /// The path of the page file of version 1.
    pub old: &'a str,
    /// The path of the new page file of version 2.
    pub new: &'a str,
    /// The size of a page in bytes.
    pub page_size: usize,
}

/// The words of `bpool sweep`: each number of frames is run with each K.
#[derive(Drop)]
pub struct SweepWords<'a> {
    pub references: TraceSource<'a>,
    /// The numbers of frames: 1 to 64 different numbers from 1 to 65,536.
    pub frames: Vec<usize>,
    /// The K of LRU-K: 1 to 16 different numbers from 1 to 16.
    pub ks: Vec<usize>,
    /// The correlated reference period of LRU-K, in references.
    pub correlated: u64,
    /// The column of the references, from 1 to 65,536, where the input is CSV. Without one each line is a number.
    pub column: Option<usize>,
    /// The path of the picture of the table, if one is to be drawn. It is not the path of the references.
    pub svg: Option<&'a str>,
}

/// The task that a command line names.
#[derive(Drop)]
pub enum Task<'a> {
    Run(RunWords<'a>),
    /// Writes a page file of version 1 again in version 2.
    Migrate(MigrationWords<'a>),
    /// Counts the replies to references, for numbers of frames and K.
    Sweep(SweepWords<'a>),
    Explain(&'a str),
}

impl Task<'_> {
    /// Returns the size of a page in bytes, or None where the task has no pages of a file.
    pub fn page_size(&self) -> Option<usize>
        ensures { result ≡ size_asked (asked_of self.now) }
    {
        match self {
            Task::Run(run) => Some(run.page_size),
            Task::Migrate(migration) => Some(migration.page_size),
            Task::Sweep(_) | Task::Explain(_) => None,
        }
    }
}

fn trace_source<'a>(word: &'a str) -> TraceSource<'a>
    ensures { spec.trace_given result ≡ spec.trace_of word.entry.now }
{
    if word == "stdin" {
        TraceSource::Stdin
    } else {
        TraceSource::Path(word)
    }
}

fn order_of(word: &str) -> Option<Order>
    ensures { result ≡ order_of word.now }
{
    match word {
        "trace" => Some(Order::Trace),
        "free" => Some(Order::Free),
        _ => None,
    }
}

/// Returns the version of page files with this number, 1 or 2.
fn format_of(number: usize) -> Format
    ensures { result ≡ format_of number }
{
    if number == 2 {
        Format::Headed
    } else {
        Format::Plain
    }
}

fn count_at(matches: &ArgMatches<'_>, id: &str) -> Option<usize>
    ensures { result ≡ number_at id.now (rows_of (found_of matches.now)) }
{
    matches.get_one::<usize>(id)
}

fn period_at(matches: &ArgMatches<'_>, id: &str) -> Option<u64>
    ensures { result ≡ number_at id.now (rows_of (found_of matches.now)) }
{
    matches.get_one::<u64>(id)
}

/// Returns the word of an argument, or None where it is left out and has no default.
fn word_at<'a>(matches: &ArgMatches<'a>, id: &str) -> Option<&'a str>
    ensures { option_map (λ word. word.now) result ≡ first_of id.now
        (rows_of (found_of matches.now)) }
{
    matches.get_str(id)
}

/// Returns the explanation of the number that the words name, or None where no refusal has it.
fn explanation_at(matches: &ArgMatches<'_>) -> Option<&'static str>
    ensures { option_map (λ text. text.now) result
        ≡ explanation_at (rows_of (found_of matches.now)) }
{
    let word = word_at(matches, "number")?;
    let number = parse_number(word.as_bytes())?;
    explanation_of(number)
}

/// Returns true if an option without a value is there.
fn flag_at(matches: &ArgMatches<'_>, id: &str) -> bool
    ensures { result ≡ flag_at id.now (rows_of (found_of matches.now)) }
{
    match word_at(matches, id) {
        Some(word) => word == "true",
        None => false,
    }
}

/// Returns the numbers of an option's list, or None where it is no list of numbers from `low` to `high`.
fn list_at(
    alloc: Global,
    matches: &ArgMatches<'_>,
    id: &str,
    low: usize,
    high: usize,
) -> Result<Option<Vec<usize>>, AllocError>
    requires { high < 2 ^ 63 }
    ensures { IfOk result (λ numbers. option_map (λ v. v.items) numbers
        ≡ list_at id.now low high (rows_of (found_of matches.now))) }
{
    match word_at(matches, id) {
        Some(word) => numbers_listed(alloc, word, low, high),
        None => Ok(None),
    }
}

/// Returns true if a sweep's picture has the same path as its references.
fn draws_over(matches: &ArgMatches<'_>) -> bool
    ensures { result ≡ draws_over (rows_of (found_of matches.now)) }
{
    let Some(word) = word_at(matches, "references") else {
        return false;
    };
    match word_at(matches, "svg") {
        Some(picture) => word == picture,
        None => false,
    }
}

/// Returns the order that a run names, or None where its word is no order.
fn order_at(matches: &ArgMatches<'_>) -> Option<Order>
    ensures { result ≡ order_at (rows_of (found_of matches.now)) }
{
    let word = word_at(matches, "order")?;
    order_of(word)
}

fn run_task<'a>(matches: &ArgMatches<'a>) -> Option<Task<'a>>
    ensures { option_map asked_of result
        ≡ option_map a_run (options_by_rows (rows_of (found_of matches.now))) }
{
    let trace = word_at(matches, "trace")?;
    let page_file = word_at(matches, "page-file")?;
    let frames = count_at(matches, "frames")?;
    let k = count_at(matches, "k")?;
    let correlated = period_at(matches, "correlated")?;
    let retained = period_at(matches, "retained")?;
    let page_size = count_at(matches, "page-size")?;
    let version = count_at(matches, "format")?;
    let order = order_at(matches)?;
    Some(Task::Run(RunWords {
        trace: trace_source(trace),
        page_file,
        frames,
        k,
        correlated,
        retained,
        page_size,
        format: format_of(version),
        order,
        totals: flag_at(matches, "totals"),
    }))
}

fn migration_task<'a>(matches: &ArgMatches<'a>) -> Option<Task<'a>>
    ensures { option_map asked_of result
        ≡ option_map a_migration (migration_by_rows (rows_of (found_of matches.now))) }
{
    let old = word_at(matches, "old")?;
    let new = word_at(matches, "new")?;
    let page_size = count_at(matches, "page-size")?;
    Some(Task::Migrate(MigrationWords {
        old,
        new,
        page_size,
    }))
}

/// Returns a sweep with these numbers of frames and these K.
fn sweep_with<'a>(matches: &ArgMatches<'a>, frames: Vec<usize>, ks: Vec<usize>) -> Option<Task<'a>>
    ensures { option_map asked_of result
        ≡ option_map a_sweep (sweep_with frames.items ks.items (rows_of (found_of matches.now))) }
{
    let references = word_at(matches, "references")?;
    let correlated = period_at(matches, "correlated")?;
    Some(Task::Sweep(SweepWords {
        references: trace_source(references),
        frames,
        ks,
        correlated,
        column: count_at(matches, "column"),
        svg: word_at(matches, "svg"),
    }))
}

fn sweep_task<'a>(alloc: Global, matches: &ArgMatches<'a>) -> Result<Option<Task<'a>>, AllocError>
    ensures { IfOk result (λ task. option_map asked_of task
        ≡ option_map a_sweep (sweep_by_rows (rows_of (found_of matches.now)))) }
{
    let Some(frames) = list_at(alloc, matches, "frames", 1, MAX_FRAMES)? else {
        return Ok(None);
    };
    let Some(ks) = list_at(alloc, matches, "k", 1, MAX_STAMPS)? else {
        return Ok(None);
    };
    if draws_over(matches) {
        return Ok(None);
    }
    Ok(sweep_with(matches, frames, ks))
}

fn explanation_task<'a>(matches: &ArgMatches<'a>) -> Option<Task<'a>>
    ensures { option_map asked_of result
        ≡ option_map an_explanation (explanation_at (rows_of (found_of matches.now))) }
{
    let text = explanation_at(matches)?;
    Some(Task::Explain(text))
}

/// Returns the task that the words name, or None where the word of an option names nothing.
fn task_in<'a>(alloc: Global, matches: &ArgMatches<'a>) -> Result<Option<Task<'a>>, AllocError>
    ensures { IfOk result (λ task. option_map asked_of task
        ≡ asked_in (subcommand_rows_of matches.now)) }
{
    let Some((command, own)) = matches.subcommand() else {
        return Ok(None);
    };
    match command {
        "run" => Ok(run_task(own)),
        "sweep" => sweep_task(alloc, own),
        "migrate" => Ok(migration_task(own)),
        "explain" => Ok(explanation_task(own)),
        _ => Ok(None),
    }
}

/// Returns the fault of an option whose word names nothing.
fn invalid(alloc: Global, said: &str) -> Result<Error, AllocError>
    ensures { IfOk result (λ e. kind_of e ≡ ErrorKind.InvalidValue) }
{
    let mut command = bpool_command(alloc)?;
    command.error(ErrorKind::InvalidValue, said)
}

/// Returns the fault of a run whose word for the order names none.
fn no_order(alloc: Global, run: &ArgMatches<'_>) -> Result<Error, AllocError>
    ensures { IfOk result (λ e. kind_of e ≡ ErrorKind.InvalidValue) }
{
    let word = word_at(run, "order").unwrap_or("");
    let said = format!(in alloc;
        "invalid value '{word}' for '--order <ORDER>' [possible values: trace, free]"
    )?;
    invalid(alloc, said.as_str())
}

/// Returns the fault of an option whose word is no list of numbers up to `high`.
fn no_list(
    alloc: Global,
    sweep: &ArgMatches<'_>,
    id: &str,
    high: usize,
) -> Result<Error, AllocError>
    ensures { IfOk result (λ e. kind_of e ≡ ErrorKind.InvalidValue) }
{
    let word = word_at(sweep, id).unwrap_or("");
    let said = format!(in alloc;
        "invalid value '{word}' for '--{id} <LIST>': not 1 to {MAX_LISTED} different numbers from 1 to {high} with commas, nor FIRST..LAST"
    )?;
    invalid(alloc, said.as_str())
}

/// Returns the fault of a sweep: its frames are no list, or else its K are none, or else its picture is its references.
fn no_sweep(alloc: Global, sweep: &ArgMatches<'_>) -> Result<Error, AllocError>
    ensures { IfOk result (λ e. kind_of e ≡ ErrorKind.InvalidValue) }
{
    if list_at(alloc, sweep, "frames", 1, MAX_FRAMES)?.is_none() {
        return no_list(alloc, sweep, "frames", MAX_FRAMES);
    }
    if list_at(alloc, sweep, "k", 1, MAX_STAMPS)?.is_none() {
        return no_list(alloc, sweep, "k", MAX_STAMPS);
    }
    let picture = word_at(sweep, "svg").unwrap_or("");
    let said = format!(in alloc;
        "invalid value '{picture}' for '--svg <FILE>': it is the word of REFERENCES"
    )?;
    invalid(alloc, said.as_str())
}

/// Returns the fault of a number that no refusal has.
fn no_number(alloc: Global, explain: &ArgMatches<'_>) -> Result<Error, AllocError>
    ensures { IfOk result (λ e. kind_of e ≡ ErrorKind.InvalidValue) }
{
    let word = word_at(explain, "number").unwrap_or("");
    let said = format!(in alloc; "invalid value '{word}' for '<N>': no refusal has this number")?;
    invalid(alloc, said.as_str())
}

/// Returns the fault of words that clap accepts, with an option whose word names nothing.
fn names_nothing(alloc: Global, matches: &ArgMatches<'_>) -> Result<Error, AllocError>
    ensures { IfOk result (λ e. kind_of e ≡ ErrorKind.InvalidValue) }
{
    if let Some(sweep) = matches.subcommand_matches("sweep") {
        return no_sweep(alloc, sweep);
    }
    if let Some(explain) = matches.subcommand_matches("explain") {
        return no_number(alloc, explain);
    }
    match matches.subcommand_matches("run") {
        Some(run) => no_order(alloc, run),
        None => no_order(alloc, matches),
    }
}

/// Parses the words of a command line, without the program's name.
///
/// An `Err` has the kind of the words' first fault: a mistake, a call for help or the version, or refused memory.
pub fn read_words<'a>(alloc: Global, words: &'a [&'a str]) -> Result<Task<'a>, Error>
    ensures asked { IfOk result (λ task. asked_by (texts words.now) ≡ Some (asked_of task)) }
    ensures limits { IfOk result (λ task. AreInLimits (asked_of task)) }
    ensures faults { FailsBy (fault_in (texts words.now)) result }
{
    let command = bpool_command(alloc)?;
    let matches = command.try_get_matches_from(words)?;
    let found = task_in(alloc, &matches)?;
    match found {
        Some(task) => Ok(task),
        None => Err(names_nothing(alloc, &matches)?),
    }
}
