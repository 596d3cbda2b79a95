//! `bpool_command`, the command line of the program: its words, options, limits and help.
ghost use Rattle.std.specs.Prelude.{◌≡◌, false, IfOk};
ghost use Rattle.clap.specs.Words.{app_of, rule_of, shape_of, with_subcommand};
ghost use Rattle.clap.specs.Simple.{new_shape};
ghost use Rattle.clap.specs.declared.builder.command.Command.TheViews.{out-Command as fields_of};
ghost use Rattle.bp_cli.specs.Command.{bpool_app, explain_rules, migrate_rules, program_app, run_rules, sweep_rules};
ghost use Rattle.bp_cli.specs.Command.{AreLocal, HaveRules};
ghost use Rattle.bp_cli.specs.Command as spec;

use crate::ending::VERSION;
use bp_replacer::settings::MAX_PERIOD;
use clap::builder::ValueParser;
use clap::{Arg, ArgAction, Command};
use std::alloc::{AllocError, Global};

/// The end of the help of `bpool run`.
const STATUSES: &str = "\
Without tick rows no page is evicted. --retained acts at purge rows alone. bpool --help shows
a trace, and what each number says.
Status 0: all rows were accepted. Status 1: some row was refused; the report says which, and why.
Status 2: standard error says why there is no report, or only a part of it.";

const PURPOSES: &str = "\
A buffer pool with LRU-K replacement

  bpool run      shows what a pool does with a trace of fixes, writes and flushes
  bpool sweep    shows how many frames, and which K, a workload needs
  bpool migrate  gives a page file page numbers, by which a read of a wrong place is seen
  bpool explain  says what the number of a refusal stands for";

/// The end of `bpool --help`: the commands and their options, the default run, a trace, and each number.
const SUMMARY: &str = "\
bpool run TRACE PAGEFILE [--frames N] [--k N] [--correlated N] [--retained N] [--page-size N]
          [--format N] [--order ORDER] [--totals]

  TRACE             A path, or stdin for the standard input
  PAGEFILE          A path, or mem:N for N pages of zero bytes in memory, N from 1 to 1048576
  --frames N        1 to 65536 [default: 8]
  --k N             1 to 16 [default: 2]
  --correlated N    0 to 2^62 ticks [default: 0]
  --retained N      0 to 2^62 ticks; it acts at purge rows alone [default: 1000]
  --page-size N     16 to 65536 bytes, a multiple of 16 [default: 64]
  --format N        1 or 2: version of a page file at a path [default: 1]
  --order ORDER     trace or free [default: trace]
  --totals          Prints no lines of events, only the totals and the refused rows

bpool sweep REFERENCES --frames LIST [--k LIST] [--correlated N] [--column N] [--svg FILE]

  REFERENCES        A path, or stdin for the standard input: a number of up to 2^62 a line
  --frames LIST     1 to 65536 each; a list as 64,256,1024, or 16..1024 for each doubling
  --k LIST          1 to 16 each, likewise [default: 1,2]
  --correlated N    0 to 2^62 references [default: 0]
  --column N        1 to 65536: lines are CSV records, and field N, from 1, is the number
  --svg FILE        Draws hit ratio over frames into FILE, a path, once the table is printed

bpool migrate OLD NEW --page-size N

  OLD               A path: a page file of version 1
  NEW               A path: the page file of version 2 that is made of it

bpool explain N

  N                 One of the numbers below

No words at all: run stdin mem:16 --frames 2 --k 1

A trace is CSV without a header. A row is client,op,number,offset,bytes,lsn, where a client is 0 to
63. Fields that an op does not use are empty:

  0,fix,7,,,        Client 0 brings page 7 into a frame, and holds it there
  0,write,7,0,ff,5  Puts the byte ff into page 7 at offset 0; log record 5 describes it
  0,read,7,,,       Reads page 7
  0,unfix,7,,,      Lets go of page 7, which may then leave its frame
  0,flush,7,,,      Writes page 7 out, if it was changed
  0,log,5,,,        The log is durable as far as record 5
  0,discard,7,,,    Drops page 7: it leaves its frame, and is not written out
  0,tick,1,,,       Moves the clock by 1
  0,purge,,,,       Forgets old references of pages that are in no frame

Without tick rows no page is evicted. --retained acts at purge rows alone.

Numbers after the word refused:

  1   the number of pages, as of different references, or the page size is out of its limits
  2   a setting of the pool is out of its limits
  3   the page file is no positive number of whole pages, or has too many
  11  no page may leave its frame
  12  the log must first be durable as far as the page was changed
  13  a device operation on the page is under way
  14  no such pass is out
  16  no such ticket is out
  17  the page could not be read
  18  the page could not be written
  19  the page's place in its file has another page
  20  the trail has no room for the call
  21  the clock would pass its end
  22  out of memory
  23  the ring of passes to give back is full
  24  a mark came before the log rows of client 0 allow it
  25  the page is pinned
  40  a record does not have the fields of its operation, or lacks the column of a sweep
  41  no client has this number here
  42  no operation has this name
  43  a field is not a number within the limits
  44  the bytes are not pairs of hexadecimal digits
  45  the page is not of the file, or the bytes are not within the page
  46  the trace or the list of references is too long
  47  the trace or the list of references could not be read

Status 0: all rows were accepted, a table or NEW was made, or the words asked for an answer.
Status 1: some row was refused.
Status 2: standard error says why there is no report, or only a part of it.";

/// The end of the help of `bpool migrate`.
const MIGRATION: &str = "\
Each page gets its number and LSN 0. NEW is written beside itself as NEW.migrating, and takes its
name once it is whole. Status 0: NEW is made. Status 2: standard error says why it is
not; OLD is as it was.";

const RUN: &str = "Runs a trace over a buffer pool and reports what the pool did";

const SWEEP: &str = "Counts hits and faults for many numbers of frames and many K, in a table";

const MIGRATE: &str = "Writes a page file of version 1 anew in version 2";

const EXPLAIN: &str = "Says what the number of a refusal stands for";

const TRACE: &str = "The trace: a path, or stdin for the standard input";

const PAGE_FILE: &str = "The page file: a path, or mem:N for N pages of zero bytes in memory";

const FRAMES: &str = "Frames of the pool, from 1 to 65536";

const STAMPS: &str = "K of LRU-K, from 1 to 16";

const CORRELATED: &str = "Correlated reference period in ticks, from 0 to 2^62";

const RETAINED: &str = "Retained information period in ticks, from 0 to 2^62";

/// That it is a multiple of 16 is checked later.
const PAGE_SIZE: &str = "Bytes of a page, a multiple of 16 from 16 to 65536";

const FORMAT: &str = "Version of a page file at a path: 1 plain, 2 with page numbers";

const OLD: &str = "The page file of version 1: a path";

const NEW: &str = "The page file of version 2 that is made of it: a path, which is overwritten";

const ORDER: &str = "Order of the rows: trace, or free: a thread for each client";

const TOTALS: &str = "Prints no lines of events, only the totals and the refused rows";

const REFERENCES: &str = "The references: a path, or stdin for the standard input";

const SWEPT_FRAMES: &str = "Frames of the pools, from 1 to 65536: as 64,256,1024, or 16..1024";

const SWEPT_STAMPS: &str = "K of LRU-K, from 1 to 16: as 1,2,3, or 1..16 for 1,2,4,8,16";

const APART: &str = "Correlated reference period in references, from 0 to 2^62";

const COLUMN: &str = "The field with the number in each line, a CSV record: 1 to 65536";

const SVG: &str = "Draws hit ratio over frames into this file: a path";

const NUMBER: &str = "The number of a refusal, as in row 3 refused 11";

const NUMBERS: &str = "All numbers: bpool --help";

/// The end of the help of `bpool sweep`.
const SWEEPING: &str = "\
REFERENCES has a number of up to 2^62 a line, as a block number or an address; equal numbers are
references of one page. With --column a first record is a header if its field is there and is not
just digits, with or without a sign. A fault then tells the number of its record, not of its line.

A LIST is 1 to 64 different numbers with commas, or FIRST..LAST: FIRST, its double and so on below
LAST, and LAST. So 16..100 is 16,32,64,100.

  bpool sweep blocks.txt --frames 64..4096 --k 1,2 --svg hits.svg

Prints a line of CSV for each number of frames with each K, and one with k opt for the optimum,
which knows what comes. K 1 is LRU. FILE is SVG, which a browser shows, and is overwritten, unless
it is the file of REFERENCES.
Status 0: all lines are printed, and FILE is made. Status 2: standard error says why
there is no table, or only a part of it, or no picture.";

/// Returns an argument that must be there.
fn positional<'a>(alloc: Global, id: &'a str, shown: &'a str, help: &'a str) -> Arg<'a>
    ensures rule { rule_of result ≡ spec.positional id.entry.now }
    ensures local { result.global ≡ false }
{
    Arg::new(alloc, id)
        .value_name(shown)
        .required(true)
        .help(help)
}

/// Returns an option that takes a value.
fn valued<'a>(alloc: Global, id: &'a str, shown: &'a str, help: &'a str) -> Arg<'a>
    ensures rule { rule_of result ≡ spec.valued id.entry.now }
    ensures local { result.global ≡ false }
{
    Arg::new(alloc, id).long(id).value_name(shown).help(help)
}

/// Returns an option that takes a word, with a default. The word is checked later.
fn word_option<'a>(
    alloc: Global,
    id: &'a str,
    shown: &'a str,
    default: &'a str,
    help: &'a str,
) -> Arg<'a>
    ensures rule { rule_of result ≡ spec.word_option id.entry.now default.entry.now }
    ensures local { result.global ≡ false }
{
    valued(alloc, id, shown, help).default_value(default)
}

/// Returns an option that takes a number from `low` to `high`, with a default.
fn number_option<'a>(
    alloc: Global,
    id: &'a str,
    low: u64,
    high: u64,
    default: &'a str,
    help: &'a str,
) -> Arg<'a>
    ensures rule { rule_of result ≡ spec.number_option id.entry.now low high default.entry.now }
    ensures local { result.global ≡ false }
{
    word_option(alloc, id, "N", default, help).value_parser(ValueParser::Unsigned(low, high))
}

/// Returns an option that takes a word, without a default. The word is checked later.
fn bare_word<'a>(alloc: Global, id: &'a str, must: bool, shown: &'a str, help: &'a str) -> Arg<'a>
    ensures rule { rule_of result ≡ spec.bare_word id.entry.now must }
    ensures local { result.global ≡ false }
{
    valued(alloc, id, shown, help).required(must)
}

/// Returns an option that takes a number from `low` to `high`, without a default.
fn bare_number<'a>(
    alloc: Global,
    id: &'a str,
    must: bool,
    low: u64,
    high: u64,
    help: &'a str,
) -> Arg<'a>
    ensures rule { rule_of result ≡ spec.bare_number id.entry.now must low high }
    ensures local { result.global ≡ false }
{
    bare_word(alloc, id, must, "N", help).value_parser(ValueParser::Unsigned(low, high))
}

/// Returns an option without a value.
fn flag<'a>(alloc: Global, id: &'a str, help: &'a str) -> Arg<'a>
    ensures rule { rule_of result ≡ spec.flag id.entry.now }
    ensures local { result.global ≡ false }
{
    Arg::new(alloc, id)
        .long(id)
        .action(ArgAction::SetTrue)
        .help(help)
}

/// Returns a command that takes these arguments, if there was memory to make them.
fn command_of<'a>(
    alloc: Global,
    name: &'a str,
    about: &'a str,
    help: &'a str,
    made: Result<Vec<Arg<'a>>, AllocError>,
) -> Result<Command<'a>, AllocError>
    ensures shape { (rules : _) → HaveRules rules made.entry → AreLocal made.entry →
        IfOk result (λ c. shape_of c ≡ record (new_shape name.entry.now) { rules = rules }) }
    ensures local { AreLocal made.entry → IfOk result (λ c. (fields_of c).has_globals ≡ false) }
{
    match made {
        Ok(arguments) => Command::new(alloc, name)
            .about(about)
            .after_help(help)
            .args(arguments),
        Err(refused) => Err(refused),
    }
}

fn run_arguments<'a>(alloc: Global) -> Result<Vec<Arg<'a>>, AllocError>
    ensures rules { HaveRules run_rules result }
    ensures local { AreLocal result }
{
    let arguments = vec![in alloc;
        positional(alloc, "trace", "TRACE", TRACE),
        positional(alloc, "page-file", "PAGEFILE", PAGE_FILE),
        number_option(alloc, "frames", 1, 65_536, "8", FRAMES),
        number_option(alloc, "k", 1, 16, "2", STAMPS),
        number_option(alloc, "correlated", 0, MAX_PERIOD, "0", CORRELATED),
        number_option(alloc, "retained", 0, MAX_PERIOD, "1000", RETAINED),
        number_option(alloc, "page-size", 16, 65_536, "64", PAGE_SIZE),
        number_option(alloc, "format", 1, 2, "1", FORMAT),
        word_option(alloc, "order", "ORDER", "trace", ORDER),
        flag(alloc, "totals", TOTALS),
    ]?;
    Ok(arguments)
}

fn migrate_arguments<'a>(alloc: Global) -> Result<Vec<Arg<'a>>, AllocError>
    ensures rules { HaveRules migrate_rules result }
    ensures local { AreLocal result }
{
    let arguments = vec![in alloc;
        positional(alloc, "old", "OLD", OLD),
        positional(alloc, "new", "NEW", NEW),
        bare_number(alloc, "page-size", true, 16, 65_536, PAGE_SIZE),
    ]?;
    Ok(arguments)
}

fn sweep_arguments<'a>(alloc: Global) -> Result<Vec<Arg<'a>>, AllocError>
    ensures rules { HaveRules sweep_rules result }
    ensures local { AreLocal result }
{
    let arguments = vec![in alloc;
        positional(alloc, "references", "REFERENCES", REFERENCES),
        bare_word(alloc, "frames", true, "LIST", SWEPT_FRAMES),
        word_option(alloc, "k", "LIST", "1,2", SWEPT_STAMPS),
        number_option(alloc, "correlated", 0, MAX_PERIOD, "0", APART),
        bare_number(alloc, "column", false, 1, 65_536, COLUMN),
        bare_word(alloc, "svg", false, "FILE", SVG),
    ]?;
    Ok(arguments)
}

fn explain_arguments<'a>(alloc: Global) -> Result<Vec<Arg<'a>>, AllocError>
    ensures rules { HaveRules explain_rules result }
    ensures local { AreLocal result }
{
    let arguments = vec![in alloc; positional(alloc, "number", "N", NUMBER)]?;
    Ok(arguments)
}

/// Returns the program without its commands. The words that it parses do not have the program's name.
fn program_command<'a>(alloc: Global) -> Result<Command<'a>, AllocError>
    ensures { IfOk result (λ c. app_of c ≡ program_app) }
{
    Command::new(alloc, "bpool")
        .about(PURPOSES)
        .version(VERSION)
        .after_help(SUMMARY)
        .no_binary_name(true)
        .subcommand_required(true)
        .bin_name("bpool")
}

/// Adds a command with these arguments to the program, if there was memory to make them. Here alone the program is
/// dropped.
fn with_command<'a>(
    alloc: Global,
    program: Command<'a>,
    name: &'a str,
    about: &'a str,
    help: &'a str,
    made: Result<Vec<Arg<'a>>, AllocError>,
) -> Result<Command<'a>, AllocError>
    ensures { (rules : _) → HaveRules rules made.entry → AreLocal made.entry →
        IfOk result (λ c. app_of c ≡ with_subcommand (app_of program.entry)
        (record (new_shape name.entry.now) { rules = rules })) }
{
    match command_of(alloc, name, about, help, made) {
        Ok(command) => program.subcommand(command),
        Err(refused) => {
            drop(program);
            Err(refused)
        }
    }
}

/// Returns the command line of the program. The words that it parses do not have the program's name.
pub fn bpool_command<'a>(alloc: Global) -> Result<Command<'a>, AllocError>
    ensures { IfOk result (λ c. app_of c ≡ bpool_app) }
{
    let program = program_command(alloc)?;
    let arguments = run_arguments(alloc);
    let with_run = with_command(alloc, program, "run", RUN, STATUSES, arguments)?;
    let arguments = sweep_arguments(alloc);
    let with_sweep = with_command(alloc, with_run, "sweep", SWEEP, SWEEPING, arguments)?;
    let arguments = migrate_arguments(alloc);
    let with_migrate = with_command(alloc, with_sweep, "migrate", MIGRATE, MIGRATION, arguments)?;
    let arguments = explain_arguments(alloc);
    with_command(alloc, with_migrate, "explain", EXPLAIN, NUMBERS, arguments)
}
