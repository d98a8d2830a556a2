//! What the words of the command line ask for, parsed by `clap`.

ghost use Rattle.std.specs.Prelude.{◌≡◌, ℕ, IfErr, IfOk, Some, codes, map, option_map, string_bytes, true};
ghost use Rattle.std.specs.Int.{IsInRange};
ghost use Rattle.clap.specs.Matches.{first_value, found_of};
ghost use Rattle.clap.specs.Values.{kind_of};
ghost use Rattle.clap.specs.Simple.{App, app_of, new_app, on_top, subcommand_rows_of, with_subcommand};
ghost use Rattle.mrp_words.specs.Help.{help_line, help_text};
ghost use Rattle.mrp_words.specs.Words.{Asks, Enters, EntersCheckOrDay, EntersUncarried, EntersUninspected, EntersUnpaged, HasFolder, HasNoGlobals, HasWorkers, IsAsAsked, IsBy, IsEntered, IsOfKind, app_with, day_app, dir_among, mrp_command};

use crate::carry_words::{CarryWords, carry_command, carry_words};
use crate::check_words::check_command;
use crate::day::DayCommand;
use crate::desk_words::desk_command;
use crate::inspect_words::inspect_command;
use crate::options::{dir, workers};
use crate::page_words::{PageWords, page_command, page_words};
use clap::error::ErrorKind;
use clap::{ArgMatches, Command, Error};
use std::alloc::{AllocError, Global};
use std::convert::AsStr;

/// The most workers that the words may ask for.
pub const MOST_WORKERS: u64 = mrp_turn::MOST_SEATS;

// The version, and the toolchain that it was proved with, as `rt version` names it (tools/gate looks).
const VERSION: &str = "0.1.0 (proved with rattle-kit-13f)";

// The texts of the help: of the program, its commands and their options.
const ABOUT: &str =
    "Plans a shop's materials: reads the tables of a bundle, answers its desks, and writes what to make and when.";

const LINE_PLAN: &str = "Plans a bundle from standard input, or the files of a folder";

const LINE_LIVE: &str = "Plans the same with its desks at work beside one another";

const ABOUT_PLAN: &str =
    "Reads a bundle from standard input, answers the calls of its script, and writes the history of these
calls and the plan of each run to standard output.

A bundle is a text of nine sections, each a line with its name in brackets, as [items], and the rows
of a csv table. With --dir the tables are the files calendar.csv, items.csv, centres.csv, stock.csv,
receipts.csv, bills.csv, routings.csv, master.csv and script.csv of a folder, and standard input is
not read; a file that is not there is a section that is missing.

What is written is a text of sections in the same form. [history] has a row for each call of the
script, with its reply. Then, for each run:
  [run]       what was planned from
  [promises]  each master item and week: what is firm, booked, and available to promise
  [plan]      each item and week: what is required, comes in, starts and is left
  [orders]    each order: what it is for, when it is due, and when it has to start
  [pegs]      which supply serves which requirement, and what is surplus
  [messages]  which orders to release, and which supplies to take earlier, later or not at all
  [loads]     each work centre and week: load, capacity, and what is over, in minutes";

const ABOUT_LIVE: &str =
    "Reads a bundle, as `mrp plan` does, has the desks of its script make their calls beside one another,
and writes the history of these calls and the plan of each run to standard output.

There are as many desks as the greatest desk number of the script, and at least one. Each makes the
calls of its records in order, in a thread of its own where one can be started. Which desk comes first
is left open, so one bundle can have other days from one time to the next: each is right, with every
reply the one that the entries before it decide, and each desk's calls in the order of its records. A
script without a run is taken with one more call, a run of desk 1 after all others.

Bundles, --dir and the sections that are written are those of `mrp plan`: see `mrp plan --help`.";

const ABOUT_DIR: &str =
    "A folder, whose files calendar.csv, items.csv and so on are planned in place of standard input";

const EXAMPLE: &str = "Examples:
  mrp plan < shop.bundle > shop.day
  mrp plan --dir shop > shop.day
  mrp live < shop.bundle > shop.day
  mrp page < shop.day > shop.html
  mrp check --dir shop < shop.day
  mrp carry --dir shop --start 2025-01-13 > kept.csv
  mrp inspect --dir shop
  mrp desk --dir shop

Exit status: 0 done, 1 refused or wrong, 2 usage, 3 no memory, 4 read or write failed.";

/// What the words ask for.
#[derive(Drop)]
pub enum Request {
    /// Make the day of the bundle on the input, or of a folder's files if one is named, with 1 to
    /// 64 workers.
    Day {
        command: DayCommand,
        workers: usize,
        folder: Option<String>,
    },
    /// Make the page of the day on the input.
    Page(PageWords),
    /// Check the day on the input against the files of the folder that is named. `clap` requires one.
    Check(Option<String>),
    /// Carry the bookings of a folder's files into the next period.
    Carry(CarryWords),
    /// Inspect the files of the folder that is named. `clap` requires one.
    Inspect(Option<String>),
    /// Answer calls at an order desk of the folder that is named, and plan its runs with 1 to 64 workers. `clap` requires
    /// a folder.
    Desk {
        workers: usize,
        folder: Option<String>,
    },
}

/// Why the words ask for nothing to be done.
#[derive(Drop)]
pub enum NoRequest {
    /// They ask for this text.
    Help(String),
    /// They are wrong; this text says how.
    Usage(String),
    /// Out of memory.
    NoMemory,
}

impl From<AllocError> for NoRequest {
    ghost use Rattle.std.specs.Prelude.{◌≡◌};
    ghost use Rattle.mrp_words.specs.declared.command.NoRequest.TheVariants as none;

    ghost from_gives = { λ _ given. given ≡ none.NoMemory };

    fn from(_refused: AllocError) -> NoRequest {
        NoRequest::NoMemory
    }
}

// What the help says of a command, in a line and in full.
fn help_of<'a>(command: DayCommand) -> (&'a str, &'a str)
    ensures line { result.0.now ≡ help_line command }
    ensures text { result.1.now ≡ help_text command }
{
    match command {
        DayCommand::Plan => (LINE_PLAN, ABOUT_PLAN),
        DayCommand::Live => (LINE_LIVE, ABOUT_LIVE),
    }
}

// A command without options yet: its word, and its help in a line and in full.
pub(crate) fn explained<'a>(
    alloc: Global,
    word: &'a str,
    line: &'a str,
    text: &'a str,
) -> Command<'a>
    ensures app { app_of result ≡ new_app word.entry.now }
    ensures local { HasNoGlobals result }
{
    Command::new(alloc, word)
        .about(line)
        .long_about(text)
        .after_help(EXAMPLE)
}

fn day_command<'a>(alloc: Global, command: DayCommand) -> Result<Command<'a>, AllocError>
    ensures app { IfOk result (λ made. app_of made ≡ day_app command) }
    ensures local { IfOk result HasNoGlobals }
{
    let (line, text) = help_of(command);
    explained(alloc, command.word(), line, text)
        .arg(workers(alloc))?
        .arg(dir(alloc, ABOUT_DIR))
}

// The program, still without its commands.
fn program<'a>(alloc: Global) -> Result<Command<'a>, AllocError>
    ensures { IfOk result (λ made. app_of made ≡ on_top (λ s. record s { has_version = true; no_binary_name = true; subcommand_required = true }) (new_app (codes "mrp"))) }
{
    Command::new(alloc, "mrp")
        .about(ABOUT)
        .version(VERSION)
        .after_help(EXAMPLE)
        .no_binary_name(true)
        .subcommand_required(true)
        .bin_name("mrp")
}

// A command of the program.
#[derive(Clone, Copy)]
enum Subcommand {
    Day(DayCommand),
    Page,
    Check,
    Carry,
    Inspect,
    Desk,
}

// A command, with its options.
fn own_command<'a>(alloc: Global, which: Subcommand) -> Result<Command<'a>, AllocError>
    ensures app { IfOk result (λ made. app_of made ≡ app_with which) }
    ensures local { IfOk result HasNoGlobals }
{
    match which {
        Subcommand::Day(command) => day_command(alloc, command),
        Subcommand::Page => page_command(alloc),
        Subcommand::Check => check_command(alloc),
        Subcommand::Carry => carry_command(alloc),
        Subcommand::Inspect => inspect_command(alloc),
        Subcommand::Desk => desk_command(alloc),
    }
}

// Adds a command. (After a refused allocation nothing more is asked for.)
fn with_command<'a>(
    alloc: Global,
    all: Result<Command<'a>, AllocError>,
    which: Subcommand,
) -> Result<Command<'a>, AllocError>
    ensures { (stood : App) → IfOk all.entry (λ c. app_of c ≡ stood) → IfOk result (λ c. app_of c ≡ with_subcommand stood (app_with which).top) }
{
    all?.subcommand(own_command(alloc, which)?)
}

fn command<'a>(alloc: Global) -> Result<Command<'a>, AllocError>
    ensures { IfOk result (λ command. app_of command ≡ mrp_command) }
{
    let all = program(alloc);
    let all = with_command(alloc, all, Subcommand::Day(DayCommand::Plan));
    let all = with_command(alloc, all, Subcommand::Day(DayCommand::Live));
    let all = with_command(alloc, all, Subcommand::Page);
    let all = with_command(alloc, all, Subcommand::Check);
    let all = with_command(alloc, all, Subcommand::Carry);
    let all = with_command(alloc, all, Subcommand::Inspect);
    with_command(alloc, all, Subcommand::Desk)
}

// Why `clap` gave no matches, with its text.
fn no_request(alloc: Global, error: &Error) -> Result<NoRequest, AllocError>
    ensures { IfOk result (IsOfKind (kind_of error.now)) }
{
    if matches!(error.kind(), ErrorKind::OutOfMemory) {
        return Ok(NoRequest::NoMemory);
    }
    let text = error.to_string(alloc)?;
    if error.use_stderr() {
        Ok(NoRequest::Usage(text))
    } else {
        Ok(NoRequest::Help(text))
    }
}

// The command that was entered.
fn command_of(matches: &ArgMatches<'_>) -> DayCommand
    requires { (command : DayCommand) × Enters (subcommand_rows_of matches.now) command }
    ensures { Enters (subcommand_rows_of matches.now) result }
{
    match matches.subcommand_name() {
        Some(name) => DayCommand::of(name),
        None => unreachable!(),
    }
}

// The number of workers in the words of a command, if there is one.
fn workers_of(matches: &ArgMatches<'_>) -> Option<u64>
    ensures { (asked : ℕ) → IsBy (subcommand_rows_of matches.now) asked → result ≡ Some asked }
{
    match matches.subcommand() {
        Some((_, found)) => found.get_one::<u64>("workers"),
        None => None,
    }
}

// A number of workers if it is in range, otherwise 1.
fn taken(workers: u64) -> usize
    ensures within { IsInRange 1 MOST_WORKERS result }
    ensures same { IsInRange 1 MOST_WORKERS workers → result ≡ workers }
{
    if workers < 1 || MOST_WORKERS < workers {
        1
    } else {
        workers as usize
    }
}

// The number of workers of a command; 1 if its words have none.
fn workers_taken(matches: &ArgMatches<'_>) -> usize
    ensures within { IsInRange 1 MOST_WORKERS result }
    ensures asked { (asked : ℕ) → IsBy (subcommand_rows_of matches.now) asked → result ≡ asked }
{
    match workers_of(matches) {
        Some(workers) => taken(workers),
        None => 1,
    }
}

// The text of an option in the matches of a subcommand.
pub(crate) fn text_in(
    alloc: Global,
    found: &ArgMatches<'_>,
    word: &str,
) -> Result<Option<String>, AllocError>
    ensures { IfOk result (λ text. option_map string_bytes text ≡ first_value (found_of found.now) word.now) }
{
    match found.get_str(word) {
        Some(text) => Ok(Some(String::from_str(alloc, text)?)),
        None => Ok(None),
    }
}

// The folder that the words name, if any.
fn folder_named(alloc: Global, matches: &ArgMatches<'_>) -> Result<Option<String>, AllocError>
    ensures { IfOk result (λ folder. option_map string_bytes folder ≡ dir_among (subcommand_rows_of matches.now)) }
{
    match matches.subcommand() {
        Some((_, found)) => text_in(alloc, found, "dir"),
        None => Ok(None),
    }
}

fn day_request(alloc: Global, matches: &ArgMatches<'_>) -> Result<Request, NoRequest>
    requires { (command : DayCommand) × Enters (subcommand_rows_of matches.now) command }
    ensures workers { IfOk result HasWorkers }
    ensures asked { IfOk result (IsAsAsked (subcommand_rows_of matches.now)) }
    ensures folder { IfOk result (HasFolder (subcommand_rows_of matches.now)) }
    ensures memory { IfErr result (λ none. none ≡ NoRequest.NoMemory) }
{
    let folder = folder_named(alloc, matches)?;
    let command = command_of(matches);
    let workers = workers_taken(matches);
    Ok(Request::Day {
        command,
        workers,
        folder,
    })
}

fn check_or_day(alloc: Global, matches: &ArgMatches<'_>) -> Result<Request, NoRequest>
    requires { EntersCheckOrDay (subcommand_rows_of matches.now) }
    ensures workers { IfOk result HasWorkers }
    ensures asked { IfOk result (IsAsAsked (subcommand_rows_of matches.now)) }
    ensures folder { IfOk result (HasFolder (subcommand_rows_of matches.now)) }
    ensures memory { IfErr result (λ none. none ≡ NoRequest.NoMemory) }
{
    match matches.subcommand_matches("check") {
        Some(found) => Ok(Request::Check(text_in(alloc, found, "dir")?)),
        None => day_request(alloc, matches),
    }
}

// The request of an order desk, or of a day or its check.
fn uninspected_request(alloc: Global, matches: &ArgMatches<'_>) -> Result<Request, NoRequest>
    requires { EntersUninspected (subcommand_rows_of matches.now) }
    ensures workers { IfOk result HasWorkers }
    ensures asked { IfOk result (IsAsAsked (subcommand_rows_of matches.now)) }
    ensures folder { IfOk result (HasFolder (subcommand_rows_of matches.now)) }
    ensures memory { IfErr result (λ none. none ≡ NoRequest.NoMemory) }
{
    match matches.subcommand_matches("desk") {
        Some(found) => {
            let folder = text_in(alloc, found, "dir")?;
            let workers = workers_taken(matches);
            Ok(Request::Desk { workers, folder })
        }
        None => check_or_day(alloc, matches),
    }
}

fn uncarried_request(alloc: Global, matches: &ArgMatches<'_>) -> Result<Request, NoRequest>
    requires { EntersUncarried (subcommand_rows_of matches.now) }
    ensures workers { IfOk result HasWorkers }
    ensures asked { IfOk result (IsAsAsked (subcommand_rows_of matches.now)) }
    ensures folder { IfOk result (HasFolder (subcommand_rows_of matches.now)) }
    ensures memory { IfErr result (λ none. none ≡ NoRequest.NoMemory) }
{
    match matches.subcommand_matches("inspect") {
        Some(found) => Ok(Request::Inspect(text_in(alloc, found, "dir")?)),
        None => uninspected_request(alloc, matches),
    }
}

fn unpaged_request(alloc: Global, matches: &ArgMatches<'_>) -> Result<Request, NoRequest>
    requires { EntersUnpaged (subcommand_rows_of matches.now) }
    ensures workers { IfOk result HasWorkers }
    ensures asked { IfOk result (IsAsAsked (subcommand_rows_of matches.now)) }
    ensures folder { IfOk result (HasFolder (subcommand_rows_of matches.now)) }
    ensures memory { IfErr result (λ none. none ≡ NoRequest.NoMemory) }
{
    match matches.subcommand_matches("carry") {
        Some(found) => Ok(Request::Carry(carry_words(alloc, found)?)),
        None => uncarried_request(alloc, matches),
    }
}

fn request_of(alloc: Global, matches: &ArgMatches<'_>) -> Result<Request, NoRequest>
    requires { IsEntered (subcommand_rows_of matches.now) }
    ensures workers { IfOk result HasWorkers }
    ensures asked { IfOk result (IsAsAsked (subcommand_rows_of matches.now)) }
    ensures folder { IfOk result (HasFolder (subcommand_rows_of matches.now)) }
    ensures memory { IfErr result (λ none. none ≡ NoRequest.NoMemory) }
{
    match matches.subcommand_matches("page") {
        Some(found) => Ok(Request::Page(page_words(alloc, found)?)),
        None => unpaged_request(alloc, matches),
    }
}

/// What the words after the program's name ask for. `clap` decides it, and it is called nowhere
/// else.
pub fn read_words<S: AsStr>(alloc: Global, words: &[S]) -> Result<Request, NoRequest>
    ensures asks { Asks (map S.text words.now) result }
    ensures workers { IfOk result HasWorkers }
{
    match command(alloc)?.try_get_matches_from(words) {
        Ok(matches) => request_of(alloc, &matches),
        Err(error) => Err(no_request(alloc, &error)?),
    }
}
