//! The words that ask for bookings to be carried.

ghost use Rattle.std.specs.Prelude.{◌≡◌, IfOk, false};
ghost use Rattle.clap.specs.Matches.{found_of};
ghost use Rattle.clap.specs.Simple.{app_of};
ghost use Rattle.clap.specs.Walk.{rows_of, rule_of};
ghost use Rattle.mrp_words.specs.Words.{HasCarryWords, HasNoGlobals, carry_app, numbers_rule, start_rule};

use crate::command::{explained, text_in};
use crate::options::{required_dir, valued};
use clap::{Arg, ArgAction, ArgMatches, Command};
use std::alloc::{AllocError, Global};

const LINE_CARRY: &str =
    "Writes the beginning of the next period's script, from the bookings that stand in a folder's";

const ABOUT_CARRY: &str =
    "Reads the tables that a folder has as files, answers the calls of their script in order, and writes the bookings
that stand at its end, and are due in the week of DATE or later, as the beginning of the next script: a
record `book` for each, in order of their numbers, for the desk that booked it, with its item, the Monday of
its week, and its quantity. In a plan whose script begins with these records their numbers are 1, 2, 3 and so
on. Nothing is planned.

With --numbers a list is written in its place: each booking that stands, with its number in `old`, and in
`new` its number in such a plan, if it is carried. How many are not is said on standard error.";

const ABOUT_FOLDER: &str =
    "The folder whose files calendar.csv, items.csv and so on have the bookings";

const ABOUT_START: &str =
    "The first day of the next period, a Monday of the folder's calendar, as 2025-01-20";

const ABOUT_NUMBERS: &str = "Writes old and new numbers in place of a script";

/// The options of the carry command.
#[derive(Drop)]
pub struct CarryWords {
    /// The folder whose bookings are carried. `clap` requires one.
    pub folder: Option<String>,
    /// The first day of the next period. `clap` requires one.
    pub start: Option<String>,
    /// Whether a list of numbers is asked for in place of a script.
    pub numbers: bool,
}

fn start<'a>(alloc: Global) -> Arg<'a>
    ensures rule { rule_of result ≡ start_rule }
    ensures local { result.global ≡ false }
{
    valued(alloc, "start", "DATE", ABOUT_START).required(true)
}

fn numbers<'a>(alloc: Global) -> Arg<'a>
    ensures rule { rule_of result ≡ numbers_rule }
    ensures local { result.global ≡ false }
{
    Arg::new(alloc, "numbers")
        .long("numbers")
        .action(ArgAction::SetTrue)
        .help(ABOUT_NUMBERS)
}

pub(crate) fn carry_command<'a>(alloc: Global) -> Result<Command<'a>, AllocError>
    ensures app { IfOk result (λ made. app_of made ≡ carry_app) }
    ensures local { IfOk result HasNoGlobals }
{
    explained(alloc, "carry", LINE_CARRY, ABOUT_CARRY)
        .arg(required_dir(alloc, ABOUT_FOLDER))?
        .arg(start(alloc))?
        .arg(numbers(alloc))
}

/// The options in the matches of the subcommand.
pub(crate) fn carry_words(alloc: Global, found: &ArgMatches<'_>) -> Result<CarryWords, AllocError>
    ensures { IfOk result (HasCarryWords (rows_of (found_of found.now))) }
{
    let numbers = found.get_flag("numbers");
    let folder = text_in(alloc, found, "dir")?;
    let start = text_in(alloc, found, "start")?;
    Ok(CarryWords {
        folder,
        start,
        numbers,
    })
}
