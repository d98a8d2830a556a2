//! The options that several commands have.

ghost use Rattle.std.specs.Prelude.{◌≡◌, Some, false};
ghost use Rattle.clap.specs.Walk.{rule_of};
ghost use Rattle.clap.specs.Simple.{new_rule};
ghost use Rattle.clap.specs.declared.builder.action.ArgAction.TheVariants.{Set};
ghost use Rattle.mrp_words.specs.Words.{dir_rule, required_dir_rule, workers_rule};

use crate::command::MOST_WORKERS;
use clap::builder::ValueParser;
use clap::{Arg, ArgAction};
use std::alloc::Global;

const ABOUT_WORKERS: &str =
    "How many threads plan the items of a run and make the rows of a report, from 1 to 64; those that load work centres are as many as the machine has processors for, and each desk of a live day has one, whatever N is";

// An option with a value, which the help names.
pub(crate) fn valued<'a>(alloc: Global, word: &'a str, value: &'a str, about: &'a str) -> Arg<'a>
    ensures rule { rule_of result ≡ record (new_rule word.entry.now) { long = Some word.entry.now; action = Some Set; value_names = 1 } }
    ensures local { result.global ≡ false }
    ensures help { result.help ≡ Some about.entry }
{
    Arg::new(alloc, word)
        .long(word)
        .value_name(value)
        .action(ArgAction::Set)
        .help(about)
}

pub(crate) fn workers<'a>(alloc: Global) -> Arg<'a>
    ensures rule { rule_of result ≡ workers_rule }
    ensures local { result.global ≡ false }
{
    valued(alloc, "workers", "N", ABOUT_WORKERS)
        .default_value("1")
        .value_parser(ValueParser::Unsigned(1, MOST_WORKERS))
}

// The folder of a command's tables, which it may do without.
pub(crate) fn dir<'a>(alloc: Global, about: &'a str) -> Arg<'a>
    ensures rule { rule_of result ≡ dir_rule }
    ensures local { result.global ≡ false }
    ensures help { result.help ≡ Some about.entry }
{
    valued(alloc, "dir", "D", about)
}

// The folder of a command's tables, which it needs.
pub(crate) fn required_dir<'a>(alloc: Global, about: &'a str) -> Arg<'a>
    ensures rule { rule_of result ≡ required_dir_rule }
    ensures local { result.global ≡ false }
    ensures help { result.help ≡ Some about.entry }
{
    dir(alloc, about).required(true)
}
