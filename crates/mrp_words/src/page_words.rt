//! The words that ask for the page of a day.

ghost use Rattle.std.specs.Prelude.{◌≡◌, IfOk, false};
ghost use Rattle.clap.specs.Matches.{found_of};
ghost use Rattle.clap.specs.Simple.{app_of};
ghost use Rattle.clap.specs.Walk.{rows_of, rule_of};
ghost use Rattle.mrp_words.specs.Words.{HasNoGlobals, HasPageWords, items_rule, page_app, run_rule, title_rule};

use crate::command::{explained, text_in};
use crate::options::{dir, valued};
use clap::builder::ValueParser;
use clap::{Arg, ArgMatches, Command};
use std::alloc::{AllocError, Global};

const LINE_PAGE: &str = "Draws a day from standard input as a page that a browser opens";

const ABOUT_PAGE: &str =
    "Reads a day from standard input, as `mrp plan` and `mrp live` write it, and writes one page of HTML that
any browser opens to standard output. Nothing is fetched, and there is no script.

On the page are what is to be done, the most urgent first; the load of each work centre against its
capacity; for each item its time-phased record, its orders and its pegs; and the history of the calls.
Each name and each number of the shop stands in the day. With --dir also the dates of the weeks and each
item's lead time, lot rule, scrap, safety stock and stock on hand are on the page.";

const ABOUT_TABLES: &str =
    "The folder of the tables that the day was planned from, whose dates and items are shown too; tables that cannot be the day's are refused";

const ABOUT_RUN: &str =
    "The number of the run that is shown, counted from 1; the last one where it is left out";

const ABOUT_ITEMS: &str =
    "The names of the items that are shown, as a row of csv: A,B; all of them where it is left out. 200 at most are shown, those with messages first";

const ABOUT_TITLE: &str = "The title of the page; Plan where it is left out";

/// The options of the page command.
#[derive(Drop)]
pub struct PageWords {
    /// The number of the run to show, from 1; the last run if none is named.
    pub run: Option<u64>,
    /// The names of the items to show, as a csv record.
    pub items: Option<String>,
    /// The title of the page.
    pub title: Option<String>,
    /// The folder of the tables that the day was planned from.
    pub folder: Option<String>,
}

fn run<'a>(alloc: Global) -> Arg<'a>
    ensures rule { rule_of result ≡ run_rule }
    ensures local { result.global ≡ false }
{
    valued(alloc, "run", "K", ABOUT_RUN).value_parser(ValueParser::Unsigned(1, u64::MAX))
}

fn items<'a>(alloc: Global) -> Arg<'a>
    ensures rule { rule_of result ≡ items_rule }
    ensures local { result.global ≡ false }
{
    valued(alloc, "items", "A,B", ABOUT_ITEMS)
}

fn title<'a>(alloc: Global) -> Arg<'a>
    ensures rule { rule_of result ≡ title_rule }
    ensures local { result.global ≡ false }
{
    valued(alloc, "title", "TEXT", ABOUT_TITLE)
}

pub(crate) fn page_command<'a>(alloc: Global) -> Result<Command<'a>, AllocError>
    ensures app { IfOk result (λ made. app_of made ≡ page_app) }
    ensures local { IfOk result HasNoGlobals }
{
    explained(alloc, "page", LINE_PAGE, ABOUT_PAGE)
        .arg(run(alloc))?
        .arg(items(alloc))?
        .arg(title(alloc))?
        .arg(dir(alloc, ABOUT_TABLES))
}

/// The options in the matches of the subcommand.
pub(crate) fn page_words(alloc: Global, found: &ArgMatches<'_>) -> Result<PageWords, AllocError>
    ensures { IfOk result (HasPageWords (rows_of (found_of found.now))) }
{
    let run = found.get_one::<u64>("run");
    let items = text_in(alloc, found, "items")?;
    let title = text_in(alloc, found, "title")?;
    let folder = text_in(alloc, found, "dir")?;
    Ok(PageWords {
        run,
        items,
        title,
        folder,
    })
}
