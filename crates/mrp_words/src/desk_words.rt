//! The words that ask for an order desk that stays open.

ghost use Rattle.std.specs.Prelude.{◌≡◌, IfOk};
ghost use Rattle.clap.specs.Simple.{app_of};
ghost use Rattle.mrp_words.specs.Words.{HasNoGlobals, desk_app};

use crate::command::explained;
use crate::options::{required_dir, workers};
use clap::Command;
use std::alloc::{AllocError, Global};

const LINE_DESK: &str =
    "Answers calls from standard input, one a line, and keeps each in the folder's script.csv";

const ABOUT_DESK: &str =
    "Reads the tables that a folder has as files, takes up the calls in its script.csv, and then reads calls from
standard input until that ends: one a line, as in script.csv, such as `1,book,BIKE,2025-01-20,12,`. Each line is
answered by one line of standard output:

  1,1,book,BIKE,3,12,,booked,1    the row of the history, as `mrp plan` writes it
  refused: 8 number script 2      what is wrong with the line, and the record that it would have been
  no memory                       the call was not made
  full                            script.csv takes no more records

Before a row is written, its call stands in script.csv on the disk. So no row that was seen is lost, whatever
crashes, and `mrp plan` gives the same history. Half a line that a crash left is cut off at the next start, which
says so.

A run is answered at once, and planned beside the calls, one run after the other. Its row and its report are in
the folder as run-7.day, for the run that was answered `front,7`, as soon as all of it is there.

With the first call a sum of the other tables is written to desk.tables; a start on other tables is refused.
One desk at a time can be open on a folder; `mrp plan`, `mrp live` and `mrp check` may be used beside it.";

const ABOUT_FOLDER: &str =
    "The folder whose files calendar.csv, items.csv and so on have the shop, and script.csv its calls";

pub(crate) fn desk_command<'a>(alloc: Global) -> Result<Command<'a>, AllocError>
    ensures app { IfOk result (λ made. app_of made ≡ desk_app) }
    ensures local { IfOk result HasNoGlobals }
{
    explained(alloc, "desk", LINE_DESK, ABOUT_DESK)
        .arg(workers(alloc))?
        .arg(required_dir(alloc, ABOUT_FOLDER))
}
