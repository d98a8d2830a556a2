//! The words that ask for tables to be inspected.

ghost use Rattle.std.specs.Prelude.{◌≡◌, IfOk};
ghost use Rattle.clap.specs.Simple.{app_of};
ghost use Rattle.mrp_words.specs.Words.{HasNoGlobals, inspect_app};

use crate::command::explained;
use crate::options::required_dir;
use clap::Command;
use std::alloc::{AllocError, Global};

const LINE_INSPECT: &str = "Tells all faults of the tables that a folder has as files, or warnings";

const ABOUT_INSPECT: &str =
    "Reads the tables that a folder has as files, and writes a line for each of their faults to standard output:

  items.csv:5: lot: 'LFL' is not a lot rule; expected lfl, fixed or period (refused: 10 word items 4)
  bills.csv:9: component: 'WHEL' is not in items.csv; expected an item
  2 faults (warnings are told when there is none)

that is file, line, column, what is wrong, and what is expected; 0 is the whole file. Behind the first stands
what `mrp plan` says of it. Where there is no fault, warnings are told of what is accepted but odd, as scrap
of less than 1 %, and last how many there are. Nothing is planned.

Exit status 1 means that there are faults.";

const ABOUT_FOLDER: &str = "The folder whose files calendar.csv, items.csv and so on are inspected";

pub(crate) fn inspect_command<'a>(alloc: Global) -> Result<Command<'a>, AllocError>
    ensures app { IfOk result (λ made. app_of made ≡ inspect_app) }
    ensures local { IfOk result HasNoGlobals }
{
    explained(alloc, "inspect", LINE_INSPECT, ABOUT_INSPECT).arg(required_dir(alloc, ABOUT_FOLDER))
}
