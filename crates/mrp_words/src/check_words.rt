//! The words that ask for a day to be checked.

ghost use Rattle.std.specs.Prelude.{◌≡◌, IfOk};
ghost use Rattle.clap.specs.Simple.{app_of};
ghost use Rattle.mrp_words.specs.Words.{HasNoGlobals, check_app};

use crate::command::explained;
use crate::options::required_dir;
use clap::Command;
use std::alloc::{AllocError, Global};

const LINE_CHECK: &str =
    "Says whether a day from standard input is a right day of the files of a folder";

const ABOUT_CHECK: &str =
    "Reads a day from standard input, as `mrp plan` and `mrp live` write it, and says on standard output whether it
is a right day of the tables that a folder has as files: `right`, or the first of its faults.

  wrong: shape      it begins with no history that is spelled as a day's
  wrong: history N  the reply of entry N is the first that the entries before it do not decide
  wrong: desk N     desk N is the least whose entries are not its records of the script in order
  wrong: report N   the report of run N, counted from 1, is the first that does not stand next; or N is one
                    more than there are runs, and something is left over

In a right day each reply is the one that the entries before it decide, each desk's calls stand in the order
of its records, and the report of each run follows, but of one whose plan gets too large.";

const ABOUT_FOLDER: &str =
    "The folder whose files calendar.csv, items.csv and so on the day is checked beside";

pub(crate) fn check_command<'a>(alloc: Global) -> Result<Command<'a>, AllocError>
    ensures app { IfOk result (λ made. app_of made ≡ check_app) }
    ensures local { IfOk result HasNoGlobals }
{
    explained(alloc, "check", LINE_CHECK, ABOUT_CHECK).arg(required_dir(alloc, ABOUT_FOLDER))
}
