//! Doing what the words of the command line ask for, with an input, an output and an error stream.

ghost use Rattle.std.specs.Prelude.{◌<◌, map};
ghost use Rattle.std.specs.Result.{ForOk};
ghost use Rattle.mrp_main.specs.Ends.{Ends, HelpEnds, IsDone, IsDoneAs, RequestEnds};
ghost use Rattle.mrp_words.specs.Folder.{nothing_known};
ghost use Rattle.mrp_words.specs.Words.{HasWorkers};

use crate::check::check_day;
use crate::day::{make_day, make_day_of_folder};
use mrp_commands::{Ending, carry_asked, inspect_asked, make_page};
use mrp_open::{DeskFolder, open_desk};
use mrp_rows::{Told, Tries, write_text};
use mrp_words::{FileStore, NoRequest, Request, read_words};
use std::alloc::Global;
use std::convert::AsStr;
use std::fs::File;
use std::io::{Read, Write};
use std::rt::Files;
use std::sync::Wait;
use std::thread::Threads;

// Writes the help that was asked for.
fn write_help<W: Write>(text: &str, output: &mut Told<W>) -> Ending
    ensures { HelpEnds W.contents output.old output.new text.now result }
{
    match write_text(output, text.as_bytes(), &mut Tries::new()) {
        Ok(()) => Ending::Done,
        Err(_) => Ending::Write,
    }
}

// Answers a request. An order desk on a folder is opened in place of that.
fn answer<F: FileStore, R: Read, W: Write>(
    rt: &(impl Alloc + Threads + Wait + Sync),
    alloc: Global,
    files: &F,
    request: Request,
    input: &mut Told<R>,
    output: &mut Told<W>,
) -> Ending
    requires workers { HasWorkers request }
    ensures { RequestEnds (F.known files.now) R.remaining W.contents input.old input.new output.old output.new request result }
{
    match request {
        Request::Day {
            command,
            workers,
            folder,
        } => match folder {
            None => make_day(rt, alloc, command, workers, input, output),
            Some(folder) => {
                make_day_of_folder(rt, alloc, files, command, workers, &folder, output)
            }
        },
        Request::Page(words) => make_page(rt, alloc, files, &words, input, output),
        Request::Check(folder) => match folder {
            Some(folder) => check_day(rt, alloc, files, &folder, input, output),
            None => Ending::Usage(String::new(alloc)),
        },
        Request::Carry(words) => carry_asked(rt, alloc, files, &words, output),
        Request::Inspect(folder) => inspect_asked(rt, alloc, files, &folder, output),
        Request::Desk {
            workers: _,
            folder: _,
        } => Ending::Usage(String::new(alloc)),
    }
}

// Does what was asked for. It does not get the error stream, so nothing depends on that.
fn carry_out<F: FileStore, R: Read, W: Write>(
    rt: &(impl Alloc + Threads + Wait + Sync),
    alloc: Global,
    files: &F,
    asked: Result<Request, NoRequest>,
    input: &mut Told<R>,
    output: &mut Told<W>,
) -> Ending
    requires { ForOk asked HasWorkers }
    ensures { Ends (F.known files.now) R.remaining W.contents input.old input.new output.old output.new asked result }
{
    match asked {
        Ok(request) => answer(rt, alloc, files, request, input, output),
        Err(NoRequest::Help(text)) => write_help(&text, output),
        Err(NoRequest::Usage(text)) => Ending::Usage(text),
        Err(NoRequest::NoMemory) => Ending::NoMemory,
    }
}

// Does what was asked for, and tells how it ended. An order desk tells more than that, so it gets the error stream.
fn do_asked<
    R: Alloc<A = Global> + Eprint + Files<File = File> + Threads + Wait + Sync,
    I: Read,
    W: Write,
    E: Write,
>(
    rt: &R,
    alloc: Global,
    asked: Result<Request, NoRequest>,
    input: &mut Told<I>,
    output: &mut Told<W>,
    errors: &mut Told<E>,
) -> Ending
where
    R::Dir: Send,
    requires { ForOk asked HasWorkers }
    ensures { IsDoneAs nothing_known I.remaining W.contents E.contents
        input.old input.new output.old output.new errors.old errors.new asked result }
{
    match asked {
        Ok(
            Request::Desk {
                workers,
                folder: Some(folder),
            },
        ) => {
            let mut place = DeskFolder::new(rt, alloc, &folder);
            open_desk(rt, rt, alloc, &mut place, workers, input, output, errors)
        }
        asked => {
            let end = carry_out(rt, alloc, rt, asked, input, output);
            let _ = end.tell(errors);
            end
        }
    }
}

/// Does what the words after the program's name ask for, such as `plan --workers 2`, `live`, `page`, `check --dir D`,
/// `carry --dir D --start DATE`, `inspect --dir D` or `desk --dir D`, with an input, an output and an error stream, and
/// returns the exit status. `plan` and `live` with `--dir D` take the files of the folder D instead of the input.
///
/// The status is 0 on success; 1 if the bundle was refused or its plan gets too large, if the text for a page is no day or
/// not one of the tables, if the day that was checked is wrong, if tables that were inspected have faults, or if an order
/// desk has other tables than its journal; 2 for wrong words, including a run that the day does not have and a start that
/// is no Monday of the horizon; 3 when out of memory; and 4 if reading or writing failed, or another order desk is open on
/// the folder. A line on the error stream says why; a failure to write it does not change the status.
///
/// `plan` answers the script in row order; `live` answers it desk by desk, in an order between desks that is
/// not specified. At 0 such a day of what the input had left has been written; at 1, and if reading failed,
/// nothing; at 3, and if writing failed, at most a prefix of such a day. With a folder the same holds for the
/// bundle of its files: for each table one section with the bytes of its file, or none. No contract says
/// which bytes the files have.
///
/// `page` draws the page of the day that the input had left, with `--dir D` with what the tables of the folder D
/// say: at 0 the whole page has been written; if writing failed, a prefix of it; otherwise nothing.
///
/// `check` checks the day that the input had left against the bundle of a folder's files: at 0 the line
/// `right` has been written, and it is a right day; at 1 the line of its first fault, or nothing if the
/// bundle was refused; if writing failed, a prefix of a line; otherwise nothing.
///
/// `carry` carries the bookings of the bundle of a folder's files into the next period: at 0 the script or the
/// list was written, and a line on the error stream says how many bookings were due before the start, if
/// any were; if writing failed, a prefix of it; otherwise nothing.
///
/// `inspect` tells all faults of a folder's files, at 1, or where the tables are accepted warnings, at 0: all lines have
/// been written then; if writing failed, a prefix of them; otherwise nothing.
///
/// `desk` opens the order desk of a folder, as `open_desk` says: the lines of the input are answered, or nothing was read
/// or written. Half a line that was cut off is told on the error stream before how it ended.
///
/// Words that ask for help or the version have it written; wrong words have nothing written. Only order desks, and days,
/// pages and checks that take the input, read it.
pub fn run_words<
    S: AsStr,
    R: Alloc<A = Global> + Eprint + Files<File = File> + Threads + Wait + Sync,
    I: Read,
    W: Write,
    E: Write,
>(
    rt: &R,
    alloc: Global,
    words: &[S],
    input: &mut Told<I>,
    output: &mut Told<W>,
    errors: &mut Told<E>,
) -> u8
where
    R::Dir: Send,
    ensures done { IsDone I.remaining W.contents E.contents (map S.text words.now)
        input.old input.new output.old output.new errors.old errors.new result }
    ensures few { result < 5 }
{
    let end = do_asked(rt, alloc, read_words(alloc, words), input, output, errors);
    end.status().code()
}
