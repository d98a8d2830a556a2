//! A live day: the desks of its script make their calls concurrently.

ghost use Rattle.std.specs.Prelude.{◌≤◌, Some, ⊤, vec_len};
ghost use Rattle.std.specs.Int.{IsInRange};
ghost use Rattle.mrp_rows.specs.declared.streams.TheConstants.{GREATEST_BUNDLE};
ghost use Rattle.mrp_engine.specs.day.RightDay.{AnswersDesks};
ghost use Rattle.mrp_engine.specs.day.Run.{MakesDay, WritesDay};

mod desk_calls;
mod desks;
mod merging;
mod ready;
mod serving;
mod threads;

use crate::day::{DayFault, MOST_WORKERS, write_day};
pub use desks::answer_by_desks;
use mrp_explode::OpenGate;
use mrp_rows::{Told, read_bundle};
use mrp_script::open_shop;
use std::alloc::Global;
use std::io::{Read, Write};
use std::sync::Wait;
use std::thread::Threads;

/// Has the desks of a bundle's script make their calls and plan their runs concurrently, and writes the history
/// and the report of each run. Nothing is written before every run is planned. The caller guarantees that the
/// bundle has at most 67,108,864 bytes; they are dropped once its shop is open.
///
/// There are as many desks as the script's greatest desk number. Each has a thread, if one can be started,
/// and makes the calls of its records in order; the order between desks is not specified. A desk plans each of
/// its runs before its next record, while the other desks go on: its first by `workers` workers (1 to 64, as the
/// caller guarantees), later ones by net change from the one before. A script without a run is taken with one
/// more record, a run of desk 1 after all others. What is written is a right day (`laws::right_days`). Once all
/// desks have ended, as many workers make the rows of each report.
///
/// Errors: those of [`run_bundle`](crate::run_bundle), for a history that answers the script desk by desk.
pub fn live_bundle<W: Write>(
    rt: &(impl Alloc + Threads + Wait + Sync),
    alloc: Global,
    bundle: Vec<u8>,
    writer: &mut Told<W>,
    workers: usize,
) -> Result<(), DayFault>
    requires bundle { vec_len bundle ≤ GREATEST_BUNDLE }
    requires workers { IsInRange 1 MOST_WORKERS workers }
    ensures { WritesDay AnswersDesks W.contents (Some bundle.items) ⊤ ⊥ writer.old writer.new result }
{
    let shop = open_shop(rt, alloc, &bundle)?;
    drop(bundle);
    let day = answer_by_desks(rt, alloc, shop, workers, &OpenGate, &OpenGate)?;
    write_day(rt, alloc, day, writer, workers)
}

/// Reads a bundle to its end, and makes a live day of it like [`live_bundle`].
///
/// Errors: those of [`run_day`](crate::run_day), for a history that answers the script desk by
/// desk.
pub fn live_day<R: Read, W: Write>(
    rt: &(impl Alloc + Threads + Wait + Sync),
    alloc: Global,
    reader: &mut Told<R>,
    writer: &mut Told<W>,
    workers: usize,
) -> Result<(), DayFault>
    requires workers { IsInRange 1 MOST_WORKERS workers }
    ensures { MakesDay AnswersDesks R.remaining W.contents reader.old reader.new writer.old writer.new result }
{
    let bundle = read_bundle(alloc, reader)?;
    live_bundle(rt, alloc, bundle, writer, workers)
}
