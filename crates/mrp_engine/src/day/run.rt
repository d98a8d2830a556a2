//! Making a day: from a bundle, or a reader of one, to the history and the reports on a writer.

ghost use Rattle.std.specs.Prelude.{◌≡◌, ◌≤◌, IfOk, Some, ⊤, vec_len};
ghost use Rattle.std.specs.Int.{IsInRange};
ghost use Rattle.mrp_rows.specs.declared.streams.TheConstants.{GREATEST_BUNDLE};
ghost use Rattle.mrp_master.specs.Supply.{supply_of};
ghost use Rattle.mrp_script.specs.Script.{AnswersScript};
ghost use Rattle.mrp_engine.specs.day.Planned.{PlansDay};
ghost use Rattle.mrp_engine.specs.day.Run.{MakesDay, WritesDay};

use crate::day::fault::DayFault;
use crate::day::writing::write_day;
use crate::day::{Day, plan_history};
use mrp_bill::Shop;
use mrp_book::History;
use mrp_item::ShopRows;
use mrp_qty::NoMemory;
use mrp_rows::{Told, read_bundle};
use mrp_script::{answer_script, open_shop};
use std::alloc::Global;
use std::io::{Read, Write};
use std::sync::{Arc, Wait};
use std::thread;
use std::thread::Threads;

/// The most workers that plan a run and make the rows of its report.
pub const MOST_WORKERS: u64 = mrp_report::MOST_WORKERS;

// Answers a shop's script record by record, and meanwhile groups its rows, in a thread of their own if one
// can be started.
fn answer_with_rows(
    rt: &impl Threads,
    alloc: Global,
    shop: &Arc<Shop>,
) -> Result<(History, Arc<ShopRows>), NoMemory>
    ensures supply { IfOk result (λ r. r.0.supply ≡ supply_of shop.now.value.tables) }
    ensures answers { IfOk result (λ r. AnswersScript shop.now.value.tables r.0.entries) }
    ensures rows { IfOk result (λ r. r.1.value ≡ shop.now.value) }
{
    let group = move || -> Result<Arc<ShopRows>, NoMemory>
        ensures { IfOk result (λ rows. rows.value ≡ shop.entry.now.value) }
    { ShopRows::of(alloc, shop.clone()?) };
    let answer = move || -> Result<History, NoMemory>
        ensures supply { IfOk result (λ h. h.supply ≡ supply_of shop.entry.now.value.tables) }
        ensures answers { IfOk result (λ h. AnswersScript shop.entry.now.value.tables h.entries) }
    { answer_script(alloc, shop) };
    let (rows, history) = thread::join(rt, group, answer);
    let history = history?;
    let rows = rows?;
    Ok((history, rows))
}

// Answers a shop's script record by record, and plans its runs, the first by workers.
fn plan_day(
    rt: &(impl Alloc + Threads + Wait + Sync),
    alloc: Global,
    shop: Shop,
    workers: usize,
) -> Result<Day, DayFault>
    requires workers { IsInRange 1 MOST_WORKERS workers }
    ensures { PlansDay AnswersScript shop.tables result }
{
    let shop = Arc::new(alloc, shop)?;
    let (history, rows) = answer_with_rows(rt, alloc, &shop)?;
    plan_history(rt, alloc, rows, history, workers)
}

/// Answers the script of a bundle, plans its runs, and writes the history and the report of each run. Nothing
/// is written before every run is planned. The caller guarantees that the bundle has at most 67,108,864
/// bytes; they are dropped once its shop is open.
///
/// The tables are read in four threads, and one thread groups the rows of the shop while another answers the
/// script, if they can be started. `workers` threads (1 to 64, as the caller guarantees) plan the
/// items of the first run, and make the rows of each run's report; later runs are planned by net change from the
/// run before. The loads of work centres are summed in parallel if there are enough of them. An interrupted
/// write is tried again.
///
/// Errors: `Refused` with the bundle's first fault, a loop in the bill last; `TooLarge` with the first item
/// in table order whose quantities get too large in the first run with such an item; `Write` if the writer
/// failed in this call or was interrupted more than 1,000,000 times; `NoMemory` if an allocation fails and no
/// write failed; never `Read`.
pub fn run_bundle<W: Write>(
    rt: &(impl Alloc + Threads + Wait + Sync),
    alloc: Global,
    bundle: Vec<u8>,
    writer: &mut Told<W>,
    workers: usize,
) -> Result<(), DayFault>
    requires bundle { vec_len bundle ≤ GREATEST_BUNDLE }
    requires workers { IsInRange 1 MOST_WORKERS workers }
    ensures { WritesDay AnswersScript W.contents (Some bundle.items) ⊤ ⊥ writer.old writer.new result }
{
    let shop = open_shop(rt, alloc, &bundle)?;
    drop(bundle);
    let day = plan_day(rt, alloc, shop, workers)?;
    write_day(rt, alloc, day, writer, workers)
}

/// Reads a bundle to its end, and makes its day like [`run_bundle`]. An interrupted read is tried
/// again.
///
/// Errors: those of `run_bundle`; also `Read` if the reader failed in this call, needed more than
/// 100,000,000 calls or gave more than 67,108,864 bytes; `NoMemory` if an allocation fails and no
/// read or write failed.
pub fn run_day<R: Read, W: Write>(
    rt: &(impl Alloc + Threads + Wait + Sync),
    alloc: Global,
    reader: &mut Told<R>,
    writer: &mut Told<W>,
    workers: usize,
) -> Result<(), DayFault>
    requires workers { IsInRange 1 MOST_WORKERS workers }
    ensures { MakesDay AnswersScript R.remaining W.contents reader.old reader.new writer.old writer.new result }
{
    let bundle = read_bundle(alloc, reader)?;
    run_bundle(rt, alloc, bundle, writer, workers)
}
