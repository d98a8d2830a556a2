//! Writing the text of a day.

ghost use Rattle.std.specs.Prelude.{◌≡◌, IfOk, IfSome, flat_map};
ghost use Rattle.std.specs.Int.{IsInRange};
ghost use Rattle.std.specs.Option.{option_copied};
ghost use Rattle.mrp_master.specs.Supply.{supply_of};
ghost use Rattle.mrp_book.specs.Booked.{AreBooked};
ghost use Rattle.mrp_item.specs.Inputs.{inputs_of};
ghost use Rattle.mrp_report.specs.ReportText.{report_text};
ghost use Rattle.mrp_engine.specs.day.Day.{IsPlannable, runs_of};
ghost use Rattle.mrp_engine.specs.day.Planned.{IsPlanned, text_of};
ghost use Rattle.mrp_engine.specs.day.Run.{WritesText};
ghost use Rattle.mrp_engine.specs.day.RunPlans.{IsOfShop};

use crate::day::Day;
use crate::day::fault::DayFault;
use crate::day::net_change::plan_next;
use crate::day::run::MOST_WORKERS;
use mrp_book::{Reply, Snapshot};
use mrp_explode::{OpenGate, RunFault};
use mrp_item::{Plan, ShopRows};
use mrp_qty::NoMemory;
use mrp_report::{write_history, write_report};
use mrp_rows::Told;
use std::alloc::Global;
use std::io::Write;
use std::mem;
use std::sync::{Arc, Wait};
use std::thread::Threads;

// The plan of a run that can be planned, made again from the last run's.
fn plan_again(
    rt: &(impl Threads + Wait + Sync),
    alloc: Global,
    rows: &Arc<ShopRows>,
    last: Option<&Plan>,
    snapshot: &Snapshot,
    workers: usize,
) -> Result<Plan, NoMemory>
    requires booked { AreBooked (supply_of rows.now.value.tables) snapshot.now.standing }
    requires workers { IsInRange 1 MOST_WORKERS workers }
    requires last { IsOfShop rows.now.value.tables (option_copied last) }
    requires plannable { IsPlannable (inputs_of rows.now.value.tables snapshot.now) }
    ensures { IfOk result (λ plan. plan.inputs ≡ inputs_of rows.now.value.tables snapshot.now) }
{
    match plan_next(rt, alloc, rows, last, snapshot, workers, &OpenGate) {
        Ok(plan) => Ok(plan),
        Err(RunFault::NoMemory) => Err(NoMemory),
        Err(RunFault::TooLarge { item: _ }) => unreachable!(),
    }
}

// Writes the report of a run, and returns its plan: the one that is made already, or one that is made from the last
// run's.
fn write_run<W: Write>(
    rt: &(impl Alloc + Threads + Wait + Sync),
    alloc: Global,
    rows: &Arc<ShopRows>,
    made: Option<Plan>,
    last: Option<&Plan>,
    snapshot: &Snapshot,
    writer: &mut Told<W>,
    workers: usize,
) -> Result<Plan, DayFault>
    requires booked { AreBooked (supply_of rows.now.value.tables) snapshot.now.standing }
    requires workers { IsInRange 1 MOST_WORKERS workers }
    requires made { IfSome made (λ plan. plan.inputs ≡ inputs_of rows.now.value.tables snapshot.now) }
    requires last { IsOfShop rows.now.value.tables (option_copied last) }
    requires plannable { IsPlannable (inputs_of rows.now.value.tables snapshot.now) }
    ensures plan { IfOk result (λ plan. plan.inputs ≡ inputs_of rows.now.value.tables snapshot.now) }
    ensures text { WritesText W.contents writer.old writer.new (report_text (inputs_of rows.now.value.tables snapshot.now)) result }
{
    let plan = match made {
        Some(plan) => plan,
        None => plan_again(rt, alloc, rows, last, snapshot, workers)?,
    };
    write_report(rt, alloc, &plan, writer, workers)?;
    Ok(plan)
}

// Writes the reports of a history's runs in order, from the plan of the first.
fn write_reports<W: Write>(
    rt: &(impl Alloc + Threads + Wait + Sync),
    alloc: Global,
    day: Day,
    writer: &mut Told<W>,
    workers: usize,
) -> Result<(), DayFault>
    requires planned { IsPlanned day }
    requires workers { IsInRange 1 MOST_WORKERS workers }
    ensures { WritesText W.contents writer.old writer.new (flat_map report_text (runs_of day.rows.value.tables day.history.entries)) result }
{
    let Day {
        rows,
        history,
        first,
    } = day;
    let mut made = first;
    let mut last = None;
    for entry in history.entries() {
        if let Reply::Taken(snapshot) = &entry.reply {
            let plan = write_run(
                rt,
                alloc,
                &rows,
                made.take(),
                last.as_ref(),
                snapshot,
                writer,
                workers,
            )?;
            last = Some(plan);
        }
    }
    // The program ends, and gives all memory back at once. A plan's many rows one by one would keep the user waiting.
    mem::forget(last);
    Ok(())
}

/// Writes a planned day, and consumes it: the history, and then the report of each run, whose plan is made again, but
/// the first one's, by net change from the run before. `workers` threads (1 to 64, as the caller guarantees) make the
/// rows of a report. Once all is written, the memory of the last plan is kept until the program ends.
///
/// Errors: `Write` if a write failed in this call, or more than 1,000,000 were interrupted in the history or
/// in one report; otherwise `NoMemory` if an allocation fails. A prefix of the text has been written then.
pub fn write_day<W: Write>(
    rt: &(impl Alloc + Threads + Wait + Sync),
    alloc: Global,
    day: Day,
    writer: &mut Told<W>,
    workers: usize,
) -> Result<(), DayFault>
    requires planned { IsPlanned day }
    requires workers { IsInRange 1 MOST_WORKERS workers }
    ensures { WritesText W.contents writer.old writer.new (text_of day) result }
{
    write_history(alloc, &day.history, day.rows.shop(), writer)?;
    write_reports(rt, alloc, day, writer, workers)
}
