//! Checking the reports of a given day against those of its runs.

ghost use Rattle.std.specs.Prelude.{◌≡◌};
ghost use Rattle.mrp_master.specs.Supply.{supply_of};
ghost use Rattle.mrp_book.specs.Booked.{AreBooked};
ghost use Rattle.mrp_item.specs.Inputs.{inputs_of};
ghost use Rattle.mrp_report.specs.ReportText.{report_text};
ghost use Rattle.mrp_engine.specs.day.Day.{runs_of};
ghost use Rattle.mrp_engine.specs.day.RightDay.{run_report};
ghost use Rattle.mrp_audit.specs.Parts.{ComparesFront, ComparesReports, IsEndJudged, IsPlannedFront, IsRunJudged};

use crate::comparing::{Comparing, front_by};
use crate::fault::AuditFault;
use mrp_book::{History, Reply, Snapshot};
use mrp_engine::plan_run;
use mrp_explode::RunFault;
use mrp_item::{Plan, ShopRows};
use mrp_qty::NoMemory;
use mrp_report::write_report;
use mrp_rows::Told;
use std::alloc::Global;
use std::sync::Arc;
use std::thread::Threads;

// How many threads make the rows of a report that is compared.
const WORKERS: usize = 4;

// How many bytes the report of a plan has, if the text begins with it; otherwise `None`. The report
// is compared while it is made, and none of it is held in memory.
fn report_front(
    rt: &(impl Alloc + Threads + Sync),
    alloc: Global,
    plan: &Plan,
    text: &[u8],
) -> Result<Option<usize>, NoMemory>
    ensures { ComparesFront (report_text plan.now.inputs) text.now result }
{
    let mut writer = Told::new(Comparing::new(text));
    let written = write_report(rt, alloc, plan, &mut writer, WORKERS);
    front_by(writer.into_inner().agreement(), written)
}

// How many bytes the report of a run has, from its plan, if the text begins with it. A run in which an item
// gets too large has no report.
fn planned_front(
    rt: &(impl Alloc + Threads + Sync),
    alloc: Global,
    planned: Result<Plan, RunFault>,
    text: &[u8],
) -> Result<Option<usize>, NoMemory>
    ensures { IsPlannedFront planned text.now result }
{
    match planned {
        Ok(plan) => report_front(rt, alloc, &plan, text),
        Err(RunFault::TooLarge { .. }) => Ok(Some(0)),
        Err(RunFault::NoMemory) => Err(NoMemory),
    }
}

// How many bytes the report of a run of a shop has, if the text begins with it.
fn run_front(
    rt: &(impl Alloc + Threads + Sync),
    alloc: Global,
    rows: &Arc<ShopRows>,
    snapshot: &Snapshot,
    text: &[u8],
) -> Result<Option<usize>, NoMemory>
    requires { AreBooked (supply_of rows.now.value.tables) snapshot.now.standing }
    ensures { ComparesFront (run_report (inputs_of rows.now.value.tables snapshot.now)) text.now result }
{
    let planned = plan_run(rt, alloc, rows, snapshot);
    planned_front(rt, alloc, planned, text)
}

// How many bytes the report of the run with this number has, if it comes next.
fn judge_run(run: u64, front: Result<Option<usize>, NoMemory>) -> Result<usize, AuditFault>
    ensures { IsRunJudged run front result }
{
    match front {
        Ok(Some(len)) => Ok(len),
        Ok(None) => Err(AuditFault::ReportDiffers { run }),
        Err(NoMemory) => Err(AuditFault::NoMemory),
    }
}

// Checks that nothing is left of a text after the last report. The fault has the number of one run more.
fn judge_end(run: u64, left: &[u8]) -> Result<(), AuditFault>
    ensures { IsEndJudged run left.now result }
{
    if left.is_empty() {
        Ok(())
    } else {
        Err(AuditFault::ReportDiffers { run })
    }
}

/// Compares a text with the reports of a history's runs, in order. The caller guarantees that the
/// history has the supply of the shop.
///
/// Errors: `ReportDiffers` with the first run whose report does not come next, or with one more than there
/// are runs if bytes are left over; `NoMemory` if an allocation fails.
pub(crate) fn check_reports(
    rt: &(impl Alloc + Threads + Sync),
    alloc: Global,
    rows: &Arc<ShopRows>,
    history: &History,
    text: &[u8],
) -> Result<(), AuditFault>
    requires { history.now.supply ≡ supply_of rows.now.value.tables }
    ensures { ComparesReports (runs_of rows.now.value.tables history.now.entries) text.now result }
{
    let mut left = text;
    let mut run = 1;
    for entry in history.entries() {
        if let Reply::Taken(snapshot) = &entry.reply {
            let front = run_front(rt, alloc, rows, snapshot, left);
            let len = judge_run(run, front)?;
            let (_, rest) = left.split_at(len);
            left = rest;
            run += 1;
        }
    }
    judge_end(run, left)
}
