//! The file of a run, from its plan or its refusal.

ghost use Rattle.std.specs.Prelude.{◌≡◌, ◌++◌, IfErr, IfOk, OnErr, OnOk};
ghost use Rattle.std.specs.Int.{IsInRange};
ghost use Rattle.mrp_folder.specs.Kept.{Adds, Fails, MayAdd};
ghost use Rattle.mrp_engine.specs.day.Day.{IsPlannable};
ghost use Rattle.mrp_runs.specs.File.{Comes, refusal_text};
ghost use Rattle.mrp_runs.specs.Kept.{AddsBehind, MayAddBehind};

use crate::refusal::Refusal;
use mrp_engine::MOST_WORKERS;
use mrp_folder::{Folder, KeepFault, begin_file, finish_file};
use mrp_item::Plan;
use mrp_report::{ReportFault, write_report};
use mrp_rows::WriteFault;
use std::alloc::Global;
use std::thread::Threads;

// Makes the file of a run that has no report.
pub(crate) fn keep_refusal<D: Folder>(
    folder: &mut D,
    head: &[u8],
    refusal: &Refusal,
    name: &str,
) -> Result<(), KeepFault<D::Part>>
    ensures added { OnOk result (Adds name.now (head.now ++ refusal_text refusal.now) (D.named folder.old) (D.named folder.new)) }
    ensures sound { OnOk result (D.failures folder.new ≡ D.failures folder.old) }
    ensures either { OnErr result (MayAdd name.now (head.now ++ refusal_text refusal.now) (D.named folder.old) (D.named folder.new)) }
    ensures failed { IfErr result (Fails (D.failures folder.old) (D.failures folder.new)) }
{
    let mut part = begin_file(folder, head)?;
    match refusal.write(&mut part) {
        Ok(()) => Ok(finish_file(folder, part, name)?),
        Err(WriteFault) => Err(KeepFault::Part(part)),
    }
}

// Makes the file of a run that was planned; the refusal that it has in place of a report, if there was no memory for it.
pub(crate) fn keep_report<D: Folder>(
    rt: &(impl Alloc + Threads + Sync),
    alloc: Global,
    folder: &mut D,
    head: &[u8],
    plan: &Plan,
    workers: usize,
    name: &str,
) -> Result<Option<Refusal>, KeepFault<D::Part>>
    requires workers { IsInRange 1 MOST_WORKERS workers }
    requires plannable { IsPlannable plan.now.inputs }
    ensures added { IfOk result (λ outcome. AddsBehind head.now (Comes plan.now.inputs outcome) name.now (D.named folder.old) (D.named folder.new)) }
    ensures sound { OnOk result (D.failures folder.new ≡ D.failures folder.old) }
    ensures either { OnErr result (MayAddBehind head.now (Comes plan.now.inputs) name.now (D.named folder.old) (D.named folder.new)) }
    ensures failed { IfErr result (Fails (D.failures folder.old) (D.failures folder.new)) }
{
    let mut part = begin_file(folder, head)?;
    match write_report(rt, alloc, plan, &mut part, workers) {
        Ok(()) => {
            finish_file(folder, part, name)?;
            Ok(None)
        }
        Err(ReportFault::Write) => Err(KeepFault::Part(part)),
        Err(ReportFault::NoMemory) => {
            keep_refusal(folder, head, &Refusal::NoMemory, name)?;
            Ok(Some(Refusal::NoMemory))
        }
    }
}
