//! The files of a shop's runs, made one after the other.

use crate::fault::MakeFault;
use crate::refusal::Refusal;
use crate::report::{keep_refusal, keep_report};
use crate::run::{Run, head_of, run_name};
use mrp_engine::{MOST_WORKERS, RunResult, plan_or_refuse};
use mrp_explode::OpenGate;
use mrp_folder::{Folder, KeepFault};
use mrp_item::{Plan, ShopRows};
use mrp_qty::NoMemory;
use mrp_report::HistoryRows;
use std::alloc::Global;
use std::marker::Model;
use std::sync::{Arc, Wait};
use std::thread::Threads;

/// Makes the files of a shop's runs, one after the other: the first is planned by workers, each later one by net change
/// from the last that has a plan. Contracts see the shop's tables.
#[derive(Drop)]
pub struct RunMaker<'a> {
    rows: &'a Arc<ShopRows>,
    names: HistoryRows<'a>,
    last: Option<Plan>,
    workers: usize,
}

impl<'a> Model for RunMaker<'a> {
    ghost use Rattle.mrp_tables.specs.Tables.{Tables};
    ghost use Rattle.mrp_runs.specs.Maker.{KeepsMaker};

    ghost Value = { Tables };

    ghost view = { λ maker. maker.rows.now.value.tables };

    ghost invariant = { λ maker. KeepsMaker maker.rows.now.value.tables maker.names maker.last maker.workers };
}

impl<'a> RunMaker<'a> {
    ghost use Rattle.std.specs.Prelude.{◌≡◌, ℕ, List, IfErr, IfOk, OnErr, OnOk};
    ghost use Rattle.std.specs.Int.{IsInRange};
    ghost use Rattle.mrp_master.specs.Supply.{supply_of};
    ghost use Rattle.mrp_book.specs.Booked.{AreBooked};
    ghost use Rattle.mrp_book.specs.Standing.{History};
    ghost use Rattle.mrp_item.specs.Inputs.{inputs_of};
    ghost use Rattle.mrp_engine.specs.day.Planned.{PlansRun};
    ghost use Rattle.mrp_runs.specs.File.{Comes, IsRun, IsRunAfter};
    ghost use Rattle.mrp_folder.specs.Kept.{Fails};
    ghost use Rattle.mrp_runs.specs.Kept.{AddsBehind, FailsToMake, MayAddBehind};
    ghost use Rattle.mrp_runs.specs.Maker.{KeepsFile, MayKeepFile};

    /// A maker for the runs of a shop, whose rows these are, with so many workers (1 to 64, as the caller guarantees)
    /// to plan the first run and to make the rows of reports.
    ///
    /// Errors: `NoMemory` if an allocation fails.
    pub fn of(
        alloc: Global,
        rows: &'a Arc<ShopRows>,
        workers: usize,
    ) -> Result<RunMaker<'a>, NoMemory>
        requires { IsInRange 1 MOST_WORKERS workers }
        ensures { IfOk result (λ maker. maker ≡ rows.now.value.tables) }
    {
        let names = HistoryRows::of(alloc, rows.shop().tables())?;
        Ok(RunMaker {
            rows,
            names,
            last: None,
            workers,
        })
    }

    // The plan of a run, or why its day is refused.
    fn plan(&self, rt: &(impl Threads + Wait + Sync), alloc: Global, run: &Run) -> RunResult
        requires { AreBooked (supply_of self.now) run.now.snapshot.standing }
        ensures { PlansRun (inputs_of self.now run.now.snapshot) result }
    {
        plan_or_refuse(
            rt,
            alloc,
            self.rows,
            self.last.as_ref(),
            &run.snapshot,
            self.workers,
            &OpenGate,
        )
    }

    // Keeps the plan that the next run is planned from.
    fn remember(&mut self, plan: Plan)
        requires { plan.inputs.tables ≡ self.old }
        ensures { self.new ≡ self.old }
    {
        self.last = Some(plan);
    }

    // Makes the file of a run that begins with a text.
    fn keep<D: Folder>(
        &mut self,
        rt: &(impl Alloc + Threads + Wait + Sync),
        alloc: Global,
        run: &Run,
        head: &[u8],
        name: &str,
        folder: &mut D,
    ) -> Result<Option<Refusal>, KeepFault<D::Part>>
        requires { AreBooked (supply_of self.old) run.now.snapshot.standing }
        ensures same { self.new ≡ self.old }
        ensures added { IfOk result (λ outcome. AddsBehind head.now (Comes (inputs_of self.old run.now.snapshot) outcome) name.now (D.named folder.old) (D.named folder.new)) }
        ensures sound { OnOk result (D.failures folder.new ≡ D.failures folder.old) }
        ensures either { OnErr result (MayAddBehind head.now (Comes (inputs_of self.old run.now.snapshot)) name.now (D.named folder.old) (D.named folder.new)) }
        ensures failed { IfErr result (Fails (D.failures folder.old) (D.failures folder.new)) }
    {
        match self.plan(rt, alloc, run) {
            Ok(plan) => {
                let kept = keep_report(rt, alloc, folder, head, &plan, self.workers, name);
                self.remember(plan);
                kept
            }
            Err(fault) => {
                let refusal = Refusal::of(fault);
                keep_refusal(folder, head, &refusal, name)?;
                Ok(Some(refusal))
            }
        }
    }

    /// Makes the file of a run: plans it from its own snapshot, writes its row and its report, or why there is none, makes
    /// that durable, and gives it its name. The caller guarantees that the run's entry is one of a legal history of the
    /// shop's order book. Returned is why there is no report, if there is none.
    ///
    /// Errors: a call of the folder or a write of the file failed, or there was no memory for the row or the name. The file
    /// has its name whole, or not at all.
    pub fn make<D: Folder>(
        &mut self,
        rt: &(impl Alloc + Threads + Wait + Sync),
        alloc: Global,
        run: &Run,
        folder: &mut D,
    ) -> Result<Option<Refusal>, MakeFault<D::Part>>
        requires { ∥ IsRun self.old run.now ∥₁ }
        ensures same { self.new ≡ self.old }
        ensures kept { (before : History) → IsRunAfter self.old before run.now
            → IfOk result (λ outcome. KeepsFile self.old before run.now outcome (D.named folder.old) (D.named folder.new)) }
        ensures sound { OnOk result (D.failures folder.new ≡ D.failures folder.old) }
        ensures either { (before : History) → IsRunAfter self.old before run.now
            → OnErr result (MayKeepFile self.old before run.now (D.named folder.old) (D.named folder.new)) }
        ensures failed { IfErr result (FailsToMake (D.failures folder.old) (D.failures folder.new)) }
    {
        let head = head_of(alloc, &self.names, run)?;
        let name = run_name(alloc, run.snapshot.front())?;
        Ok(self.keep(rt, alloc, run, &head, &name, folder)?)
    }
}
