//! Plans: net change, explosion by low-level codes, and by workers, of which each gives up where it is out of memory.

ghost use Rattle.std.specs.Prelude.{◌≡◌};
ghost use Rattle.std.specs.Int.{IsInRange};
ghost use Rattle.mrp_explode.specs.declared.workers.TheConstants.{MOST_WORKERS};

use crate::next_runs::{first_plan, plan_next, with_booking};
use crate::telling::{given, out_of_memory, tell_lacks};
use mrp_explode::{Gate, OpenGate, RunFault, explode as explode_by, explode_levels};
use mrp_item::{Inputs, Plan};
use mrp_report::write_report;
use mrp_rows::Told;
use sample_shops::{bicycles_welded, morning, screws};
use std::alloc::Global;
use std::io;
use std::io::ErrorKind;
use std::rt::Runtime;
use std::sync::atomic::{AtomicU64, Ordering};
use std::sync::{Arc, Wait};
use std::thread::Threads;

// The report of a plan, unless it is out of memory.
fn report_of<R: Alloc + Threads + Sync>(rt: &R, alloc: Global, plan: &Plan) -> Option<String> {
    let mut writer = Told::new(Vec::new(alloc));
    write_report(rt, alloc, plan, &mut writer, 1).ok()?;
    String::from_utf8(writer.into_inner()).ok()
}

// Prints the report of a plan, once more where that was out of memory, which is counted.
fn tell_plan<R: Runtime + Threads + Sync>(
    rt: &R,
    alloc: Global,
    plan: &Plan,
    lacks: &mut u64,
) -> io::Result<()> {
    if let Some(text) = report_of(rt, alloc, plan) {
        return println!(rt; "{text}");
    }
    *lacks = lacks.saturating_add(1);
    match report_of(rt, alloc, plan) {
        Some(text) => println!(rt; "{text}"),
        None => Err(out_of_memory()),
    }
}

// The plan of the next run by net change, once more where it was out of memory, which is counted.
fn planned_next(alloc: Global, last: &Plan, other: &Inputs, lacks: &mut u64) -> Option<(Plan, u64)>
    requires { last.now.inputs.tables ≡ other.now.tables }
{
    match plan_next(alloc, last, other) {
        Err(RunFault::NoMemory) => {
            *lacks = lacks.saturating_add(1);
            plan_next(alloc, last, other).ok()
        }
        planned => planned.ok(),
    }
}

fn tell_next<R: Runtime + Threads + Sync>(
    rt: &R,
    alloc: Global,
    last: &Plan,
    other: &Inputs,
) -> io::Result<()>
    requires { last.now.inputs.tables ≡ other.now.tables }
{
    let mut lacks = 0;
    let Some((plan, count)) = planned_next(alloc, last, other, &mut lacks) else {
        return Err(out_of_memory());
    };
    println!(rt; "{count} items planned")?;
    let told = tell_plan(rt, alloc, &plan, &mut lacks);
    drop(plan);
    told?;
    tell_lacks(rt, lacks)
}

/// The plan of a run by net change, from the plan without bookings.
pub(crate) fn replan<R: Runtime + Threads + Sync>(rt: &R, alloc: Global) -> io::Result<()> {
    let inputs = given(rt, bicycles_welded().inputs(alloc, &[]))?;
    let Some(last) = first_plan(alloc, &inputs) else {
        return Err(out_of_memory());
    };
    match with_booking(rt, alloc, last.inputs()) {
        Some(other) => tell_next(rt, alloc, &last, &other),
        None => Err(out_of_memory()),
    }
}

// The plan of these inputs by low-level codes, once more where it was out of memory, which is counted.
fn leveled<R: Threads + Sync>(
    rt: &R,
    alloc: Global,
    inputs: &Arc<Inputs>,
    lacks: &mut u64,
) -> Option<Plan> {
    match explode_levels(rt, alloc, inputs) {
        Err(RunFault::NoMemory) => {
            *lacks = lacks.saturating_add(1);
            explode_levels(rt, alloc, inputs).ok()
        }
        planned => planned.ok(),
    }
}

/// The plan of a shop after the calls of a morning, by low-level codes.
pub(crate) fn levels<R: Runtime + Threads + Sync>(rt: &R, alloc: Global) -> io::Result<()> {
    let inputs = given(rt, bicycles_welded().inputs(alloc, morning()))?;
    let mut lacks = 0;
    let Some(plan) = leveled(rt, alloc, &inputs, &mut lacks) else {
        return Err(out_of_memory());
    };
    let told = tell_plan(rt, alloc, &plan, &mut lacks);
    drop(plan);
    told?;
    tell_lacks(rt, lacks)
}

// A gate that counts the items that pass it.
#[derive(Drop)]
struct Passed {
    items: AtomicU64,
}

impl Gate for Passed {
    fn pass<R: Wait>(&self, _rt: &R, _item: usize) {
        let _before = self.items.fetch_add(1, Ordering::SeqCst);
    }
}

// The plan of these inputs by so many workers, once more where it was out of memory. That is counted, and printed
// is how many items had been taken to be planned.
fn exploded<R: Runtime + Threads + Wait + Sync>(
    rt: &R,
    alloc: Global,
    inputs: &Arc<Inputs>,
    workers: usize,
    lacks: &mut u64,
) -> io::Result<Plan>
    requires { IsInRange 1 MOST_WORKERS workers }
{
    let passed = Passed {
        items: AtomicU64::new(0),
    };
    match explode_by(rt, alloc, inputs, workers, &passed) {
        Ok(plan) => return Ok(plan),
        Err(RunFault::NoMemory) => *lacks = lacks.saturating_add(1),
        Err(RunFault::TooLarge { item: _ }) => return Err(io::Error::from(ErrorKind::Other)),
    }
    let items = passed.items.load(Ordering::SeqCst);
    println!(rt; "out of memory at item {items}")?;
    match explode_by(rt, alloc, inputs, workers, &OpenGate) {
        Ok(plan) => Ok(plan),
        Err(_) => Err(out_of_memory()),
    }
}

/// The plan of a chain of items, one ready after the other, by so many workers.
pub(crate) fn explode<R: Runtime + Threads + Wait + Sync>(
    rt: &R,
    alloc: Global,
    workers: usize,
) -> io::Result<()>
    requires { IsInRange 1 MOST_WORKERS workers }
{
    let inputs = given(rt, screws().inputs(alloc, &[]))?;
    let mut lacks = 0;
    let plan = exploded(rt, alloc, &inputs, workers, &mut lacks)?;
    let told = tell_plan(rt, alloc, &plan, &mut lacks);
    drop(plan);
    told?;
    tell_lacks(rt, lacks)
}
