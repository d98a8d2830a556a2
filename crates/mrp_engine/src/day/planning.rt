//! The plan of a run.

ghost use Rattle.std.specs.Prelude.{◌≡◌, Err, IfOk};
ghost use Rattle.std.specs.Int.{IsInRange};
ghost use Rattle.mrp_master.specs.Supply.{supply_of};
ghost use Rattle.mrp_book.specs.Booked.{AreBooked};
ghost use Rattle.mrp_item.specs.Inputs.{inputs_of, item_at};
ghost use Rattle.mrp_item.specs.Plan.{plan_of};
ghost use Rattle.mrp_explode.specs.Explosion.{Explodes};

use crate::day::run::MOST_WORKERS;
use mrp_book::Snapshot;
use mrp_explode::{Gate, RunFault, explode, explode_levels};
use mrp_item::{Inputs, Plan, ShopRows};
use mrp_qty::NoMemory;
use mrp_rows::Name;
use std::alloc::Global;
use std::sync::{Arc, Wait};
use std::thread::Threads;

/// The inputs of a run: the rows of a shop, and a snapshot of its order book. The caller guarantees
/// that the snapshot is of that shop.
///
/// Errors: `NoMemory` if an allocation fails.
pub fn inputs_of(
    alloc: Global,
    rows: &Arc<ShopRows>,
    snapshot: &Snapshot,
) -> Result<Arc<Inputs>, NoMemory>
    requires { AreBooked (supply_of rows.now.value.tables) snapshot.now.standing }
    ensures { IfOk result (λ inputs. inputs.value ≡ inputs_of rows.now.value.tables snapshot.now) }
{
    Inputs::over(alloc, rows.clone()?, snapshot.copy()?)
}

/// The plan of a run, from the rows of a shop and a snapshot of its order book. The caller guarantees that
/// the snapshot is of that shop. The items of a low-level code are planned in parallel if there are enough of
/// them.
///
/// Errors: `NoMemory` if an allocation fails; otherwise `TooLarge` with the first item in table
/// order whose quantities get too large while those of no item above it do.
pub fn plan_run(
    rt: &(impl Threads + Sync),
    alloc: Global,
    rows: &Arc<ShopRows>,
    snapshot: &Snapshot,
) -> Result<Plan, RunFault>
    requires { AreBooked (supply_of rows.now.value.tables) snapshot.now.standing }
    ensures { Explodes (inputs_of rows.now.value.tables snapshot.now) result }
{
    let inputs = inputs_of(alloc, rows, snapshot)?;
    explode_levels(rt, alloc, &inputs)
}

/// The plan of a run, like [`plan_run`], by `workers` workers (1 to 64, as the caller guarantees): each
/// takes the next item whose parents are planned, passes the gate with its place and plans it, until all are
/// planned. A worker may wait for the others.
///
/// Errors: those of [`plan_run`].
pub fn plan_run_by<R: Threads + Wait + Sync, G: Gate + Sync>(
    rt: &R,
    alloc: Global,
    rows: &Arc<ShopRows>,
    snapshot: &Snapshot,
    workers: usize,
    gate: &G,
) -> Result<Plan, RunFault>
    requires booked { AreBooked (supply_of rows.now.value.tables) snapshot.now.standing }
    requires workers { IsInRange 1 MOST_WORKERS workers }
    ensures { Explodes (inputs_of rows.now.value.tables snapshot.now) result }
{
    let planned_from = inputs_of(alloc, rows, snapshot)?;
    explode(rt, alloc, &planned_from, workers, gate)
}

/// The name of the item that makes the plan of its inputs too large, by its place in the table.
pub fn name_of(inputs: &Inputs, item: usize) -> Name
    requires { plan_of inputs.now ≡ Err item }
    ensures { result ≡ (item_at inputs.now item).name }
{
    inputs.entry(item).name
}
