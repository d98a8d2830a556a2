//! Explosion by low-level codes: the items of one code are planned in parallel.

ghost use Rattle.std.specs.Prelude.{◌≡◌, ◌==◌, ◌<◌, ◌%◌, if◌then◌else◌, vec_capacity, All, IfOk, OnOk, OnErr};
ghost use Rattle.mrp_item.specs.Inputs.{count};
ghost use Rattle.mrp_item.specs.Made.{item_from, items_from};
ghost use Rattle.mrp_explode.specs.Explosion.{Explodes};
ghost use Rattle.mrp_explode.specs.Finished.{FinishesAll, IsReady};

use crate::fault::RunFault;
use crate::finished::Finished;
use crate::grouping::levels_of;
use mrp_item::{Inputs, Outcome, Plan};
use mrp_qty::NoMemory;
use rayon::prelude::*;
use std::alloc::Global;
use std::sync::Arc;
use std::thread::Threads;

// The fewest items for which a thread is started.
const LEAST_ITEMS: usize = 64;

// An item whose place is a multiple of this number reserves the room of that many items.
const ITEMS_OF_ROOM: usize = 8;

// The bytes of that room: an item with an order in each of 104 weeks keeps about 6,700, and its planning
// uses more.
const ROOM: usize = 60_000;

// The room that is reserved at an item: that of some items at once, or none. Once freed it stays in the
// thread's own heap. A heap grows by what is asked for, otherwise by a page or two at a time, and while the
// heap of one thread grows no other can.
pub(crate) fn make_room(alloc: Global, item: usize) -> Result<Vec<u8>, NoMemory>
    ensures room { IfOk result (λ room. vec_capacity room ≡ (if item % ITEMS_OF_ROOM == 0 then ROOM else 0)) }
    ensures refused { OnErr result (item % ITEMS_OF_ROOM ≡ 0) }
{
    let bytes = if item % ITEMS_OF_ROOM == 0 { ROOM } else { 0 };
    Ok(Vec::with_capacity(alloc, bytes)?)
}

// What planning makes of items whose parents are finished, in parallel.
fn outcomes_for(
    rt: &(impl Threads + Sync),
    alloc: Global,
    finished: &Finished,
    items: &[usize],
) -> Result<Vec<Outcome>, NoMemory>
    requires items { All (λ i. i < count finished.now.inputs) items.now }
    requires ready { All (IsReady finished.now) items.now }
    ensures { IfOk result (λ outcomes. outcomes.items ≡ items_from finished.now.inputs items.now) }
{
    items
        .par_iter()
        .with_min_len(LEAST_ITEMS)
        .map(
            |item: &usize| -> Result<Outcome, NoMemory>
                requires item { item.now < count finished.now.inputs }
                requires ready { IsReady finished.now item.now }
                ensures { IfOk result (λ o. o ≡ item_from finished.entry.now.inputs item.now) }
            {
                drop(make_room(alloc, *item)?);
                finished.outcome_for(alloc, *item)
            },
        )
        .collect::<Result<Vec<Outcome>, NoMemory>>(rt, alloc)?
}

// Plans the items of a level; their parents are finished.
fn plan_level(
    rt: &(impl Threads + Sync),
    alloc: Global,
    finished: &mut Finished,
    items: &[usize],
) -> Result<(), NoMemory>
    requires items { All (λ i. i < count finished.old.inputs) items.now }
    requires ready { All (IsReady finished.old) items.now }
    ensures { OnOk result (FinishesAll finished.old finished.new items.now) }
{
    for outcome in outcomes_for(rt, alloc, finished, items)? {
        finished.put(outcome);
    }
    Ok(())
}

/// The plan of these inputs: every item is planned, low-level code by low-level code from 0
/// (Orlicky: level-by-level explosion), the items of one code in parallel if there are enough of
/// them. It is the plan that `explode_serial` gives.
///
/// Errors: `NoMemory` if an allocation fails; otherwise `TooLarge` with the first item in table
/// order whose quantities get too large while those of no item above it do (profile).
pub fn explode_levels(
    rt: &(impl Threads + Sync),
    alloc: Global,
    inputs: &Arc<Inputs>,
) -> Result<Plan, RunFault>
    ensures { Explodes inputs.now.value result }
{
    let levels = levels_of(alloc, inputs.shop())?;
    let mut finished = Finished::new(alloc, inputs)?;
    let all = levels.as_slice();
    for level in all {
        plan_level(rt, alloc, &mut finished, level.as_slice())?;
    }
    finished.into_whole(alloc)
}
