//! The loads of a plan's work centres.

ghost use Rattle.std.specs.Prelude.{◌≡◌, ℕ, All, IfOk, length};
ghost use Rattle.mrp_load.specs.Bounds.{AreOperations};
ghost use Rattle.mrp_bill.specs.Lists.{listed};
ghost use Rattle.mrp_load.specs.Kept.{AreLoads};
ghost use Rattle.mrp_load.specs.Loads.{loads_by, operations_at};

use crate::centre::load_row;
use crate::grouping::operations_by_centre;
use crate::table::LoadTable;
use mrp_item::Plan;
use mrp_qty::NoMemory;
use mrp_tables::Operation;
use rayon::prelude::*;
use std::alloc::Global;
use std::thread::Threads;

// The fewest work centres that one thread sums.
const LEAST_CENTRES: usize = 8;

// The load of each centre in each week, from the operations at each, in parallel.
fn load_rows(
    rt: &(impl Threads + Sync),
    alloc: Global,
    plan: &Plan,
    groups: &[Vec<Operation>],
) -> Result<Vec<Vec<u128>>, NoMemory>
    requires size { length groups.now ≡ length plan.now.inputs.tables.centres }
    requires groups { (centre : ℕ) → listed groups.now centre ≡ operations_at plan.now.inputs centre }
    requires within { All (λ group. AreOperations plan.now.inputs group.items) groups.now }
    ensures { IfOk result (λ rows. AreLoads plan.now.inputs rows.items) }
{
    groups
        .par_iter()
        .with_min_len(LEAST_CENTRES)
        .map(
            |group: &Vec<Operation>| -> Result<Vec<u128>, NoMemory>
                requires { AreOperations plan.now.inputs group.now.items }
                ensures { IfOk result (λ loads. loads.items ≡ loads_by plan.entry.now.inputs group.now.items) }
            { load_row(alloc, plan, group) },
        )
        .collect::<Result<Vec<Vec<u128>>, NoMemory>>(rt, alloc)?
}

/// The loads of a plan's work centres (APICS Dictionary: capacity requirements planning): each
/// operation of an item loads its work centre for each firm and planned order of the item, in the
/// order's release week plus the operation's offset, or in its due week if that is earlier
/// (profile). The centres are summed in parallel, at least eight by one thread.
///
/// Errors: `NoMemory` if an allocation fails, or a reference count cannot rise.
pub fn loads(rt: &(impl Threads + Sync), alloc: Global, plan: &Plan) -> Result<LoadTable, NoMemory>
    ensures { IfOk result (λ table. table ≡ plan.now.inputs) }
{
    let tables = plan.inputs().shop().tables();
    let count = tables.centres().len();
    let groups = operations_by_centre(alloc, count, tables.routings())?;
    let rows = load_rows(rt, alloc, plan, &groups)?;
    Ok(LoadTable::new(plan.inputs().clone()?, rows))
}
