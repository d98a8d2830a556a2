//! Operations, by the weeks of work centres that they load.

ghost use Rattle.std.specs.Prelude.{◌≡◌, ◌<◌, ◌∷◌, [], ℕ, All, IfOk, None, OnOk, Some, if◌then◌else◌, length, map};
ghost use Rattle.mrp_bill.specs.Grouped.{listed};
ghost use Rattle.mrp_tables.specs.declared.rows.Operation.{Operation};
ghost use Rattle.mrp_work.specs.Table.{added, found_in};
ghost use Rattle.mrp_work.specs.Work.{all_work, is_asked, operations_of, work_of};

use crate::operations::operations_by_item;
use crate::order::{Work, WorkOrder, work_of};
use mrp_bill::Grouped;
use mrp_qty::NoMemory;
use mrp_tables::{Operation, Tables};
use std::alloc::Global;
use std::collections::HashMap;

// Takes a week of a work centre, so far without operations.
fn ask(
    alloc: Global,
    found: &mut HashMap<(usize, u64), Vec<Work>>,
    place: (usize, u64),
) -> Result<(), NoMemory>
    ensures { OnOk result ((centre week : ℕ) → found_in found.new centre week ≡ (if is_asked (place ∷ []) centre week then Some [] else found_in found.old centre week)) }
{
    match found.insert(place, Vec::new(alloc)) {
        Ok(_) => Ok(()),
        Err(_) => Err(NoMemory),
    }
}

// Weeks of work centres, so far without operations.
fn asked_places(
    alloc: Global,
    asked: &[(usize, u64)],
) -> Result<HashMap<(usize, u64), Vec<Work>>, NoMemory>
    ensures { IfOk result (λ found. (centre week : ℕ) → found_in found centre week ≡ (if is_asked asked.now centre week then Some [] else None)) }
{
    let mut found = HashMap::new(alloc);
    for place in asked {
        ask(alloc, &mut found, *place)?;
    }
    Ok(found)
}

// Adds an operation to those of the week that it loads, if that is asked for.
fn add_work(found: &mut HashMap<(usize, u64), Vec<Work>>, work: Work) -> Result<(), NoMemory>
    ensures { OnOk result ((centre week : ℕ) → found_in found.new centre week ≡ added (found_in found.old centre week) centre week (work ∷ [])) }
{
    let place = (work.centre, work.week);
    let Some(mut works) = found.remove(&place) else {
        return Ok(());
    };
    works.push(work)?;
    match found.insert(place, works) {
        Ok(_) => Ok(()),
        Err(_) => Err(NoMemory),
    }
}

// Adds the operations of an order.
fn add_order(
    found: &mut HashMap<(usize, u64), Vec<Work>>,
    operations: &[Operation],
    order: &WorkOrder,
) -> Result<(), NoMemory>
    ensures { OnOk result ((centre week : ℕ) → found_in found.new centre week ≡ added (found_in found.old centre week) centre week (map (work_of order.now) operations.now)) }
{
    for operation in operations {
        add_work(found, work_of(order, operation))?;
    }
    Ok(())
}

// Adds the operations of orders.
fn add_orders(
    found: &mut HashMap<(usize, u64), Vec<Work>>,
    groups: &Grouped<Operation>,
    routings: &[Operation],
    orders: &[WorkOrder],
) -> Result<(), NoMemory>
    requires size { All (λ order. order.item < length groups.now) orders.now }
    requires groups { (i : ℕ) → i < length groups.now → listed groups.now i ≡ operations_of routings.now i }
    ensures { OnOk result ((centre week : ℕ) → found_in found.new centre week ≡ added (found_in found.old centre week) centre week (all_work routings.now orders.now)) }
{
    let _routings = routings.len();
    for order in orders {
        add_order(found, groups.group(order.item), order)?;
    }
    Ok(())
}

/// The operations that load some weeks of work centres, found by the work centre's place and the week.
/// Contracts see what is found (`found_at`).
#[derive(Drop)]
pub struct WorkTable {
    found: HashMap<(usize, u64), Vec<Work>>,
}

impl WorkTable {
    ghost use Rattle.std.specs.Prelude.{◌≡◌, ◌<◌, ℕ, All, IfOk, length};
    ghost use Rattle.std.specs.Option.{option_copied};
    ghost use Rattle.mrp_work.specs.Found.{found_at};
    ghost use Rattle.mrp_work.specs.Work.{all_work, found_of};

    /// Of these weeks of work centres the operations of orders that load them: each operation of an order's
    /// item loads its work centre in the order's release week plus the operation's offset, or in its due week
    /// if that is earlier (profile). They stand by orders, and of an order in table order. The orders are of
    /// items of the tables. Each order is looked at once.
    ///
    /// Errors: `NoMemory` if an allocation fails.
    pub fn of(
        alloc: Global,
        tables: &Tables,
        orders: &[WorkOrder],
        asked: &[(usize, u64)],
    ) -> Result<WorkTable, NoMemory>
        requires { All (λ order. order.item < length tables.now.items) orders.now }
        ensures { IfOk result (λ table. (centre week : ℕ) → found_at table centre week ≡ found_of asked.now (all_work tables.now.routings orders.now) centre week) }
    {
        let routings = tables.routings();
        let groups = operations_by_item(alloc, tables.items().len(), routings)?;
        let mut found = asked_places(alloc, asked)?;
        add_orders(&mut found, &groups, routings, orders)?;
        Ok(WorkTable { found })
    }

    /// The operations that load a week of a work centre; `None` if it was not asked for.
    pub fn at(&self, centre: usize, week: u64) -> Option<&[Work]>
        ensures { option_copied result ≡ found_at self.now centre week }
    {
        match self.found.get(&(centre, week)) {
            Some(works) => Some(works.as_slice()),
            None => None,
        }
    }
}
