//! The time that the operations at a work centre take.

ghost use Rattle.std.specs.Prelude.{◌≡◌, ◌≤◌, ◌<◌, ◌+◌, ◌^◌, ℕ, length, min, IfOk};
ghost use Rattle.mrp_phase.specs.Weeks.{in_week, row};
ghost use Rattle.mrp_item.specs.Inputs.{count, horizon};
ghost use Rattle.mrp_load.specs.Bounds.{AreOperations, AreOrders};
ghost use Rattle.mrp_load.specs.Loads.{loads_by, operation_load, operation_week, orders_in, standard_time};

use mrp_item::{Order, Plan};
use mrp_qty::NoMemory;
use mrp_tables::Operation;
use mrp_tables::limits::{MOST_OFFSET, MOST_RUN, MOST_SETUP};
use std::alloc::Global;

// A week, or the due week if that is earlier.
fn no_later(week: u64, due: u16) -> u16
    ensures { result ≡ min due week }
{
    if week < u64::from(due) {
        week as u16
    } else {
        due
    }
}

// The week in which an order's operation loads its centre.
fn operation_week(operation: &Operation, order: &Order) -> u16
    requires { operation.now.offset ≤ MOST_OFFSET }
    ensures { result ≡ operation_week operation.now order.now }
{
    no_later(u64::from(order.release) + operation.offset, order.due)
}

// The standard time of an order's operation, in thousandths of a minute.
fn standard_time(operation: &Operation, order: &Order) -> u128
    ensures { result ≡ standard_time operation.now order.now }
{
    let setup = 1000 * u128::from(operation.setup);
    setup + u128::from(operation.run) * u128::from(order.start.value())
}

// Adds the standard time of an operation for each of its item's orders, in its week.
fn add_operation(loads: &mut Vec<u128>, operation: &Operation, orders: &[Order])
    requires offset { operation.now.offset ≤ MOST_OFFSET }
    requires setup { operation.now.setup ≤ MOST_SETUP }
    requires run { operation.now.run ≤ MOST_RUN }
    requires orders { AreOrders (length loads.old.items) orders.now }
    requires room { (week : ℕ) → in_week loads.old.items week ≤ 2 ^ 120 }
    ensures loads { loads.new.items ≡ row (length loads.old.items) (λ week. in_week loads.old.items week + operation_load orders.now operation.now week) }
    ensures within { (week : ℕ) → operation_load orders.now operation.now week ≤ 2 ^ 95 }
{
    for order in orders {
        let place = usize::from(operation_week(operation, order)) - 1;
        loads[place] += standard_time(operation, order);
    }
}

// The orders of an item.
fn orders_of(plan: &Plan, item: usize) -> &[Order]
    requires { item < count plan.now.inputs }
    ensures orders { result.now ≡ orders_in plan.now.inputs item }
    ensures within { AreOrders (horizon plan.now.inputs) result.now }
{
    plan.item(item).orders()
}

// The load of a centre's operations in each week, in thousandths of a minute.
pub fn load_row(alloc: Global, plan: &Plan, operations: &[Operation]) -> Result<Vec<u128>, NoMemory>
    requires { AreOperations plan.now.inputs operations.now }
    ensures { IfOk result (λ loads. loads.items ≡ loads_by plan.now.inputs operations.now) }
{
    let weeks = usize::from(plan.inputs().weeks());
    let mut loads = vec![in alloc; 0; weeks]?;
    for operation in operations {
        add_operation(&mut loads, operation, orders_of(plan, operation.item));
    }
    Ok(loads)
}
