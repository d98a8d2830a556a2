//! Orders, and what their operations take.

ghost use Rattle.std.specs.Prelude.{◌≡◌};
ghost use Rattle.mrp_work.specs.Work.{operation_week, standard_time, total, work_of};

use mrp_qty::Qty;
use mrp_tables::Operation;

/// An order of an item, as it loads work centres.
#[derive(Clone, Copy, Debug)]
pub struct WorkOrder {
    /// The caller's number of the order.
    pub number: usize,
    /// The item, by its place in the table of items.
    pub item: usize,
    /// The week in which the order is due.
    pub due: u64,
    /// The week in which it is released.
    pub release: u64,
    /// The pieces that start.
    pub start: Qty,
}

/// An operation of an order: when it loads which work centre, and for how long.
#[derive(Clone, Copy, Debug)]
pub struct Work {
    /// The caller's number of the order.
    pub order: usize,
    /// The number of the operation in the item's routing.
    pub operation: u64,
    /// The work centre, by its place in the table of work centres.
    pub centre: usize,
    /// The week.
    pub week: u64,
    /// The standard time (APICS Dictionary: standard time), in thousandths of a minute.
    pub time: u128,
}

// The week in which an order's operation loads its centre.
fn operation_week(operation: &Operation, order: &WorkOrder) -> u64
    ensures { result ≡ operation_week operation.now order.now }
{
    order
        .due
        .min(order.release.saturating_add(operation.offset))
}

// The standard time of an order's operation, in thousandths of a minute.
fn standard_time(operation: &Operation, order: &WorkOrder) -> u128
    ensures { result ≡ standard_time operation.now order.now }
{
    let setup = 1000 * u128::from(operation.setup);
    setup + u128::from(operation.run) * u128::from(order.start.value())
}

// The work of an order's operation.
pub(crate) fn work_of(order: &WorkOrder, operation: &Operation) -> Work
    ensures { result ≡ work_of order.now operation.now }
{
    Work {
        order: order.number,
        operation: operation.operation,
        centre: operation.centre,
        week: operation_week(operation, order),
        time: standard_time(operation, order),
    }
}

/// The time of all these operations, in thousandths of a minute; it saturates at the greatest number.
pub fn total(works: &[Work]) -> u128
    ensures { result ≡ total works.now }
{
    let mut sum = 0u128;
    for work in works {
        sum = sum.saturating_add(work.time);
    }
    sum
}
