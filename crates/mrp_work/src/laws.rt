//! What follows from the definitions alone, each law the contract of a function that does nothing.

ghost use Rattle.std.specs.Prelude.{◌≡◌, ◌==◌, ◌&&◌, ◌+◌, ◌<◌, ◌≤◌, ◌^◌, ◌-◌, ℕ, List, drop, filter, sum_by, take};
ghost use Rattle.mrp_tables.specs.declared.rows.Operation.{Operation};
ghost use Rattle.mrp_work.specs.Work.{all_work, is_at, operation_week, operations_of, standard_time, time_of, total};
ghost use Rattle.mrp_work.specs.declared.order.Work.{Work};
ghost use Rattle.mrp_work.specs.declared.order.WorkOrder.{WorkOrder};

/// The operations that load a week of a work centre take together, order by order, the standard times of those
/// of the order's operations that are at this work centre and load this week.
pub fn work_is_of_the_orders()
    ensures { (routings : List Operation) (orders : List WorkOrder) (centre week : ℕ) → time_of (filter (is_at centre week) (all_work routings orders)) ≡ sum_by (λ order. sum_by (λ operation. standard_time operation order) (filter (λ operation. (operation.centre == centre) && (operation_week operation order == week)) (operations_of routings order.item))) orders }
{}

/// The times of the first operations, of the others, and what is left of a load that they do not pass make up this
/// load.
pub fn parts_make_the_load()
    ensures whole { (works : List Work) (first load : ℕ) → total works ≤ load → load < 2 ^ 128 - 1 → (total (take first works) + total (drop first works)) + (load - total works) ≡ load }
    ensures exact { (works : List Work) (load : ℕ) → total works ≤ load → load < 2 ^ 128 - 1 → total works ≡ time_of works }
{}
