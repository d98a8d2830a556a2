//! Net change of whole plans: the plan of other bookings, from an older plan, is the plan that an explosion makes.

ghost use Rattle.std.specs.Prelude.{◌≡◌};

use super::reports::{has_report, report_of};
use super::{made, same};
use mrp_engine::replan;
use mrp_explode::{OpenGate, explode};
use mrp_item::{Inputs, Plan, Planner, Work};
use sample_shops::{Asked, Records, bicycles, bicycles_welded, inputs_after, morning, tower};
use std::alloc::Global;
use std::io::Eprint;
use std::process::Abort;
use std::sync::{Arc, Wait};
use std::thread::Threads;

const NONE: &[(u64, Asked)] = &[];

// The plan by net change from an older one. Fails unless so many items are planned, and the plan has the report of the
// plan that an explosion makes.
fn changed<R: Alloc + Abort + Threads + Wait + Sync>(
    rt: &R,
    alloc: Global,
    old: &Plan,
    inputs: Arc<Inputs>,
    count: u64,
) -> Plan
    requires { old.now.inputs.tables ≡ inputs.value.tables }
    ensures { old.now.inputs.tables ≡ result.inputs.tables }
{
    let exploded = explode(rt, alloc, &inputs, 2, &OpenGate).expect(rt, "a plan");
    let mut work = Work::new();
    let outcomes = replan(alloc, old, &inputs, &mut work).expect(rt, "memory");
    same(rt, work.count(), count);
    let plan = Plan::of(inputs, outcomes).expect(rt, "no item over");
    let report = report_of(rt, alloc, &exploded);
    has_report(rt, alloc, &plan, report.as_str());
    drop((exploded, report));
    plan
}

// Fails unless net change from a shop's plan after some calls to other calls, and back, plans so many items each way.
fn changes_both_ways<R: Alloc + Abort + Eprint + Threads + Wait + Sync>(
    rt: &R,
    alloc: Global,
    shop: Records<'_>,
    before: &[(u64, Asked)],
    after: &[(u64, Asked)],
    count: u64,
) {
    let old = made(rt, shop.plan(alloc, before));
    let later = made(rt, inputs_after(alloc, old.inputs(), after));
    let new = changed(rt, alloc, &old, later, count);
    let again = made(rt, inputs_after(alloc, new.inputs(), before));
    let back = changed(rt, alloc, &new, again, count);
    drop((old, new, back));
}

type Calls = &'static [(u64, Asked)];

// Calls before and after, and how many items are planned: none for the same bookings, or the same pieces in a week, one for a
// booking within the forecast, and all for one above it. The second snapshot of the last is the fourth entry.
const CASES: [(Calls, Calls, u64); 4] = [
    (&[], &[], 0),
    (
        &[(1, Asked::Book(3, 6)), (2, Asked::Book(3, 6))],
        &[(1, Asked::Book(3, 12))],
        0,
    ),
    (&[], &[(1, Asked::Book(4, 6))], 1),
    (
        &[(1, Asked::Book(3, 12))],
        &[
            (1, Asked::Book(3, 12)),
            (1, Asked::Snapshot),
            (2, Asked::Book(5, 25)),
        ],
        3,
    ),
];

#[test]
fn bookings_plan_what_they_touch(rt: HostRuntime) {
    for (before, after, count) in CASES {
        changes_both_ways(&rt, rt.alloc(), bicycles(), before, after, count);
    }
    changes_both_ways(&rt, rt.alloc(), bicycles_welded(), morning(), NONE, 3);
}

// Fails unless net change from a plan to other inputs is refused by this item.
fn is_refused(rt: &impl Abort, alloc: Global, old: &Plan, inputs: Arc<Inputs>, item: usize)
    requires { old.now.inputs.tables ≡ inputs.value.tables }
{
    let outcomes = replan(alloc, old, &inputs, &mut Work::new()).expect(rt, "memory");
    same(rt, Plan::of(inputs, outcomes).err(), Some(item));
}

// The booking makes the last part too large, and its cancellation makes it fit again.
#[test]
fn an_item_that_was_too_large_is_planned_once_it_fits(rt: HostRuntime) {
    const BOOKED: &[(u64, Asked)] = &[(1, Asked::Book(1, 1))];
    const CANCELLED: &[(u64, Asked)] = &[(1, Asked::Book(1, 1)), (1, Asked::Cancel(1))];
    let old = made(&rt, tower().plan(rt.alloc(), NONE));
    let booked = made(&rt, inputs_after(rt.alloc(), old.inputs(), BOOKED));
    is_refused(&rt, rt.alloc(), &old, booked, 2);
    let cancelled = made(&rt, inputs_after(rt.alloc(), old.inputs(), CANCELLED));
    let new = changed(&rt, rt.alloc(), &old, cancelled, 0);
    drop((old, new));
}
