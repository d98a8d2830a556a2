//! Outcomes of items that get too large.

use super::making::outcomes_of;
use super::{made, same};
use mrp_item::{Inputs, Outcome, Plan};
use sample_shops::{Records, chain, fork};
use std::alloc::Global;
use std::process::Abort;
use std::sync::Arc;

// An outcome: whether the item is planned, and whether it is over; a blocked one is neither.
type Made = (bool, bool);

const PLANNED: Made = (true, false);

const OVER: Made = (false, true);

const BLOCKED: Made = (false, false);

// Fails unless this is the outcome of an item, and so is a copy.
fn is_made(rt: &impl Abort, outcome: &Outcome, item: usize, want: Made) {
    let copy = outcome.copy().expect(rt, "memory");
    for one in [outcome, &copy] {
        let plan = one.plan().map(|planned| planned.item());
        let want_plan = if want.0 { Some(item) } else { None };
        same(rt, (one.item(), plan), (item, want_plan));
        same(rt, (one.is_planned(), one.is_over()), want);
    }
    drop(copy);
}

// Fails unless these are the outcomes of a shop's items, and its plan is refused by this item.
fn is_refused(rt: &impl Abort, alloc: Global, inputs: Arc<Inputs>, want: &[Made], over: usize) {
    let outcomes = made(rt, outcomes_of(alloc, &inputs));
    assert!(rt; outcomes.len() == want.len());
    for item in 0..want.len() {
        is_made(rt, &outcomes[item], item, want[item]);
    }
    same(rt, Plan::of(inputs, outcomes).err(), Some(over));
}

#[test]
fn parts_in_millions_are_too_large(rt: HostRuntime) {
    const LAST: &[Made] = &[PLANNED, PLANNED, PLANNED, OVER];
    const MIDDLE: &[Made] = &[PLANNED, PLANNED, OVER, BLOCKED];
    const BOTH: &[Made] = &[PLANNED, PLANNED, OVER, OVER];
    let more = Records {
        master: fork().master,
        ..chain()
    };
    for (shop, want, over) in [(chain(), LAST, 3), (more, MIDDLE, 2), (fork(), BOTH, 2)] {
        let inputs = made(&rt, shop.inputs(rt.alloc(), &[]));
        is_refused(&rt, rt.alloc(), inputs, want, over);
    }
}
