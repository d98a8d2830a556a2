//! Plans of all items: explosion on one thread, by low-level codes and by workers give the same.

ghost use Rattle.std.specs.Int.{IsInRange};
ghost use Rattle.mrp_explode.specs.declared.workers.TheConstants.{MOST_WORKERS};

use super::reports::has_report;
use super::texts::{LOTS_REPORT, SCREW_REPORT};
use super::{made, same};
use mrp_explode::{OpenGate, RunFault, explode, explode_levels, explode_serial};
use mrp_item::Inputs;
use sample_shops::{Asked, Records, bicycles_in_lots, chain, fork, morning, screws};
use std::alloc::Global;
use std::process::Abort;
use std::sync::{Arc, Wait};
use std::thread::Threads;

// Fails unless so many workers make the plan with this report.
fn explodes_by<R: Alloc + Abort + Threads + Wait + Sync>(
    rt: &R,
    alloc: Global,
    inputs: &Arc<Inputs>,
    workers: usize,
    want: &str,
)
    requires { IsInRange 1 MOST_WORKERS workers }
{
    let plan = explode(rt, alloc, inputs, workers, &OpenGate).expect(rt, "a plan");
    has_report(rt, alloc, &plan, want);
    drop(plan);
}

// Fails unless all calls give the plan with this report.
fn explodes<R: Alloc + Abort + Threads + Wait + Sync>(
    rt: &R,
    alloc: Global,
    inputs: &Arc<Inputs>,
    want: &str,
) {
    let serial = explode_serial(alloc, inputs).expect(rt, "a plan");
    let levels = explode_levels(rt, alloc, inputs).expect(rt, "a plan");
    has_report(rt, alloc, &serial, want);
    has_report(rt, alloc, &levels, want);
    drop((serial, levels));
    explodes_by(rt, alloc, inputs, 1, want);
    explodes_by(rt, alloc, inputs, 2, want);
    explodes_by(rt, alloc, inputs, 8, want);
    explodes_by(rt, alloc, inputs, 64, want);
}

// Fails unless so many workers refuse the plan with this item, whenever they are asked.
fn is_refused_by<R: Abort + Threads + Wait + Sync>(
    rt: &R,
    alloc: Global,
    inputs: &Arc<Inputs>,
    workers: usize,
    item: usize,
)
    requires { IsInRange 1 MOST_WORKERS workers }
{
    for _ in 0..100u8 {
        let refused = explode(rt, alloc, inputs, workers, &OpenGate).err();
        same(rt, refused, Some(RunFault::TooLarge { item }));
    }
}

// Fails unless all calls refuse the plan with this item.
fn is_refused<R: Abort + Threads + Wait + Sync>(
    rt: &R,
    alloc: Global,
    inputs: &Arc<Inputs>,
    item: usize,
) {
    let over = Some(RunFault::TooLarge { item });
    same(rt, explode_serial(alloc, inputs).err(), over);
    same(rt, explode_levels(rt, alloc, inputs).err(), over);
    is_refused_by(rt, alloc, inputs, 1, item);
    is_refused_by(rt, alloc, inputs, 2, item);
    is_refused_by(rt, alloc, inputs, 8, item);
    is_refused_by(rt, alloc, inputs, 64, item);
}

#[test]
fn shops_explode(rt: HostRuntime) {
    let shops: [(Records, &[(u64, Asked)], &str); 2] = [
        (bicycles_in_lots(), morning(), LOTS_REPORT),
        (screws(), &[], SCREW_REPORT),
    ];
    for (shop, calls, want) in shops {
        let inputs = made(&rt, shop.inputs(rt.alloc(), calls));
        explodes(&rt, rt.alloc(), &inputs, want);
        drop(inputs);
    }
}

#[test]
fn the_first_item_that_gets_too_large_is_told(rt: HostRuntime) {
    let more = Records {
        master: fork().master,
        ..chain()
    };
    for (shop, item) in [(chain(), 3), (more, 2), (fork(), 2)] {
        let inputs = made(&rt, shop.inputs(rt.alloc(), &[]));
        is_refused(&rt, rt.alloc(), &inputs, item);
        drop(inputs);
    }
}
