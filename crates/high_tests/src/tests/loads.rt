//! Overloads of work centres.

use super::{made, same};
use mrp_load::loads;
use mrp_qty::Milli;
use sample_shops::{Records, bicycles_in_lots, morning};

#[test]
fn welding_is_over_in_the_first_week(rt: HostRuntime) {
    let alloc = rt.alloc();
    let shop = Records {
        centres: "SAW,0\nWELD,20\n",
        routings: "FRAME,10,WELD,30,2500,0\n",
        ..bicycles_in_lots()
    };
    let plan = made(&rt, shop.plan(alloc, morning()));
    let table = loads(&rt, alloc, &plan).expect(&rt, "loads");
    let over = table.overloads(alloc).expect(&rt, "overloads");
    same(&rt, over.as_slice(), &[(1, 1, Milli::new(75_000))]);
    drop((plan, table));
    drop(over);
}
