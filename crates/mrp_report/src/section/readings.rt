//! What the rows of a report are made from.

ghost use Rattle.std.specs.Prelude.{◌≡◌, IfOk};
ghost use Rattle.mrp_master.specs.Supply.{supply_of};

use crate::section::peg_shares::PegShares;
use crate::section::shop_names::ShopNames;
use mrp_item::Plan;
use mrp_load::{LoadTable, loads};
use mrp_master::Supply;
use mrp_qty::NoMemory;
use std::alloc::Global;
use std::thread::Threads;

// What rows are made from: the plan, what promising reads of its shop, the names in the shop's
// tables, what rows of pegs share, and the loads of its work centres.
#[derive(Drop)]
pub(crate) struct Readings<'a> {
    pub plan: &'a Plan,
    pub supply: &'a Supply,
    pub names: ShopNames<'a>,
    pub pegs: PegShares<'a>,
    pub loads: LoadTable,
    ghost supplied: { supply.now ≡ supply_of plan.now.inputs.tables },
    ghost named: { names.tables.now ≡ plan.now.inputs.tables },
    ghost shared: { pegs.tables.now ≡ plan.now.inputs.tables },
    ghost loaded: { loads ≡ plan.now.inputs },
}

impl<'a> Readings<'a> {
    pub(crate) fn of(
        rt: &(impl Threads + Sync),
        alloc: Global,
        plan: &'a Plan,
    ) -> Result<Readings<'a>, NoMemory>
        ensures { IfOk result (λ readings. readings.plan.now ≡ plan.now) }
    {
        let inputs = plan.inputs();
        let names = ShopNames::of(alloc, inputs.shop().tables())?;
        let pegs = PegShares::of(alloc, &names)?;
        Ok(Readings {
            plan,
            supply: inputs.rows().supply(),
            names,
            pegs,
            loads: loads(rt, alloc, plan)?,
        })
    }
}
