//! The loads and capacities of work centres, week by week.

use mrp_item::Inputs;
use mrp_qty::{Milli, NoMemory};
use std::alloc::Global;
use std::marker::Model;
use std::sync::Arc;

/// The loads of a plan's work centres in the weeks of its horizon. Contracts see it as the inputs
/// of the plan.
#[derive(Drop)]
pub struct LoadTable {
    inputs: Arc<Inputs>,
    // The load of each centre in each week, in thousandths of a minute.
    rows: Vec<Vec<u128>>,
}

impl Model for LoadTable {
    ghost use Rattle.mrp_item.specs.Inputs.{Inputs};

    ghost Value = { Inputs };

    ghost use Rattle.mrp_load.specs.Kept.{AreLoads};

    ghost view = { λ table. table.inputs.value };

    ghost invariant = { λ table. AreLoads table.inputs.value table.rows.items };
}

impl LoadTable {
    ghost use Rattle.std.specs.Prelude.{◌≡◌, ◌<◌, ◌++◌, length, IfOk, OnOk};
    ghost use Rattle.std.specs.Int.{IsInRange};
    ghost use Rattle.mrp_item.specs.Inputs.{horizon};
    ghost use Rattle.mrp_load.specs.Kept.{AreLoads};
    ghost use Rattle.mrp_load.specs.Loads.{capacity, load, over, overloads, overloads_at};

    // The loads of all centres.
    pub(crate) fn new(inputs: Arc<Inputs>, rows: Vec<Vec<u128>>) -> LoadTable
        requires { AreLoads inputs.value rows.items }
        ensures { result ≡ inputs.value }
    {
        LoadTable { inputs, rows }
    }

    /// The load of a work centre, by its place, in a week: the sum of the standard times of all
    /// operations there, in thousandths of a minute (APICS Dictionary: load). The caller guarantees
    /// a centre of the shop and a week of the horizon.
    pub fn load(&self, centre: usize, week: u16) -> Milli
        requires centre { centre < length self.now.tables.centres }
        requires week { IsInRange 1 (horizon self.now) week }
        ensures { result ≡ load self.now centre week }
    {
        Milli::new(self.rows[centre][usize::from(week) - 1])
    }

    /// The capacity of a work centre, by its place, in a week: its minutes on each shop day of the
    /// week, in thousandths of a minute (APICS Dictionary: capacity available). The caller
    /// guarantees a centre of the shop and a week of the horizon.
    pub fn capacity(&self, centre: usize, week: u16) -> Milli
        requires centre { centre < length self.now.tables.centres }
        requires week { IsInRange 1 (horizon self.now) week }
        ensures { result ≡ capacity self.now centre week }
    {
        let tables = self.inputs.shop().tables();
        let minutes = u128::from(tables.centres()[centre].minutes);
        let days = u128::from(tables.calendar().shop_days(week));
        Milli::new(1000 * (minutes * days))
    }

    /// By how much the load of a work centre, by its place, in a week exceeds its capacity, in
    /// thousandths of a minute; 0 if it does not. The caller guarantees a centre of the shop and a
    /// week of the horizon.
    pub fn over(&self, centre: usize, week: u16) -> Milli
        requires centre { centre < length self.now.tables.centres }
        requires week { IsInRange 1 (horizon self.now) week }
        ensures { result ≡ over self.now centre week }
    {
        let load = self.load(centre, week).value();
        Milli::new(load.saturating_sub(self.capacity(centre, week).value()))
    }

    // Appends a centre's overloads.
    fn add_overloads(
        &self,
        all: &mut Vec<(usize, u16, Milli)>,
        centre: usize,
    ) -> Result<(), NoMemory>
        requires { centre < length self.now.tables.centres }
        ensures { OnOk result (all.new.items ≡ all.old.items ++ overloads_at self.now centre) }
    {
        for place in 0..self.inputs.weeks() {
            let week = place + 1;
            let over = self.over(centre, week);
            if over.value() > 0 {
                all.push((centre, week, over))?;
            }
        }
        Ok(())
    }

    /// The weeks in which work centres are loaded above their capacity (APICS Dictionary:
    /// overload): centre by its place, week, and by how many thousandths of a minute. Centres are
    /// in table order, the weeks of each in order.
    ///
    /// Errors: `NoMemory` if an allocation fails.
    pub fn overloads(&self, alloc: Global) -> Result<Vec<(usize, u16, Milli)>, NoMemory>
        ensures { IfOk result (λ all. all.items ≡ overloads self.now) }
    {
        let mut all = Vec::new(alloc);
        for centre in 0..self.rows.len() {
            self.add_overloads(&mut all, centre)?;
        }
        Ok(all)
    }
}
