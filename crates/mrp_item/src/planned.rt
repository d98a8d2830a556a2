//! The plan of an item.

use crate::inputs::Inputs;
use crate::order::Order;
use mrp_phase::Weeks;
use mrp_qty::{NoMemory, Qty};
use std::marker::Model;
use std::sync::Arc;

// The rows of an item's plan. What its components and their pegs read comes first, next to the counts of its `Arc`.
#[derive(Drop)]
pub struct PlanRows {
    pub started: Weeks<Qty>,
    pub orders: Vec<Order>,
    pub receipts: Weeks<Qty>,
    pub gross: Weeks<Qty>,
}

/// An item's plan, for the inputs that it holds. Its copies share its rows.
#[derive(Drop)]
pub struct Planned {
    inputs: Arc<Inputs>,
    item: usize,
    rows: Arc<PlanRows>,
}

impl Model for Planned {
    ghost use Rattle.mrp_item.specs.Places.{PlannedItem};

    ghost Value = { PlannedItem };

    ghost use Rattle.mrp_item.specs.Kept.{planned_view, IsPlanned};

    ghost view = { planned_view };

    ghost invariant = { IsPlanned };
}

impl Planned {
    ghost use Rattle.std.specs.Prelude.{◌≡◌, ◌<◌, IfOk};
    ghost use Rattle.mrp_phase.specs.Weeks.{row};
    ghost use Rattle.mrp_item.specs.Inputs.{count, horizon};
    ghost use Rattle.mrp_item.specs.Orders.{started_in};
    ghost use Rattle.mrp_item.specs.Plan as plan;
    ghost use Rattle.mrp_item.specs.Plan.{outcome_of};
    ghost use Rattle.mrp_item.specs.Kept.{AreRowsOf, plan_in_rows};

    // The plan of an item, from its rows.
    pub(crate) fn new(inputs: Arc<Inputs>, item: usize, rows: Arc<PlanRows>) -> Planned
        requires within { item < count inputs.value }
        requires rows { AreRowsOf inputs.value item rows.value }
        ensures { result ≡ record { inputs = inputs.value; item = item; plan = plan_in_rows rows.value } }
    {
        Planned { inputs, item, rows }
    }

    /// The inputs that the item is planned from.
    pub fn inputs(&self) -> &Arc<Inputs>
        ensures inputs { result.now.value ≡ self.now.inputs }
        ensures outcome { outcome_of self.now.inputs self.now.item ≡ plan.Planned self.now.plan }
    {
        &self.inputs
    }

    /// The item, by its place.
    pub fn item(&self) -> usize
        ensures item { result ≡ self.now.item }
        ensures within { result < count self.now.inputs }
    {
        self.item
    }

    /// The gross requirements of each week.
    pub fn gross(&self) -> &Weeks<Qty>
        ensures gross { result.now ≡ self.now.plan.gross }
        ensures outcome { outcome_of self.now.inputs self.now.item ≡ plan.Planned self.now.plan }
    {
        &self.rows.gross
    }

    /// The planned receipts up to each week.
    pub fn receipts(&self) -> &Weeks<Qty>
        ensures receipts { result.now ≡ self.now.plan.receipts }
        ensures outcome { outcome_of self.now.inputs self.now.item ≡ plan.Planned self.now.plan }
    {
        &self.rows.receipts
    }

    /// The orders, by due week, firm ones first; an order's number is its place from 1.
    pub fn orders(&self) -> &[Order]
        ensures orders { result.now ≡ self.now.plan.orders }
        ensures outcome { outcome_of self.now.inputs self.now.item ≡ plan.Planned self.now.plan }
    {
        self.rows.orders.as_slice()
    }

    /// The starts in each week: those of the orders released there.
    pub fn started(&self) -> &Weeks<Qty>
        ensures started { result.now ≡ row (horizon self.now.inputs) (started_in self.now.plan.orders) }
        ensures outcome { outcome_of self.now.inputs self.now.item ≡ plan.Planned self.now.plan }
    {
        &self.rows.started
    }

    // The plan of the item for other inputs, for which it has the same outcome. It shares the rows.
    pub(crate) fn over(&self, inputs: &Arc<Inputs>) -> Result<Planned, NoMemory>
        requires tables { self.now.inputs.tables ≡ inputs.now.value.tables }
        requires outcome { outcome_of self.now.inputs self.now.item ≡ outcome_of inputs.now.value self.now.item }
        ensures { IfOk result (λ planned. planned ≡ record self.now { inputs = inputs.now.value }) }
    {
        let inputs = inputs.clone()?;
        let rows = self.rows.clone()?;
        let item = self.item;
        Ok(Planned { inputs, item, rows })
    }

    /// An equal plan, which shares the rows.
    ///
    /// Errors: `NoMemory` if a reference count cannot rise.
    pub fn copy(&self) -> Result<Planned, NoMemory>
        ensures { IfOk result (λ copy. copy ≡ self.now) }
    {
        let inputs = self.inputs.clone()?;
        let rows = self.rows.clone()?;
        Ok(Planned {
            inputs,
            item: self.item,
            rows,
        })
    }
}
