//! The supplies of a planned item, in their order.

ghost use Rattle.std.specs.Prelude.{◌≡◌, ◌++◌, map, IfOk, OnOk};
ghost use Rattle.std.specs.List.{enumerate_from};
ghost use Rattle.mrp_item.specs.Supplies.{due_supply, order_supply};

use crate::due::Due;
use crate::inputs::Inputs;
use crate::order::Order;
use crate::planned::Planned;
use mrp_qty::{NoMemory, Qty};
use std::alloc::Global;

/// The source of a supply that covers requirements of an item.
#[derive(Clone, Copy, Debug, PartialEq, Eq)]
pub enum Supplied {
    /// The stock on hand.
    Stock,
    /// The open receipt with this record number, from 1.
    Receipt(u64),
    /// The item's order with this number, from 1.
    Order(usize),
}

/// A supply of an item.
#[derive(Clone, Copy, Debug, PartialEq, Eq)]
pub struct Supply {
    /// Its source.
    pub source: Supplied,
    /// The week in which it is due, from 1; 0 for stock on hand.
    pub week: u16,
    /// The pieces.
    pub quantity: Qty,
    /// The order, if it is one.
    pub order: Option<Order>,
}

// Appends open receipts.
fn add_receipts(supplies: &mut Vec<Supply>, receipts: &[Due]) -> Result<(), NoMemory>
    ensures { OnOk result (supplies.new.items ≡ supplies.old.items ++ map due_supply receipts.now) }
{
    for receipt in receipts {
        supplies.push(Supply {
            source: Supplied::Receipt(receipt.number),
            week: receipt.week,
            quantity: receipt.quantity,
            order: None,
        })?;
    }
    Ok(())
}

// Appends orders, with their numbers.
fn add_orders(supplies: &mut Vec<Supply>, orders: &[Order]) -> Result<(), NoMemory>
    ensures { OnOk result (supplies.new.items ≡ supplies.old.items ++ map (λ o. order_supply o.0 o.1) (enumerate_from 1 orders.now)) }
{
    for (place, order) in orders.iter().enumerate() {
        supplies.push(Supply {
            source: Supplied::Order(place + 1),
            week: order.due,
            quantity: order.quantity,
            order: Some(*order),
        })?;
    }
    Ok(())
}

impl Planned {
    ghost use Rattle.std.specs.Prelude.{◌≡◌, IfOk};
    ghost use Rattle.mrp_item.specs.Supplies.{supplies_of};

    /// The supplies of the item, in their order: stock on hand; then by week the open receipts in table
    /// order and the orders by their numbers, firm ones before the planned one (profile).
    ///
    /// Errors: `NoMemory` if an allocation fails.
    pub fn supplies(&self, alloc: Global) -> Result<Vec<Supply>, NoMemory>
        ensures { IfOk result (λ supplies. supplies.items ≡ supplies_of self.now.inputs self.now.item self.now.plan.orders) }
    {
        let inputs: &Inputs = self.inputs();
        let item = self.item();
        let receipts = inputs.receipts(item);
        let orders = self.orders();
        let room = receipts.len().saturating_add(orders.len());
        let mut supplies = Vec::with_capacity(alloc, room.saturating_add(1))?;
        let on_hand = inputs.on_hand(item);
        supplies.push(Supply {
            source: Supplied::Stock,
            week: 0,
            quantity: on_hand,
            order: None,
        })?;
        add_receipts(&mut supplies, receipts)?;
        add_orders(&mut supplies, orders)?;
        supplies.sort_by_key(|supply| supply.week)?;
        Ok(supplies)
    }
}
