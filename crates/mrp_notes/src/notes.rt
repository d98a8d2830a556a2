//! The messages of a plan.

ghost use Rattle.std.specs.Prelude.{◌≡◌, IfOk};
ghost use Rattle.mrp_notes.specs.Messages.{messages_of, plan_messages};

use crate::message::Message;
use crate::told::told;
use mrp_item::{Plan, Planned};
use mrp_qty::NoMemory;
use std::alloc::Global;

/// The messages of an item's plan, in order of its supplies: by week, open receipts and firm orders in table
/// order, then the planned order. For one order, a message about its release comes before one that
/// reschedules or cancels it (APICS Dictionary: action message; profile).
///
/// Errors: `NoMemory` if an allocation fails.
pub fn item_messages(alloc: Global, planned: &Planned) -> Result<Vec<Message>, NoMemory>
    ensures { IfOk result (λ messages. messages.items ≡ messages_of planned.now.inputs planned.now.item planned.now.plan) }
{
    let horizon = planned.inputs().weeks();
    let stock = planned.stock(alloc)?;
    let supplies = planned.supplies(alloc)?;
    let (_, to_come) = supplies.as_slice().split_at(1);
    let gross = planned.gross().as_slice();
    told(alloc, planned.item(), horizon, gross, &stock, to_come)
}

/// The messages of a plan: those of each item, in table order.
///
/// Errors: `NoMemory` if an allocation fails.
pub fn messages(alloc: Global, plan: &Plan) -> Result<Vec<Message>, NoMemory>
    ensures { IfOk result (λ messages. messages.items ≡ plan_messages plan.now.inputs) }
{
    let items = plan.inputs().shop().tables().items().len();
    let mut messages = Vec::new(alloc);
    for item in 0..items {
        let own = item_messages(alloc, plan.item(item))?;
        messages.extend_from_slice(own.as_slice())?;
    }
    Ok(messages)
}
