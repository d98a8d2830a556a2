//! The messages about the supplies of an item.

ghost use Rattle.std.specs.Prelude.{◌≡◌, ◌≤◌, ◌+◌, ◌++◌, [], length, map, sum, IfOk, OnOk};
ghost use Rattle.std.specs.List.{cons_option};
ghost use Rattle.mrp_qty.specs.Quantity.{greatest_quantity};
ghost use Rattle.mrp_notes.specs.Told.{message, told};

use crate::covered::Covered;
use crate::message::{Advice, Message};
use crate::release::action_on;
use mrp_item::{Supplied, Supply};
use mrp_net::Stock;
use mrp_qty::{NoMemory, Qty};
use std::alloc::Global;

// Appends a message, if there is advice.
fn tell(
    messages: &mut Vec<Message>,
    item: usize,
    supply: Supplied,
    advice: Option<Advice>,
) -> Result<(), NoMemory>
    ensures { OnOk result (messages.new.items ≡ messages.old.items ++ map (message item supply) (cons_option advice [])) }
{
    if let Some(advice) = advice {
        messages.push(Message {
            item,
            supply,
            advice,
        })?;
    }
    Ok(())
}

// The messages about the supplies of an item, by its gross requirements in each week of the horizon.
pub fn told(
    alloc: Global,
    item: usize,
    horizon: u16,
    gross: &[Qty],
    stock: &Stock,
    supplies: &[Supply],
) -> Result<Vec<Message>, NoMemory>
    requires weeks { length gross.now ≡ horizon }
    requires within { sum gross.now + stock.now.safety ≤ greatest_quantity }
    ensures { IfOk result (λ messages. messages.items ≡ told item gross.now stock.now supplies.now) }
{
    let mut messages = Vec::new(alloc);
    let mut covered = Covered::start(stock.on_hand);
    for supply in supplies {
        tell(&mut messages, item, supply.source, action_on(supply))?;
        let advice = covered.advice(horizon, gross, stock.safety, supply);
        tell(&mut messages, item, supply.source, advice)?;
    }
    Ok(messages)
}
