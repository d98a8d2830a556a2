//! Planned receipts.

ghost use Rattle.std.specs.Prelude.{◌≡◌, ◌≤◌, ◌<◌, [], length, vec_capacity, IfOk, IfErr, IsErrOf};
ghost use Rattle.mrp_qty.specs.Quantity.{greatest_quantity};
ghost use Rattle.mrp_phase.specs.Weeks.{in_week, row};
ghost use Rattle.mrp_net.specs.Need.{IsNeed};
ghost use Rattle.mrp_lots.specs.Lots.{receipts};

use crate::lot::Lot;
use mrp_net::{NeedRow, NetFault};
use mrp_phase::Weeks;
use mrp_qty::Qty;
use std::alloc::Global;

/// The planned receipts up to each week, by a lot rule, from the net requirements up to each week.
///
/// Errors: `TooLarge` if the receipts up to the last week pass the greatest quantity, `NoMemory`
/// if the row cannot be allocated.
pub fn receipts<L: Lot>(alloc: Global, needs: &NeedRow, lot: &L) -> Result<Weeks<Qty>, NetFault>
    ensures value { IfOk result (λ w. w ≡ row (length needs.now) (receipts (L.rule lot.now) (length needs.now) (in_week needs.now))) }
    ensures too_large { IsErrOf result NetFault.TooLarge → greatest_quantity < receipts (L.rule lot.now) (length needs.now) (in_week needs.now) (length needs.now) }
{
    let needs = needs.as_slice();
    let room = Vec::with_capacity(alloc, needs.len())?;
    receipts_in(room, needs, lot)
}

// The same, in room that was reserved for them; `TooLarge` if they pass the greatest quantity, and no
// other fault. It does not allocate.
#[tactic(auto, using(mrp_phase::proofs::WeekRows::row_none, mrp_phase::proofs::WeekRows::row_more, crate::specs::LotLaws::receipts_none, crate::specs::LotLaws::receipts_more))]
fn receipts_in<L: Lot>(room: Vec<Qty>, needs: &[Qty], lot: &L) -> Result<Weeks<Qty>, NetFault>
    requires empty { room.items ≡ [] }
    requires room { length needs.now ≤ vec_capacity room }
    requires rises { IsNeed (length needs.now) (in_week needs.now) }
    ensures value { IfOk result (λ w. w ≡ row (length needs.now) (receipts (L.rule lot.now) (length needs.now) (in_week needs.now))) }
    ensures too_large { IfErr result (λ fault. (fault ≡ NetFault.TooLarge) × (greatest_quantity < receipts (L.rule lot.now) (length needs.now) (in_week needs.now) (length needs.now))) }
{
    let mut received = room;
    let mut before = Qty::new(0).unwrap();
    for i in 0..needs.len() {
        before = match lot.receive(needs, i, before) {
            Some(next) => next,
            None => return Err(NetFault::TooLarge),
        };
        received.push_reserved(before);
    }
    Ok(Weeks::from_vec(received))
}
