//! The pegs of an item, one at a time.

ghost use Rattle.std.specs.Prelude.{◌≡◌, ◌<◌, ◌≤◌, ◌+◌, ◌++◌, [], Some, length, slice_get, IfOk, OnOk};
ghost use Rattle.std.specs.Option.{option_map};
ghost use Rattle.mrp_item.specs.Inputs.{count};
ghost use Rattle.mrp_peg.specs.Groups.{IsPassed, group_pegs, needs_at};
ghost use Rattle.mrp_peg.specs.Left.{IsFilled, IsNext, amount_of_offer, listed_left, offered_left, pegs_between, pegs_left, shown, required_left};
ghost use Rattle.mrp_peg.specs.Matching.{amount_required};
ghost use Rattle.mrp_peg.specs.Pegging.{pegs_of, requirements, supplies};
ghost use Rattle.mrp_peg.specs.Units.{total};

use crate::matching::{Offered, Requirement, lesser};
use crate::needs_left::NeedsLeft;
use crate::peg::Peg;
use crate::peg_group::{PegGroup, count_whole};
use crate::supplies_left::SuppliesLeft;
use mrp_item::Plan;
use mrp_qty::NoMemory;
use std::alloc::Global;

// The peg of the first supply and the first requirement. The one that ends is passed, or both if they end
// together.
#[inline(always)]
fn serve(
    item: usize,
    needs: &mut NeedsLeft<'_>,
    supplies: &mut SuppliesLeft,
    requirement: Requirement,
    offered: Offered,
) -> Peg
    requires requirement { Some (amount_required requirement) ≡ slice_get (listed_left needs.old) 0 }
    requires offered { Some (amount_of_offer offered) ≡ slice_get (offered_left supplies.old) 0 }
    ensures told { pegs_between item (required_left needs.old) (offered_left supplies.old) ≡ shown result ++ pegs_between item (required_left needs.new) (offered_left supplies.new) }
    ensures shorter { length (required_left needs.new) + length (offered_left supplies.new) < length (required_left needs.old) + length (offered_left supplies.old) }
{
    let quantity = lesser(requirement.quantity, offered.quantity);
    needs.take(quantity);
    supplies.take(quantity);
    Peg {
        item,
        need: Some(requirement.need),
        supply: offered.source,
        quantity,
    }
}

// The surplus of the first supply, once nothing more is required.
fn surplus(item: usize, needs: &NeedsLeft<'_>, supplies: &mut SuppliesLeft, offered: Offered) -> Peg
    requires none { required_left needs.now ≡ [] }
    requires offered { Some (amount_of_offer offered) ≡ slice_get (offered_left supplies.old) 0 }
    ensures told { pegs_between item (required_left needs.now) (offered_left supplies.old) ≡ shown result ++ pegs_between item (required_left needs.now) (offered_left supplies.new) }
    ensures shorter { length (offered_left supplies.new) < length (offered_left supplies.old) }
{
    supplies.pass();
    Peg {
        item,
        need: None,
        supply: offered.source,
        quantity: offered.quantity,
    }
}

// The next peg of what is left.
fn next_peg(
    item: usize,
    needs: &mut NeedsLeft<'_>,
    supplies: &mut SuppliesLeft,
) -> Result<Option<Peg>, NoMemory>
    ensures { IfOk result (λ peg. IsNext (pegs_between item (required_left needs.old) (offered_left supplies.old)) peg (pegs_between item (required_left needs.new) (offered_left supplies.new))) }
{
    while let Some(offered) = supplies.first() {
        let peg = match needs.first()? {
            Some(requirement) => serve(item, needs, supplies, requirement, offered),
            None => surplus(item, needs, supplies, offered),
        };
        if peg.quantity.value() > 0 {
            return Ok(Some(peg));
        }
    }
    Ok(None)
}

/// The pegs of an item, one at a time, in order of requirement and supply, surplus last. Each is
/// made when it is asked for. Memory holds the item's requirements, or those of one week if they
/// may be many.
#[derive(Drop)]
pub struct PegWalk<'a> {
    item: usize,
    needs: NeedsLeft<'a>,
    supplies: SuppliesLeft,
}

impl<'a> PegWalk<'a> {
    /// A walk over all pegs of an item, by its place in the table. The caller guarantees that the
    /// shop has the item. Its supplies cover its requirements.
    ///
    /// Errors: `NoMemory` if an allocation fails.
    pub fn of(alloc: Global, plan: &'a Plan, item: usize) -> Result<PegWalk<'a>, NoMemory>
        requires { item < count plan.now.inputs }
        ensures pegs { IfOk result (λ walk. pegs_left walk ≡ pegs_of plan.now.inputs item) }
        ensures covered { OnOk result (total (requirements plan.now.inputs item) ≤ total (supplies plan.now.inputs item)) }
    {
        let needs = NeedsLeft::of(alloc, plan, item)?;
        let supplies = plan.item(item).supplies(alloc)?;
        Ok(PegWalk {
            item,
            needs,
            supplies: SuppliesLeft::of(supplies),
        })
    }

    /// The next peg; `None` once all were given, and from then on.
    ///
    /// Errors: `NoMemory` if an allocation fails. What is left is then unspecified.
    pub fn next(&mut self) -> Result<Option<Peg>, NoMemory>
        ensures { IfOk result (λ peg. IsNext (pegs_left self.old) peg (pegs_left self.new)) }
    {
        next_peg(self.item, &mut self.needs, &mut self.supplies)
    }

    /// The next pegs, as far as one supply serves whole requirements of one week, and at most 64. There are none if
    /// the next peg is another, or if there is no more.
    ///
    /// Errors: `NoMemory` if an allocation fails. What is left is then unspecified.
    pub fn next_group(&mut self) -> Result<PegGroup, NoMemory>
        ensures pegs { IfOk result (λ group. pegs_left self.old ≡ group_pegs self.new group ++ pegs_left self.new) }
        ensures passed { IfOk result (IsPassed self.new) }
    {
        let item = self.item;
        let (Some(offered), Some(first)) = (self.supplies.first(), self.needs.first()?) else {
            return Ok(PegGroup::none(item));
        };
        let week = first.need.week;
        let (count, pieces) = count_whole(self.needs.at_hand(), week, offered.quantity);
        self.supplies.take(pieces);
        let first = self.needs.pass(count);
        Ok(PegGroup {
            item,
            week,
            supply: offered.source,
            first,
            past: first + count,
        })
    }

    /// The requirements of the group of pegs that was passed last.
    #[inline(always)]
    pub fn needs(&self, group: &PegGroup) -> &[Requirement]
        requires { IsPassed self.now group.now }
        ensures { result.now ≡ needs_at self.now group.now }
    {
        self.needs.between(group.first, group.past)
    }
}
