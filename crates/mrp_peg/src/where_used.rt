//! The where-used list of an item: the bill lines to it, each with the orders of its parent.

ghost use Rattle.std.specs.Prelude.{◌≡◌, ◌==◌, ◌+◌, ◌<◌, ◌≤◌, ◌++◌, ℕ, List, false, filter, length, map, slice_index, OnOk};
ghost use Rattle.std.specs.List.{enumerate_from};
ghost use Rattle.std.specs.List.Sorted.{IsNonDecreasingBy};
ghost use Rattle.mrp_tables.specs.declared.limits.TheConstants.{MOST_ROWS};
ghost use Rattle.mrp_bill.specs.Bill.{line_at, lines_of};
ghost use Rattle.mrp_item.specs.Inputs.{count, horizon, is_master};
ghost use Rattle.mrp_item.specs.Plan.{HasParents, outcome_of, plan_in};
ghost use Rattle.mrp_peg.specs.declared.matching.Requirement.{Requirement};
ghost use Rattle.mrp_peg.specs.Own.{IsOwn};
ghost use Rattle.mrp_peg.specs.Placed.{AreCounted, ArePut};
ghost use Rattle.mrp_peg.specs.Rows.{all_requirements, line_to, line_requirements, order_requirement, parent_requirements, place_to};
ghost use Rattle.mrp_peg.specs.Weekly.{AreWithin};

use crate::matching::Requirement;
use crate::next_orders::NextOrders;
use crate::parents::{UsedBy, add_released, count_all, put_all};
use mrp_item::{Inputs, Plan};
use mrp_qty::NoMemory;
use mrp_tables::BillLine;

// The bill lines to an item of a plan, in the order of the bill table.
#[derive(Clone, Copy)]
pub struct WhereUsed<'a> {
    plan: &'a Plan,
    item: usize,
    bills: &'a [BillLine],
    places: &'a [usize],
    ghost parents: { HasParents plan.now.inputs },
    ghost rising: { (k : ℕ) → IsNonDecreasingBy (λ order. order.release) (plan_in (outcome_of plan.now.inputs k)).orders },
    ghost table: { bills.now ≡ plan.now.inputs.tables.bills },
    ghost lines: { places.now ≡ lines_of plan.now.inputs.tables.bills item },
    ghost few: { length bills.now ≤ MOST_ROWS },
}

// The place in the bill table of one of the lines to an item.
fn place_at(places: &[usize], at: usize) -> usize
    requires { at < length places.now }
    ensures { result ≡ slice_index places.now at }
{
    places[at]
}

// The line at a place of the bill table.
pub fn line_of(bills: &[BillLine], place: usize) -> BillLine
    requires { place < length bills.now }
    ensures { result ≡ line_at bills.now place }
{
    bills[place]
}

impl<'a> WhereUsed<'a> {
    pub fn of(plan: &'a Plan, item: usize) -> WhereUsed<'a>
        requires { item < count plan.now.inputs }
        ensures inputs { result.plan.now.inputs ≡ plan.now.inputs }
        ensures item { result.item ≡ item }
    {
        let inputs: &Inputs = plan.inputs();
        let shop = inputs.shop();
        let bills = shop.tables().bills();
        let places = shop.lines_to(item);
        WhereUsed {
            plan,
            item,
            bills,
            places,
        }
    }

    // How many bill lines there are.
    #[inline(always)]
    pub fn len(&self) -> usize
        ensures { result ≡ length (lines_of self.now.plan.now.inputs.tables.bills self.now.item) }
    {
        self.places.len()
    }

    // One of the bill lines.
    #[inline(always)]
    pub fn line(&self, at: usize) -> UsedBy<'a>
        requires { at < length (lines_of self.now.plan.now.inputs.tables.bills self.now.item) }
        ensures line { result.line ≡ place_to self.now.plan.now.inputs self.now.item at + 1 }
        ensures per { result.per ≡ (line_to self.now.plan.now.inputs self.now.item at).per }
        ensures orders { result.orders.now ≡ (plan_in (outcome_of self.now.plan.now.inputs (line_to self.now.plan.now.inputs self.now.item at).parent)).orders }
        ensures required { line_requirements self.now.plan.now.inputs self.now.item (place_to self.now.plan.now.inputs self.now.item at) ≡ map (order_requirement self.now.item result.line result.per) (enumerate_from 1 result.orders.now) }
        ensures rising { IsNonDecreasingBy (λ order. order.release) result.orders.now }
    {
        let place = place_at(self.places, at);
        let line = line_of(self.bills, place);
        let orders = self.plan.orders(line.parent);
        UsedBy {
            line: place + 1,
            per: line.per,
            orders,
        }
    }

    // Adds what parents' orders require in a week of an item that is no master item, by bill record and
    // then by order. It is faster if the weeks are asked for in order.
    pub fn required_in(
        &self,
        week: u16,
        next: &mut NextOrders,
        needs: &mut Vec<Requirement>,
    ) -> Result<(), NoMemory>
        requires part { is_master self.now.plan.now.inputs self.now.item ≡ false }
        requires own { IsOwn self.now.plan.now.inputs self.now.item }
        requires within { AreWithin (λ requirement. requirement.need.week) 1 (horizon self.now.plan.now.inputs) (all_requirements self.now.plan.now.inputs self.now.item) }
        ensures { OnOk result (needs.new.items ≡ needs.old.items ++ filter (λ requirement. requirement.need.week == week) (parent_requirements self.now.plan.now.inputs self.now.item)) }
    {
        for at in 0..self.len() {
            let by = self.line(at);
            let likely = next.place(at);
            let behind = add_released(needs, self.item, &by, week, likely)?;
            next.set(at, behind);
        }
        Ok(())
    }

    // Counts what parents' orders require of the item.
    pub fn count_required(&self, counts: &mut [usize]) -> Result<(), NoMemory>
        ensures { OnOk result ((count : ℕ) (counted : List Requirement) → AreCounted count counted counts.old
            → AreCounted count (counted ++ parent_requirements self.now.plan.now.inputs self.now.item) counts.new) }
    {
        for at in 0..self.len() {
            count_all(counts, self.line(at).orders)?;
        }
        Ok(())
    }

    // Puts what parents' orders require of an item that is no master item at its places, by bill record and
    // then by order.
    pub fn put_required(&self, needs: &mut [Requirement], next: &mut [usize])
        requires part { is_master self.now.plan.now.inputs self.now.item ≡ false }
        requires own { IsOwn self.now.plan.now.inputs self.now.item }
        requires within { AreWithin (λ requirement. requirement.need.week) 1 (horizon self.now.plan.now.inputs) (all_requirements self.now.plan.now.inputs self.now.item) }
        ensures { (count : ℕ) (placed rest : List Requirement)
            → ArePut count placed (parent_requirements self.now.plan.now.inputs self.now.item ++ rest) next.old needs.old
            → ArePut count (placed ++ parent_requirements self.now.plan.now.inputs self.now.item) rest next.new needs.new }
    {
        for at in 0..self.len() {
            put_all(needs, next, self.item, &self.line(at));
        }
    }
}
