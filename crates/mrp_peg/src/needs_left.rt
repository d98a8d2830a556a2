//! What is left of the requirements of an item. They are listed at once, or a week at a time if they may be
//! many.

ghost use Rattle.std.specs.Prelude.{◌≡◌, ◌<◌, ◌≤◌, ◌+◌, drop, slice_get, slice_range, vec_len, IfOk, IfSome, OnOk};
ghost use Rattle.std.specs.Option.{option_map};
ghost use Rattle.mrp_item.specs.Inputs.{count};
ghost use Rattle.mrp_peg.specs.Left.{IsFilled, listed_left, served, required_left};
ghost use Rattle.mrp_peg.specs.Matching.{amount_required};
ghost use Rattle.mrp_peg.specs.Pegging.{requirements, supplies};
ghost use Rattle.mrp_peg.specs.Units.{total};

use crate::matching::{Requirement, less};
use crate::next_orders::NextOrders;
use crate::part::Part;
use crate::pegging::{is_master_item, needs_of};
use crate::where_used::WhereUsed;
use mrp_item::{Inputs, Plan};
use mrp_qty::{NoMemory, Qty};
use std::alloc::Global;

// The requirements of an item from a place on; the first has what is left of it. All are listed, or
// those up to a week if they may be many.
#[derive(Drop)]
pub struct NeedsLeft<'a> {
    part: Option<Part<'a>>,
    week: u16,
    next: NextOrders,
    needs: Vec<Requirement>,
    place: usize,
}

// The most requirements of a part that are listed at once: about three megabytes.
const AT_ONCE: usize = 32_768;

// Whether a part with so many service rows has at most that many requirements even if each parent has an
// order every week.
fn are_few(used: &WhereUsed<'_>, services: usize, weeks: u16) -> bool {
    let weekly = used.len().saturating_mul(usize::from(weeks));
    if weekly.saturating_add(services) > AT_ONCE {
        return false;
    }
    let mut left = AT_ONCE.saturating_sub(services);
    for at in 0..used.len() {
        let orders = used.line(at).orders.len();
        if left < orders {
            return false;
        }
        left -= orders;
    }
    true
}

impl<'a> NeedsLeft<'a> {
    // All requirements of an item, listed. The item's supplies cover them.
    fn listed(alloc: Global, plan: &'a Plan, item: usize) -> Result<NeedsLeft<'a>, NoMemory>
        requires { item < count plan.now.inputs }
        ensures needs { IfOk result (λ left. required_left left ≡ requirements plan.now.inputs item) }
        ensures covered { OnOk result (total (requirements plan.now.inputs item) ≤ total (supplies plan.now.inputs item)) }
    {
        let needs = needs_of(alloc, plan, item)?;
        Ok(NeedsLeft {
            part: None,
            week: 0,
            next: NextOrders::of(alloc, 0)?,
            needs,
            place: 0,
        })
    }

    // All requirements of an item. The item's supplies cover them.
    pub fn of(alloc: Global, plan: &'a Plan, item: usize) -> Result<NeedsLeft<'a>, NoMemory>
        requires { item < count plan.now.inputs }
        ensures needs { IfOk result (λ left. required_left left ≡ requirements plan.now.inputs item) }
        ensures covered { OnOk result (total (requirements plan.now.inputs item) ≤ total (supplies plan.now.inputs item)) }
    {
        let inputs: &Inputs = plan.inputs();
        // Codes rank the items.
        let _ranked = inputs.shop();
        if is_master_item(inputs, item) {
            return NeedsLeft::listed(alloc, plan, item);
        }
        let used = WhereUsed::of(plan, item);
        if are_few(&used, inputs.services(item).len(), inputs.weeks()) {
            return NeedsLeft::listed(alloc, plan, item);
        }
        let part = Part { plan, item, used };
        Ok(NeedsLeft {
            part: Some(part),
            week: 0,
            next: part.first_orders(alloc)?,
            needs: Vec::new(alloc),
            place: 0,
        })
    }

    // Once all listed requirements are passed, lists those of the next week that has any.
    fn fill(&mut self) -> Result<(), NoMemory>
        ensures left { OnOk result (required_left self.new ≡ required_left self.old) }
        ensures filled { OnOk result (IsFilled self.new) }
    {
        if let Some(part) = self.part {
            let weeks = part.weeks();
            while self.place >= self.needs.len() && self.week < weeks {
                part.list(self.week + 1, &mut self.next, &mut self.needs)?;
                self.place = 0;
                self.week += 1;
            }
        }
        Ok(())
    }

    // The first requirement, with what is left of it.
    //
    // Errors: `NoMemory` if an allocation fails.
    #[inline(always)]
    pub fn first(&mut self) -> Result<Option<Requirement>, NoMemory>
        ensures left { OnOk result (required_left self.new ≡ required_left self.old) }
        ensures filled { OnOk result (IsFilled self.new) }
        ensures first { IfOk result (λ first. option_map amount_required first ≡ slice_get (listed_left self.new) 0) }
        ensures listed { IfOk result (λ first. IfSome first (λ _. self.new.place < vec_len self.new.needs)) }
    {
        if self.place >= self.needs.len() {
            self.fill()?;
        }
        Ok(self.needs.get(self.place).copied())
    }

    // The requirements that are left and listed.
    #[inline(always)]
    pub fn at_hand(&self) -> &[Requirement]
        requires { self.now.place ≤ vec_len self.now.needs }
        ensures { result.now ≡ drop self.now.place self.now.needs.items }
    {
        &self.needs[self.place..]
    }

    // The listed requirements between two places.
    #[inline(always)]
    pub fn between(&self, first: usize, past: usize) -> &[Requirement]
        requires { (first ≤ past) × (past ≤ vec_len self.now.needs) }
        ensures { result.now ≡ slice_range self.now.needs.items first past }
    {
        &self.needs[first..past]
    }

    // Passes the first listed requirements, and returns the place of the first.
    #[inline(always)]
    pub fn pass(&mut self, count: usize) -> usize
        requires { self.old.place + count ≤ vec_len self.old.needs }
        ensures first { result ≡ self.old.place }
        ensures needs { self.new.needs ≡ self.old.needs }
        ensures place { self.new.place ≡ self.old.place + count }
        ensures to_come { (self.new.part ≡ self.old.part) × (self.new.week ≡ self.old.week) }
    {
        let first = self.place;
        self.place = first + count;
        first
    }

    // Takes pieces of the first listed requirement, and passes it once none are left.
    #[inline(always)]
    pub fn take(&mut self, quantity: Qty)
        ensures listed { listed_left self.new ≡ served quantity (listed_left self.old) }
        ensures to_come { (self.new.part ≡ self.old.part) × (self.new.week ≡ self.old.week) }
    {
        if self.place < self.needs.len() {
            let left = less(self.needs[self.place].quantity, quantity);
            self.needs[self.place].quantity = left;
            self.place += usize::from(left.value() == 0);
        }
    }
}
