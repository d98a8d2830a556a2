//! The steps of the walk.

ghost use Rattle.std.specs.Prelude.{◌≡◌, ◌≢◌, ◌<◌, ◌-◌, ℕ, IsTrue, ◌↔◌, true, false, length, slice_index, OnOk, IfOk};
ghost use Rattle.mrp_bill.specs.Bill.{HoldsEachOnce};
ghost use Rattle.mrp_bill.specs.Climb.{IsClimb, IsSettled, KeepsMet, Opens, Passes, Places, stage_at, work};
ghost use Rattle.mrp_bill.specs.declared.climb.Stage.TheVariants.{New};
ghost use Rattle.mrp_bill.specs.Links.{Leads};
ghost use Rattle.mrp_bill.specs.Grouped.{IsListed, listed};

use super::{Climb, Order, Stage};
use crate::groups::Grouped;
use mrp_qty::NoMemory;
use std::alloc::Global;

// The number of each item's parents.
fn counts(alloc: Global, parents: &Grouped<usize>) -> Result<Vec<usize>, NoMemory>
    ensures size { IfOk result (λ counts. length counts.items ≡ length parents.now) }
    ensures counts { IfOk result (λ counts. (i : ℕ) → i < length parents.now → slice_index counts.items i ≡ length (listed parents.now i)) }
{
    let mut counts = Vec::with_capacity(alloc, parents.count())?;
    for item in 0..parents.count() {
        counts.push(parents.group(item).len())?;
    }
    Ok(counts)
}

impl Climb {
    fn start(alloc: Global, parents: &Grouped<usize>) -> Result<Climb, NoMemory>
        ensures climb { IfOk result (IsClimb parents.now) }
        ensures empty { IfOk result (λ climb. length climb.stack.items ≡ 0) }
    {
        let stages = vec![in alloc; Stage::New; parents.count()]?;
        let left = counts(alloc, parents)?;
        Ok(Climb {
            stages,
            left,
            stack: Vec::new(alloc),
            order: Vec::new(alloc),
            closed: false,
        })
    }

    fn is_new(&self, item: usize) -> bool
        requires { item < length self.now.stages.items }
        ensures { IsTrue result ↔ (stage_at self.now.stages.items item ≡ New) }
    {
        match self.stages[item] {
            Stage::New => true,
            Stage::Open(_) => false,
            Stage::Placed(_) => false,
        }
    }

    // Pushes a new item onto the stack.
    fn visit(&mut self, item: usize) -> Result<(), NoMemory>
        requires { item < length self.old.stages.items }
        ensures { OnOk result (Opens self.old self.new item) }
    {
        let depth = self.stack.len();
        self.stack.push(item)?;
        self.stages[item] = Stage::Open(depth);
        Ok(())
    }

    // Moves the item on top of the stack to the end of the order.
    fn place(&mut self, item: usize) -> Result<(), NoMemory>
        requires { item < length self.old.stages.items }
        ensures { OnOk result (Places self.old self.new item) }
    {
        let place = self.order.len();
        self.order.push(item)?;
        self.stages[item] = Stage::Placed(place);
        let _ = self.stack.pop();
        Ok(())
    }

    // Sets the number of parents that an item has not passed.
    fn pass(&mut self, item: usize, left: usize, closes: bool)
        requires { item < length self.old.left.items }
        ensures { Passes self.old self.new item left closes }
    {
        self.left[item] = left;
        self.closed = self.closed || closes;
    }

    // One step at the item on top of the stack: up to its next parent, or back down.
    fn step(&mut self, parents: &Grouped<usize>, item: usize) -> Result<(), NoMemory>
        requires within { (p i : ℕ) → IsListed parents.now p i → p < length parents.now }
        requires climb { IsClimb parents.now self.old }
        requires some { 0 < length self.old.stack.items }
        requires top { item ≡ slice_index self.old.stack.items (length self.old.stack.items - 1) }
        ensures climb { OnOk result (IsClimb parents.now self.new) }
        ensures nearer { OnOk result (work self.new < work self.old) }
        ensures met { OnOk result (KeepsMet self.old self.new) }
    {
        let left = self.left[item];
        if left == 0 {
            return self.place(item);
        }
        let above = parents.group(item);
        let parent = above[left - 1];
        match self.stages[parent] {
            Stage::New => return self.visit(parent),
            Stage::Open(_) => self.pass(item, left - 1, true),
            Stage::Placed(_) => self.pass(item, left - 1, false),
        }
        Ok(())
    }

    // Walks until the stack is empty.
    fn finish(&mut self, parents: &Grouped<usize>) -> Result<(), NoMemory>
        requires within { (p i : ℕ) → IsListed parents.now p i → p < length parents.now }
        requires climb { IsClimb parents.now self.old }
        ensures climb { OnOk result (IsClimb parents.now self.new) }
        ensures empty { OnOk result (length self.new.stack.items ≡ 0) }
        ensures met { OnOk result (KeepsMet self.old self.new) }
    {
        while let Some(item) = self.stack.last().copied() {
            self.step(parents, item)?;
        }
        Ok(())
    }
}

// All items, each once, and each after its parents if there is no loop. Each parent of each item is
// visited at most twice, once when it is new and once when the item passes it: this is linear in
// items and lines.
pub fn order_of(alloc: Global, parents: &Grouped<usize>) -> Result<Order, NoMemory>
    requires { (p i : ℕ) → IsListed parents.now p i → p < length parents.now }
    ensures size { IfOk result (λ order. length order.items.items ≡ length parents.now) }
    ensures all { IfOk result (λ order. HoldsEachOnce (length parents.now) order.items.items) }
    ensures settled { IfOk result (λ order. order.closed ≡ false → IsSettled (IsListed parents.now) order.items.items) }
    ensures loops { IfOk result (λ order. order.closed ≡ true → (i : ℕ) × Leads (IsListed parents.now) i i) }
{
    let mut climb = Climb::start(alloc, parents)?;
    for item in 0..parents.count() {
        if climb.is_new(item) {
            climb.visit(item)?;
            climb.finish(parents)?;
        }
    }
    Ok(Order {
        items: climb.order,
        closed: climb.closed,
    })
}
