//! The steps of marking.

ghost use Rattle.std.specs.Prelude.{◌≡◌, ◌<◌, IfOk, OnOk, length, slice_index};
ghost use Rattle.mrp_risk.specs.Chains.{AreWithin, IsWithin, LeadsTo};
ghost use Rattle.mrp_risk.specs.Marks.{AreMarks, Grows, HasPassed, IsMarked, IsNew, IsQueue, IsRound, Marks, MarksNeed, MarksNew};
ghost use Rattle.mrp_risk.specs.PegLists.{AreLists};

use super::Marking;
use crate::late::late_orders;
use crate::lists::PegLists;
use crate::peg::{Need, Peg};
use mrp_qty::NoMemory;
use std::alloc::Global;

impl Marking {
    // No order is marked.
    fn start(alloc: Global, orders: usize) -> Result<Marking, NoMemory>
        ensures { IfOk result (IsNew orders) }
    {
        Ok(Marking {
            marks: vec![in alloc; None; orders]?,
            queue: Vec::new(alloc),
            passed: 0,
        })
    }

    // Marks an order.
    fn mark(&mut self, order: usize, late: usize) -> Result<(), NoMemory>
        requires { order < length self.old.marks.items }
        ensures { OnOk result (Marks self.old self.new order late) }
    {
        self.queue.push(order)?;
        self.marks[order] = Some(late);
        Ok(())
    }

    // Marks an order that is not marked yet.
    fn mark_new(&mut self, order: usize, late: usize) -> Result<(), NoMemory>
        requires { order < length self.old.marks.items }
        ensures { OnOk result (MarksNew self.old self.new order late) }
    {
        match self.marks[order] {
            Some(_) => Ok(()),
            None => self.mark(order, late),
        }
    }

    // Marks the order that the pieces of a peg are for, if they are for one.
    fn mark_need(&mut self, need: Need, late: usize) -> Result<(), NoMemory>
        requires { IsWithin (length self.old.marks.items) need }
        ensures { OnOk result (MarksNeed self.old self.new need late) }
    {
        match need {
            Need::Order(order) => self.mark_new(order, late),
            Need::Booking(_) => Ok(()),
            Need::Other => Ok(()),
        }
    }

    // Marks the orders that need pieces of an order.
    fn mark_needs(
        &mut self,
        pegs: &[Peg],
        lists: &PegLists,
        order: usize,
        late: usize,
    ) -> Result<(), NoMemory>
        requires pegs { AreWithin (length self.old.marks.items) pegs.now }
        requires lists { AreLists (length self.old.marks.items) pegs.now lists.now }
        requires order { order < length self.old.marks.items }
        requires leads { LeadsTo pegs.now order late }
        requires round { IsRound pegs.now late self.old }
        ensures round { OnOk result (IsRound pegs.now late self.new) }
        ensures grows { OnOk result (Grows pegs.now late self.old self.new) }
        ensures passed { OnOk result (self.new.passed ≡ self.old.passed) }
        ensures needs { OnOk result (HasPassed pegs.now self.new.marks.items order) }
    {
        let mut next = lists.last(order);
        while let Some(place) = next {
            self.mark_need(pegs[place].need, late)?;
            next = lists.previous(place);
        }
        Ok(())
    }

    // Lets marked orders pass their mark on until all have.
    fn spread(&mut self, pegs: &[Peg], lists: &PegLists, late: usize) -> Result<(), NoMemory>
        requires pegs { AreWithin (length self.old.marks.items) pegs.now }
        requires lists { AreLists (length self.old.marks.items) pegs.now lists.now }
        requires round { IsRound pegs.now late self.old }
        ensures queue { OnOk result (IsQueue pegs.now self.new) }
        ensures grows { OnOk result (Grows pegs.now late self.old self.new) }
        ensures all { OnOk result (self.new.passed ≡ length self.new.queue.items) }
    {
        while self.passed < self.queue.len() {
            let order = self.queue[self.passed];
            self.mark_needs(pegs, lists, order, late)?;
            self.passed += 1;
        }
        Ok(())
    }

    // Marks a late order and all orders that lead to it, as far as they are not marked yet.
    fn mark_from(&mut self, pegs: &[Peg], lists: &PegLists, late: usize) -> Result<(), NoMemory>
        requires pegs { AreWithin (length self.old.marks.items) pegs.now }
        requires lists { AreLists (length self.old.marks.items) pegs.now lists.now }
        requires late { late < length self.old.marks.items }
        requires queue { IsQueue pegs.now self.old }
        requires all { self.old.passed ≡ length self.old.queue.items }
        ensures queue { OnOk result (IsQueue pegs.now self.new) }
        ensures grows { OnOk result (Grows pegs.now late self.old self.new) }
        ensures all { OnOk result (self.new.passed ≡ length self.new.queue.items) }
        ensures late { OnOk result (IsMarked self.new.marks.items late) }
    {
        self.mark_new(late, late)?;
        self.spread(pegs, lists, late)
    }
}

// For each order the latest of the late orders that it leads to. Each order and each peg is visited
// once, so this is linear in both, but for the order of the late ones.
pub(crate) fn marks_of(
    alloc: Global,
    lateness: &[u64],
    pegs: &[Peg],
) -> Result<Vec<Option<usize>>, NoMemory>
    requires { AreWithin (length lateness.now) pegs.now }
    ensures { IfOk result (λ marks. AreMarks lateness.now pegs.now marks.items) }
{
    let lists = PegLists::of(alloc, lateness.len(), pegs)?;
    let late = late_orders(alloc, lateness)?;
    let mut marking = Marking::start(alloc, lateness.len())?;
    for row in &late {
        marking.mark_from(pegs, &lists, row.order)?;
    }
    Ok(marking.marks)
}
