//! The items that were not handed out yet.

ghost use Rattle.std.specs.Prelude.{◌≡◌, ◌≤◌, ◌<◌, ℕ, suc, not, is_some, IfOk, MatchOption, None, Some, find, length, map, set};
ghost use Rattle.std.specs.List.{list_all, range_with_len};
ghost use Rattle.mrp_bill.specs.Bill.{parents_of};
ghost use Rattle.mrp_board.specs.Queue.{is_due, less, occurrences, queue_places, waits_for};

use mrp_bill::Shop;
use mrp_qty::NoMemory;
use std::alloc::Global;
use std::cmp::Reverse;
use std::collections::BinaryHeap;
use std::marker::Model;

// The items that were not handed out yet. Contracts see for each item of the table how many of its parents
// are not stored, or `None` once it was handed out.
#[derive(Drop)]
pub struct Queue {
    waits: Vec<Option<usize>>,
    // The items that wait for no parent, the first in table order on top. Its room is for all items.
    due: BinaryHeap<Reverse<usize>>,
    // The number of items that were not handed out.
    left: usize,
}

impl Model for Queue {
    ghost use Rattle.std.specs.Prelude.{ℕ, List, Option};
    ghost use Rattle.std.specs.BinaryHeap.{heap_capacity, heap_items};
    ghost use Rattle.mrp_board.specs.Queue.{KeepsQueue};

    ghost Value = { List (Option ℕ) };

    ghost view = { λ q. q.waits.items };

    ghost invariant = { λ q. KeepsQueue q.waits.items (heap_items q.due) (heap_capacity q.due) q.left };
}

impl Queue {
    // The items of a shop, none of which is stored.
    pub(crate) fn open(alloc: Global, shop: &Shop) -> Result<Queue, NoMemory>
        ensures { IfOk result (λ q. q ≡ map (λ i. Some (length (parents_of shop.now.tables.bills (length shop.now.tables.items) i))) (range_with_len 0 (length shop.now.tables.items))) }
    {
        let count = shop.tables().items().len();
        let mut waits = Vec::with_capacity(alloc, count)?;
        let mut due = BinaryHeap::with_capacity(alloc, count)?;
        for item in 0..count {
            let parents = shop.parents(item).len();
            waits.push(Some(parents))?;
            if parents == 0 {
                due.push(Reverse(item))?;
            }
        }
        Ok(Queue {
            waits,
            due,
            left: count,
        })
    }

    // Whether every item was handed out.
    pub(crate) fn is_empty(&self) -> bool
        ensures { result ≡ list_all (λ w. not (is_some w)) self.now }
    {
        self.left == 0
    }

    // The first item in table order that waits for no parent.
    pub(crate) fn first(&self) -> Option<usize>
        ensures { result ≡ find (is_due self.now) (queue_places self.now) }
    {
        match self.due.peek() {
            Some(Reverse(item)) => Some(*item),
            None => None,
        }
    }

    // Hands out the first item in table order that waits for no parent.
    pub(crate) fn take_first(&mut self) -> Option<usize>
        ensures first { result ≡ find (is_due self.old) (queue_places self.old) }
        ensures out { MatchOption result (self.new ≡ self.old) (λ item. self.new ≡ set self.old item None) }
    {
        let Reverse(item) = self.due.pop()?;
        self.waits[item] = None;
        self.left -= 1;
        Some(item)
    }

    // One more parent of an item is stored, which waited for it.
    fn settle(&mut self, item: usize)
        requires { (n : ℕ) × (waits_for self.old item ≡ Some (suc n)) }
        ensures { self.new ≡ set self.old item (less 1 (waits_for self.old item)) }
    {
        let Some(parents) = self.waits[item] else {
            unreachable!()
        };
        self.waits[item] = Some(parents - 1);
        if parents == 1 && self.due.push(Reverse(item)).is_err() {
            unreachable!()
        }
    }

    // A parent of each of these items is stored, which waited for it.
    pub(crate) fn settle_all(&mut self, items: &[usize])
        requires { (i : ℕ) → 1 ≤ occurrences i items.now → (n : ℕ) × (waits_for self.old i ≡ Some n) × (occurrences i items.now ≤ n) }
        ensures size { length self.new ≡ length self.old }
        ensures settled { (i : ℕ) → waits_for self.new i ≡ less (occurrences i items.now) (waits_for self.old i) }
    {
        for item in items {
            self.settle(*item);
        }
    }
}
