//! A shop: tables in which no item needs itself.

ghost use Rattle.std.specs.Prelude.{◌≡◌};
ghost use Rattle.mrp_bill.specs.Fault.{loop_fault};

use crate::climb::order_of;
use crate::codes::{codes_of, greatest};
use crate::fault::BillFault;
use crate::lists::{Lists, lists_of};
use crate::search::first_loop;
use mrp_qty::NoMemory;
use mrp_tables::Tables;
use std::alloc::Global;
use std::marker::Model;

/// An accepted shop: tables in which no item needs itself, with the parents, the components and the
/// low-level code of each item. Items are named by their places in the table, from 0.
#[derive(Drop)]
pub struct Shop {
    tables: Tables,
    codes: Vec<usize>,
    order: Vec<usize>,
    lists: Lists,
}

impl Model for Shop {
    ghost use Rattle.mrp_bill.specs.Shop.{Shop};

    ghost Value = { Shop };

    ghost use Rattle.std.specs.Prelude.{length};
    ghost use Rattle.mrp_bill.specs.Bill.{IsOrder};
    ghost use Rattle.mrp_bill.specs.BillLists.{AreLists};
    ghost use Rattle.mrp_bill.specs.Shop.{IsShop};

    ghost view = { λ s. record { tables = s.tables; codes = s.codes.items } };

    ghost invariant = { λ s. IsShop (record { tables = s.tables; codes = s.codes.items })
        × IsOrder s.tables.bills (length s.tables.items) s.order.items
        × AreLists s.tables.bills (length s.tables.items) s.lists };
}

impl Shop {
    ghost use Rattle.std.specs.Prelude.{◌≡◌, ◌<◌, length};
    ghost use Rattle.mrp_bill.specs.Bill.{IsCode, IsDepth, IsOrder, children_of, lines_of, parents_of};
    ghost use Rattle.mrp_bill.specs.Shop.{IsShop};

    /// The tables.
    pub fn tables(&self) -> &Tables
        ensures value { result.now ≡ self.now.tables }
        ensures accepted { IsShop self.now }
    {
        &self.tables
    }

    /// The items that an item is a component of, each once, in table order.
    pub fn parents(&self, item: usize) -> &[usize]
        requires { item < length self.now.tables.items }
        ensures { result.now ≡ parents_of self.now.tables.bills (length self.now.tables.items) item }
    {
        self.lists.parents.group(item)
    }

    /// The components of an item, each once, in table order.
    pub fn children(&self, item: usize) -> &[usize]
        requires { item < length self.now.tables.items }
        ensures { result.now ≡ children_of self.now.tables.bills (length self.now.tables.items) item }
    {
        self.lists.children.group(item)
    }

    /// The places in the bill table of the lines in which an item is the component, in table order.
    pub fn lines_to(&self, item: usize) -> &[usize]
        requires { item < length self.now.tables.items }
        ensures { result.now ≡ lines_of self.now.tables.bills item }
    {
        self.lists.lines.group(item)
    }

    /// All items, each once, in an order in which parents come before their components.
    pub fn order(&self) -> &[usize]
        ensures { IsOrder self.now.tables.bills (length self.now.tables.items) result.now }
    {
        self.order.as_slice()
    }

    /// An item's low-level code: the greatest number of bill lines in a chain that ends at it, 0
    /// for an item without parents (Orlicky: low-level code).
    pub fn code(&self, item: usize) -> usize
        requires { item < length self.now.tables.items }
        ensures { IsCode self.now.tables.bills item result }
    {
        self.codes[item]
    }

    /// The greatest low-level code of the items, 0 without items.
    pub fn depth(&self) -> usize
        ensures { IsDepth self.now.tables.bills (length self.now.tables.items) result }
    {
        greatest(&self.codes)
    }
}

// Why tables with a loop are not a shop: the loop's path, or out of memory in the search for it.
fn loop_fault(path: Result<Vec<usize>, NoMemory>) -> BillFault
    ensures { result ≡ loop_fault path }
{
    match path {
        Ok(path) => BillFault::Loop { path },
        Err(NoMemory) => BillFault::NoMemory,
    }
}

/// The bill of material.
pub struct Bill;

impl Bill {
    ghost use Rattle.std.specs.Prelude.{◌≡◌, ℕ, IfOk, IfErr};
    ghost use Rattle.mrp_bill.specs.Bill.{NeedsItself};
    ghost use Rattle.mrp_bill.specs.Fault.{IsRefusal};
    ghost use Rattle.mrp_bill.specs.Shop.{IsShop};

    /// The shop of these tables, which it consumes.
    ///
    /// Errors: `Loop` if an item needs itself, with a path that begins and ends at the first such item in
    /// table order, and `NoMemory`. If no item needs itself, `NoMemory` is the only error.
    pub fn of(alloc: Global, tables: Tables) -> Result<Shop, BillFault>
        ensures shop { IfOk result (λ shop. shop.tables ≡ tables) }
        ensures accepted { IfOk result IsShop }
        ensures no_loop { IfOk result (λ _. (i : ℕ) → NeedsItself tables.bills i → ⊥) }
        ensures refused { IfErr result (IsRefusal tables.bills) }
    {
        let lists = lists_of(alloc, tables.items().len(), tables.bills())?;
        let order = order_of(alloc, &lists.parents)?;
        if order.closed {
            let path = first_loop(alloc, &lists.parents, &lists.children, &order.items);
            return Err(loop_fault(path));
        }
        let codes = codes_of(alloc, &lists.parents, &order.items)?;
        Ok(Shop {
            tables,
            codes,
            order: order.items,
            lists,
        })
    }
}
