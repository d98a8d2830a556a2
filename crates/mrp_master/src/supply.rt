//! The data of a shop that available to promise is computed from.

ghost use Rattle.std.specs.Prelude.{◌≡◌, ◌≤◌, All, IfOk, length, map};
ghost use Rattle.std.specs.List.{range_with_len};
ghost use Rattle.mrp_qty.specs.Quantity.{greatest_quantity};
ghost use Rattle.mrp_tables.specs.Facts.{AllDiffer, IsStockRow};
ghost use Rattle.mrp_tables.specs.Items.{is_master};
ghost use Rattle.mrp_tables.specs.Stock.{items_in_stock};
ghost use Rattle.mrp_phase.specs.Weeks.{row};
ghost use Rattle.mrp_master.specs.AtpRow.{opening};
ghost use Rattle.mrp_master.specs.Supply.{due_by, on_hand_of};

use crate::firm::firm_rows;
use crate::line::Line;
use mrp_bill::{Grouped, Shop};
use mrp_qty::{NoMemory, Qty};
use mrp_tables::{Item, StockRow};
use std::alloc::Global;
use std::marker::Model;

/// The data of a shop that available to promise is computed from: the weeks, which items are master
/// items, the stock on hand of each item, and the firm rows.
#[derive(Drop)]
pub struct Supply {
    weeks: u16,
    masters: Vec<bool>,
    on_hand: Vec<Qty>,
    firm: Grouped<Line>,
}

impl Model for Supply {
    ghost use Rattle.std.specs.Prelude.{◌≡◌, length};
    ghost use Rattle.mrp_master.specs.Supply.{IsSupply, Supply};

    ghost Value = { Supply };

    ghost view = { λ s. record { weeks = s.weeks; masters = s.masters.items; on_hand = s.on_hand.items; firm = s.firm } };

    ghost invariant = { λ s. IsSupply (record { weeks = s.weeks; masters = s.masters.items; on_hand = s.on_hand.items; firm = s.firm }) × (length s.firm ≡ length s.masters.items) };
}

impl Supply {
    ghost use Rattle.std.specs.Prelude.{◌≡◌, ◌≤◌, [], IfOk, false};
    ghost use Rattle.std.specs.List.{slice_index_or};
    ghost use Rattle.mrp_master.specs.Supply.{IsSupply, supply, supply_of};

    /// The supply data of a shop.
    ///
    /// Errors: `NoMemory` if an allocation fails.
    pub fn of(alloc: Global, shop: &Shop) -> Result<Supply, NoMemory>
        ensures { IfOk result (λ s. s ≡ supply_of shop.now.tables) }
    {
        let tables = shop.tables();
        let items = tables.items();
        Ok(Supply {
            weeks: tables.calendar().weeks(),
            masters: masters(alloc, items)?,
            on_hand: on_hand(alloc, items, tables.stock())?,
            firm: firm_rows(alloc, items.len(), tables.master())?,
        })
    }

    /// The weeks of the horizon.
    pub fn weeks(&self) -> u16
        ensures value { result ≡ self.now.weeks }
        ensures kept { IsSupply self.now }
    {
        self.weeks
    }

    /// Whether the shop has the item, and it is a master item.
    pub fn is_master(&self, item: usize) -> bool
        ensures { result ≡ slice_index_or self.now.masters item false }
    {
        match self.masters.get(item) {
            Some(is_master) => *is_master,
            None => false,
        }
    }

    /// The stock on hand of an item, in pieces; 0 if there is no such item.
    pub fn on_hand(&self, item: usize) -> Qty
        ensures value { result ≡ slice_index_or self.now.on_hand item 0 }
        ensures kept { IsSupply self.now }
    {
        match self.on_hand.get(item) {
            Some(on_hand) => *on_hand,
            None => quantity(0),
        }
    }

    // The firm rows of an item; none if there is no such item.
    fn firm_of(&self, item: usize) -> &[Line]
        ensures { result.now ≡ slice_index_or self.now.firm item [] }
    {
        if item < self.masters.len() {
            self.firm.group(item)
        } else {
            &[]
        }
    }

    /// The supply of an item up to a week, in pieces: the stock on hand, and the firm rows up to the
    /// week; 0 if there is no such item.
    pub fn up_to(&self, item: usize, week: u16) -> Qty
        ensures { result ≡ supply self.now item week }
    {
        quantity(self.on_hand(item).value() + due_by(item, week, self.firm_of(item)))
    }

    // The supply of an item in each week: its firm rows, and in week 1 the stock on hand.
    pub(crate) fn openings(&self, alloc: Global, item: usize) -> Result<Vec<Qty>, NoMemory>
        ensures value { IfOk result (λ openings. openings.items ≡ row self.now.weeks (opening self.now item)) }
        ensures kept { IsSupply self.now }
    {
        let mut openings = vec![in alloc; quantity(0); usize::from(self.weeks)]?;
        openings[0] = self.on_hand(item);
        for line in self.firm_of(item) {
            if line.item == item {
                let place = usize::from(line.week) - 1;
                openings[place] = quantity(openings[place].value() + line.quantity.value());
            }
        }
        Ok(openings)
    }
}

// A number of pieces as a quantity.
pub(crate) fn quantity(pieces: u64) -> Qty
    requires { pieces ≤ greatest_quantity }
    ensures { result ≡ pieces }
{
    match Qty::new(pieces) {
        Some(quantity) => quantity,
        None => unreachable!(),
    }
}

// The quantity of an item due up to a week.
fn due_by(item: usize, week: u16, lines: &[Line]) -> u64
    requires { due_by item week lines.now ≤ greatest_quantity }
    ensures { result ≡ due_by item week lines.now }
{
    let mut due = 0;
    for line in lines {
        if line.item == item && line.week <= week {
            due += line.quantity.value();
        }
    }
    due
}

// For each item, whether it is a master item.
fn masters(alloc: Global, items: &[Item]) -> Result<Vec<bool>, NoMemory>
    ensures { IfOk result (λ masters. masters.items ≡ map (λ item. is_master item.class) items.now) }
{
    let masters = items
        .iter()
        .map(|item| item.class.is_master())
        .collect(alloc)?;
    Ok(masters)
}

// The stock on hand of each item.
fn on_hand(alloc: Global, items: &[Item], rows: &[StockRow]) -> Result<Vec<Qty>, NoMemory>
    requires within { All (IsStockRow items.now) rows.now }
    requires once { AllDiffer (items_in_stock rows.now) }
    ensures { IfOk result (λ on_hand. on_hand.items ≡ map (on_hand_of rows.now) (range_with_len 0 (length items.now))) }
{
    let mut on_hand = vec![in alloc; quantity(0); items.len()]?;
    for row in rows {
        on_hand[row.item] = row.on_hand;
    }
    Ok(on_hand)
}
