//! What the tables of a day say of its weeks, items and open orders.

ghost use Rattle.std.specs.Prelude.{◌≡◌};
ghost use Rattle.std.specs.List.{find};
ghost use Rattle.std.specs.Option.{option_copied};
ghost use Rattle.mrp_facts.specs.Facts.{is_of_order};

use crate::by_item::{receipts_by_item, stock_by_item};
use crate::dates::dates;
use crate::shape::{DayShape, agrees};
use mrp_bill::Grouped;
use mrp_qty::NoMemory;
use mrp_rows::Name;
use mrp_tables::{Item, LeadUnit, Receipt, Tables};
use std::alloc::Global;
use std::marker::Model;

/// An item's master data, and its stock on hand.
#[derive(Clone, Copy, Debug)]
pub struct ItemFacts {
    /// Its record of the items.
    pub item: Item,
    /// Its pieces on hand; 0 without a stock record.
    pub on_hand: u64,
}

/// The tables of a day, with the dates of its weeks, and with stock and open receipts by item. Contracts see
/// the tables and the dates.
#[derive(Drop)]
pub struct Facts<'t> {
    tables: &'t Tables,
    dates: Vec<String>,
    stock: Grouped<u64>,
    receipts: Grouped<Receipt>,
}

impl<'t> Model for Facts<'t> {
    ghost use Rattle.std.specs.Prelude.{map, string_bytes};
    ghost use Rattle.mrp_facts.specs.Dates.{AreDates};
    ghost use Rattle.mrp_facts.specs.Facts.{AreByItem, Facts};

    ghost Value = { Facts };

    ghost view = { λ f. record { tables = f.tables.now; dates = map string_bytes f.dates.items } };

    ghost invariant = { λ f. record {
      dated : AreDates f.tables.now.calendar (map string_bytes f.dates.items);
      by_item : AreByItem f.tables.now f.stock f.receipts;
    } };
}

// Whether a receipt is of an order.
fn is_of_order(receipt: &Receipt, order: &[u8]) -> bool
    ensures { result ≡ is_of_order order.now receipt.now }
{
    receipt.order.as_bytes() == order
}

// The receipt among these of an order.
fn receipt_of<'r>(receipts: &'r [Receipt], order: &[u8]) -> Option<&'r Receipt>
    ensures { option_copied result ≡ find (is_of_order order.now) receipts.now }
{
    for receipt in receipts {
        if is_of_order(receipt, order) {
            return Some(receipt);
        }
    }
    None
}

impl<'t> Facts<'t> {
    ghost use Rattle.std.specs.Prelude.{◌≡◌, ◌<◌, IfOk, IfSome, Some, None, count_by, length, option_map};
    ghost use Rattle.std.specs.Option.{option_copied};
    ghost use Rattle.mrp_tables.specs.Versions as version;
    ghost use Rattle.mrp_facts.specs.Dates.{AreDates, in_week};
    ghost use Rattle.mrp_facts.specs.Facts.{facts_at, item_facts, on_hand_of, open_order, place_named};
    ghost use Rattle.mrp_facts.specs.Shape as spec;

    /// The facts of tables.
    ///
    /// Errors: `NoMemory` if an allocation fails.
    pub fn of(alloc: Global, tables: &'t Tables) -> Result<Facts<'t>, NoMemory>
        ensures tables { IfOk result (λ facts. facts.tables ≡ tables.now) }
        ensures dates { IfOk result (λ facts. AreDates facts.tables.calendar facts.dates) }
    {
        let count = tables.items().len();
        let dates = dates(alloc, tables.calendar())?;
        let stock = stock_by_item(alloc, count, tables.stock())?;
        let receipts = receipts_by_item(alloc, count, tables.receipts())?;
        Ok(Facts {
            tables,
            dates,
            stock,
            receipts,
        })
    }

    /// The date of a week, counted from 1: of the day on which it begins, as `20 Jan`, with the year, as
    /// `20 Jan 25`, if there are more than 52 weeks. An empty text if there is no such week.
    pub fn date(&self, week: u64) -> &str
        ensures text { result.now ≡ in_week self.now.dates week }
        ensures dates { AreDates self.now.tables.calendar self.now.dates }
    {
        let dates = &self.dates;
        if week == 0 {
            return "";
        }
        match dates.get((week - 1) as usize) {
            Some(date) => date.as_str(),
            None => "",
        }
    }

    /// What lead times are counted in.
    pub fn lead_unit(&self) -> LeadUnit
        ensures { result ≡ version.lead_unit self.now.tables.version }
    {
        self.tables.lead_unit()
    }

    /// The tables.
    pub fn tables(&self) -> &'t Tables
        ensures { result.now ≡ self.now.tables }
    {
        self.tables
    }

    /// The place of the item with a name, from 0; `None` if there is no such item.
    pub fn place(&self, name: &[u8]) -> Option<usize>
        ensures place { result ≡ place_named self.now.tables name.now }
        ensures within { IfSome result (λ place. place < length self.now.tables.items) }
    {
        let name = Name::new(name)?;
        self.tables.find(&name)
    }

    // The pieces on hand of the item at a place.
    fn on_hand(&self, place: usize) -> u64
        requires { place < length self.now.tables.items }
        ensures { result ≡ on_hand_of self.now.tables place }
    {
        match self.stock.group(place) {
            [on_hand, ..] => *on_hand,
            [] => 0,
        }
    }

    // The facts of the item at a place.
    fn item_at(&self, place: usize) -> ItemFacts
        requires { place < length self.now.tables.items }
        ensures { result ≡ facts_at self.now.tables place }
    {
        ItemFacts {
            item: self.tables.items()[place],
            on_hand: self.on_hand(place),
        }
    }

    /// The facts of the item with a name; `None` if there is no such item.
    pub fn item(&self, name: &[u8]) -> Option<ItemFacts>
        ensures { result ≡ item_facts self.now.tables name.now }
    {
        let place = self.place(name)?;
        Some(self.item_at(place))
    }

    /// The open receipt of an order of the item with a name, of at least one piece; `None` if there is none.
    pub fn open_order(&self, name: &[u8], order: &[u8]) -> Option<&Receipt>
        ensures { option_copied result ≡ open_order self.now.tables name.now order.now }
    {
        let place = self.place(name)?;
        receipt_of(self.receipts.group(place), order)
    }

    // How many firm rows the master schedule has.
    fn firm_rows(&self) -> u64
        ensures { result ≡ spec.firm_rows self.now.tables }
    {
        let rows = self.tables.master().iter();
        rows.filter(|row| row.kind.is_firm()).count() as u64
    }

    // How many service rows the master schedule has.
    fn service_rows(&self) -> u64
        ensures { result ≡ spec.service_rows self.now.tables }
    {
        let rows = self.tables.master().iter();
        rows.filter(|row| row.kind.is_service()).count() as u64
    }

    /// Whether the tables can be those of a day, by what is known of it.
    pub fn can_be_of(&self, day: &DayShape) -> bool
        ensures { result ≡ spec.can_be self.now.tables day.now }
    {
        agrees(day.items, self.tables.items().len() as u64)
            && agrees(day.weeks, u64::from(self.tables.calendar().weeks()))
            && agrees(day.firm_rows, self.firm_rows())
            && agrees(day.receipts, self.tables.receipts().len() as u64)
            && agrees(day.service_rows, self.service_rows())
    }
}
