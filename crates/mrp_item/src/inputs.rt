//! The inputs of a plan.

use crate::due::Due;
use crate::grouping::bookings_by_item;
use crate::shop_rows::ShopRows;
use mrp_bill::{Grouped, Shop};
use mrp_book::Snapshot;
use mrp_qty::{NoMemory, Qty};
use mrp_tables::Item;
use std::alloc::Global;
use std::marker::Model;
use std::sync::Arc;

/// The inputs of a plan: a shop, and a snapshot of its order book.
#[derive(Drop)]
pub struct Inputs {
    rows: Arc<ShopRows>,
    snapshot: Snapshot,
    bookings: Grouped<Due>,
}

impl Model for Inputs {
    ghost use Rattle.mrp_item.specs.Inputs.{Inputs};

    ghost Value = { Inputs };

    ghost use Rattle.mrp_item.specs.View.{inputs_view, KeepsRows};

    ghost view = { inputs_view };

    ghost invariant = { KeepsRows };
}

impl Inputs {
    ghost use Rattle.std.specs.Prelude.{◌≡◌, ◌≤◌, ◌<◌, All, IfOk, slice_index};
    ghost use Rattle.std.specs.Int.{IsInRange};
    ghost use Rattle.mrp_cal.specs.declared.calendar.TheConstants.{MOST_WEEKS};
    ghost use Rattle.mrp_master.specs.Supply.{supply_of};
    ghost use Rattle.mrp_book.specs.Booked.{AreBooked};
    ghost use Rattle.mrp_item.specs.Inputs.{count, horizon, inputs_of, item_at};
    ghost use Rattle.mrp_item.specs.Limits.{IsPlannable};
    ghost use Rattle.mrp_item.specs.Rows.{on_hand};
    ghost use Rattle.mrp_item.specs.Dues.{firm_dues, forecast_dues, receipt_dues, booking_dues, service_dues};
    ghost use Rattle.mrp_item.specs.Plan.{IsRanked, HasParents};

    /// The inputs of a shop and a snapshot of its order book. The book must be that of an equal shop: its
    /// bookings are of master items, in weeks of the horizon, of pieces that can be booked, in order of
    /// rising numbers, and covered.
    ///
    /// Errors: `NoMemory` if an allocation fails.
    pub fn new(alloc: Global, shop: Arc<Shop>, snapshot: Snapshot) -> Result<Arc<Inputs>, NoMemory>
        requires { AreBooked (supply_of shop.value.tables) snapshot.standing }
        ensures { IfOk result (λ inputs. inputs.value ≡ inputs_of shop.value.tables snapshot) }
    {
        Inputs::over(alloc, ShopRows::of(alloc, shop)?, snapshot)
    }

    /// The inputs of a shop, whose rows are shared, and a snapshot of its order book. The snapshot must be
    /// as for `new`.
    ///
    /// Errors: `NoMemory` if an allocation fails.
    pub fn over(
        alloc: Global,
        rows: Arc<ShopRows>,
        snapshot: Snapshot,
    ) -> Result<Arc<Inputs>, NoMemory>
        requires { AreBooked (supply_of rows.value.tables) snapshot.standing }
        ensures { IfOk result (λ inputs. inputs.value ≡ inputs_of rows.value.tables snapshot) }
    {
        let tables = rows.shop().tables();
        // Bill lines name items of the table.
        let _within = tables.bills();
        let count = tables.items().len();
        let bookings = bookings_by_item(alloc, count, snapshot.standing())?;
        let inputs = Inputs {
            rows,
            snapshot,
            bookings,
        };
        Ok(Arc::new(alloc, inputs)?)
    }

    /// The shop's rows, grouped by item.
    pub fn rows(&self) -> &Arc<ShopRows>
        ensures { result.now.value.tables ≡ self.now.tables }
    {
        &self.rows
    }

    /// The shop.
    pub fn shop(&self) -> &Shop
        ensures tables { result.now.tables ≡ self.now.tables }
        ensures ranked { IsRanked self.now (slice_index result.now.codes) }
        ensures parents { HasParents self.now }
    {
        self.rows.shop()
    }

    /// The snapshot of the order book.
    pub fn snapshot(&self) -> &Snapshot
        ensures front { result.now.front ≡ self.now.front }
        ensures standing { result.now.standing ≡ self.now.standing }
        ensures booked { AreBooked (supply_of self.now.tables) self.now.standing }
    {
        &self.snapshot
    }

    /// The weeks of the horizon.
    pub fn weeks(&self) -> u16
        ensures value { result ≡ horizon self.now }
        ensures first { 0 < result }
        ensures within { result ≤ MOST_WEEKS }
    {
        self.shop().tables().calendar().weeks()
    }

    /// An item's master data. The shop must have the item.
    pub fn entry(&self, item: usize) -> Item
        requires { item < count self.now }
        ensures value { result ≡ item_at self.now item }
        ensures within { IsPlannable result }
    {
        self.shop().tables().items()[item]
    }

    // The firm rows of an item.
    pub(crate) fn firm(&self, item: usize) -> &[Due]
        requires { item < count self.now }
        ensures { result.now ≡ firm_dues self.now.tables.master item }
    {
        self.rows.firm(item)
    }

    // The forecasts of an item.
    pub(crate) fn forecasts(&self, item: usize) -> &[Due]
        requires { item < count self.now }
        ensures { result.now ≡ forecast_dues self.now.tables.master item }
    {
        self.rows.forecasts(item)
    }

    /// The service rows of an item, in table order, each with its record's number (APICS Dictionary:
    /// service parts demand). The shop must have the item.
    pub fn services(&self, item: usize) -> &[Due]
        requires { item < count self.now }
        ensures dues { result.now ≡ service_dues self.now.tables.master item }
        ensures within { All (λ due. IsInRange 1 (horizon self.now) due.week) result.now }
    {
        self.rows.services(item)
    }

    /// The open receipts of an item, in table order, each with its record's number. The shop must have the
    /// item.
    pub fn receipts(&self, item: usize) -> &[Due]
        requires { item < count self.now }
        ensures dues { result.now ≡ receipt_dues self.now.tables.receipts item }
        ensures within { All (λ due. IsInRange 1 (horizon self.now) due.week) result.now }
    {
        self.rows.receipts(item)
    }

    /// The standing bookings of an item, in order of their numbers. The shop must have the item.
    pub fn bookings(&self, item: usize) -> &[Due]
        requires { item < count self.now }
        ensures dues { result.now ≡ booking_dues self.now.standing item }
        ensures booked { AreBooked (supply_of self.now.tables) self.now.standing }
    {
        self.bookings.group(item)
    }

    /// The stock on hand of an item, in pieces. The shop must have the item.
    pub fn on_hand(&self, item: usize) -> Qty
        requires { item < count self.now }
        ensures { result ≡ on_hand self.now item }
    {
        self.rows.on_hand(item)
    }
}
