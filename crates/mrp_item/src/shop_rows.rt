//! A shop's rows, grouped by their items.

use crate::due::Due;
use crate::grouping::{firm_by_item, forecasts_by_item, receipts_by_item, services_by_item};
use mrp_bill::{Grouped, Shop};
use mrp_master::Supply;
use mrp_qty::{NoMemory, Qty};
use std::alloc::Global;
use std::marker::Model;
use std::sync::Arc;

/// A shop with its rows grouped by item: the supply for available to promise, and for each item the
/// firm rows, the forecasts, the service rows and the open receipts. All inputs of plans for the shop
/// can share it.
#[derive(Drop)]
pub struct ShopRows {
    shop: Arc<Shop>,
    supply: Supply,
    firm: Grouped<Due>,
    forecasts: Grouped<Due>,
    services: Grouped<Due>,
    receipts: Grouped<Due>,
}

impl Model for ShopRows {
    ghost use Rattle.mrp_bill.specs.Shop.{Shop};

    ghost Value = { Shop };

    ghost use Rattle.mrp_item.specs.ShopRows.{KeepsShopRows};

    ghost view = { λ a. a.shop.value };

    ghost invariant = { KeepsShopRows };
}

impl ShopRows {
    ghost use Rattle.std.specs.Prelude.{◌≡◌, ◌<◌, All, IfOk, length};
    ghost use Rattle.std.specs.Int.{IsInRange};
    ghost use Rattle.mrp_master.specs.Supply.{on_hand_of, supply_of};
    ghost use Rattle.mrp_item.specs.Dues.{firm_dues, forecast_dues, receipt_dues, service_dues};

    /// The rows of a shop.
    ///
    /// Errors: `NoMemory` if an allocation fails.
    pub fn of(alloc: Global, shop: Arc<Shop>) -> Result<Arc<ShopRows>, NoMemory>
        ensures { IfOk result (λ rows. rows.value ≡ shop.value) }
    {
        let supply = Supply::of(alloc, &shop)?;
        let tables = shop.tables();
        let count = tables.items().len();
        let firm = firm_by_item(alloc, count, tables.master())?;
        let forecasts = forecasts_by_item(alloc, count, tables.master())?;
        let services = services_by_item(alloc, count, tables.master())?;
        let receipts = receipts_by_item(alloc, count, tables.receipts())?;
        let rows = ShopRows {
            shop,
            supply,
            firm,
            forecasts,
            services,
            receipts,
        };
        Ok(Arc::new(alloc, rows)?)
    }

    /// The shop.
    pub fn shop(&self) -> &Arc<Shop>
        ensures { result.now.value ≡ self.now }
    {
        &self.shop
    }

    /// The supply that the shop's available to promise is computed from.
    pub fn supply(&self) -> &Supply
        ensures { result.now ≡ supply_of self.now.tables }
    {
        &self.supply
    }

    // The stock on hand of an item.
    pub(crate) fn on_hand(&self, item: usize) -> Qty
        requires { item < length self.now.tables.items }
        ensures { result ≡ on_hand_of self.now.tables.stock item }
    {
        self.supply.on_hand(item)
    }

    // The firm rows of an item.
    pub(crate) fn firm(&self, item: usize) -> &[Due]
        requires { item < length self.now.tables.items }
        ensures { result.now ≡ firm_dues self.now.tables.master item }
    {
        self.firm.group(item)
    }

    // The forecasts of an item.
    pub(crate) fn forecasts(&self, item: usize) -> &[Due]
        requires { item < length self.now.tables.items }
        ensures { result.now ≡ forecast_dues self.now.tables.master item }
    {
        self.forecasts.group(item)
    }

    // The service rows of an item.
    pub(crate) fn services(&self, item: usize) -> &[Due]
        requires { item < length self.now.tables.items }
        ensures dues { result.now ≡ service_dues self.now.tables.master item }
        ensures within { All (λ due. IsInRange 1 self.now.tables.calendar.weeks due.week) result.now }
    {
        self.services.group(item)
    }

    // The open receipts of an item.
    pub(crate) fn receipts(&self, item: usize) -> &[Due]
        requires { item < length self.now.tables.items }
        ensures dues { result.now ≡ receipt_dues self.now.tables.receipts item }
        ensures within { All (λ due. IsInRange 1 self.now.tables.calendar.weeks due.week) result.now }
    {
        self.receipts.group(item)
    }
}
