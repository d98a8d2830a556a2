//! The subject of a question to the order book: an item in a week.

ghost use Rattle.std.specs.Prelude.{◌≡◌, IfOk};
ghost use Rattle.mrp_master.specs.Lines.{IsSpot, spot_of};
ghost use Rattle.mrp_master.specs.Supply.{supply_of};

use crate::line::LineFault;
use crate::range::{check_item, check_week};
use mrp_bill::Shop;

/// An item and a week.
#[derive(Clone, Copy, Debug, PartialEq, Eq)]
pub struct Spot {
    // The item, by its place.
    item: usize,
    // The week, from 1.
    week: u16,
}

impl Spot {
    /// A master item of a shop and a week of its horizon.
    ///
    /// Errors: the first of `UnknownItem`, `NotMaster` and `BadWeek` that applies.
    pub fn new(shop: &Shop, item: usize, week: u16) -> Result<Spot, LineFault>
        ensures exact { result ≡ spot_of shop.now.tables item week }
        ensures within { IfOk result (IsSpot (supply_of shop.now.tables)) }
    {
        let tables = shop.tables();
        check_item(tables, item)?;
        check_week(tables, week)?;
        Ok(Spot { item, week })
    }

    /// The item, by its place.
    pub fn item(&self) -> usize
        ensures { result ≡ self.now.item }
    {
        self.item
    }

    /// The week, from 1.
    pub fn week(&self) -> u16
        ensures { result ≡ self.now.week }
    {
        self.week
    }
}
