//! Lines of the order book: what is booked.

ghost use Rattle.std.specs.Prelude.{◌≡◌, IfOk};
ghost use Rattle.mrp_master.specs.Lines.{IsLine, line_of};
ghost use Rattle.mrp_master.specs.Supply.{supply_of};

use crate::range::check_pieces;
use crate::spot::Spot;
use mrp_bill::Shop;
use mrp_qty::Qty;
use thiserror::Error;

/// A quantity of an item that is due in a week.
#[derive(Clone, Copy, Debug, PartialEq, Eq)]
pub struct Line {
    // The item, by its place.
    pub(crate) item: usize,
    // The week, from 1.
    pub(crate) week: u16,
    // The pieces.
    pub(crate) quantity: Qty,
}

/// Why a line, a spot or a wish does not fit a shop.
#[derive(Clone, Copy, Debug, PartialEq, Eq, Error)]
pub enum LineFault {
    /// The shop has no such item.
    #[error("unknown item")]
    UnknownItem,
    /// The item is not a master item.
    #[error("not a master item")]
    NotMaster,
    /// The week is outside the horizon.
    #[error("a week outside the horizon")]
    BadWeek,
    /// The quantity is 0.
    #[error("no piece")]
    ZeroQuantity,
    /// There are more than 1,000,000,000 pieces.
    #[error("too many pieces")]
    TooLarge,
}

impl Line {
    /// A quantity of a master item of a shop, due in a week of its horizon.
    ///
    /// Errors: the first of `UnknownItem`, `NotMaster`, `BadWeek`, `ZeroQuantity` and `TooLarge`
    /// that applies.
    pub fn new(shop: &Shop, item: usize, week: u16, quantity: Qty) -> Result<Line, LineFault>
        ensures exact { result ≡ line_of shop.now.tables item week quantity }
        ensures within { IfOk result (IsLine (supply_of shop.now.tables)) }
    {
        Spot::new(shop, item, week)?;
        check_pieces(quantity)?;
        Ok(Line {
            item,
            week,
            quantity,
        })
    }

    /// The item, by its place.
    pub fn item(&self) -> usize
        ensures { result ≡ self.now.item }
    {
        self.item
    }

    /// The week, from 1.
    pub fn week(&self) -> u16
        ensures { result ≡ self.now.week }
    {
        self.week
    }

    /// The pieces.
    pub fn quantity(&self) -> Qty
        ensures { result ≡ self.now.quantity }
    {
        self.quantity
    }
}
