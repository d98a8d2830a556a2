//! A question to the order book: a quantity of an item, as early as possible.

ghost use Rattle.std.specs.Prelude.{◌≡◌, IfOk};
ghost use Rattle.mrp_master.specs.Lines.{IsWish, wish_of};
ghost use Rattle.mrp_master.specs.Supply.{supply_of};

use crate::line::LineFault;
use crate::range::{check_item, check_pieces};
use mrp_bill::Shop;
use mrp_qty::Qty;

/// An item and a quantity.
#[derive(Clone, Copy, Debug, PartialEq, Eq)]
pub struct Wish {
    // The item, by its place.
    item: usize,
    // The pieces.
    quantity: Qty,
}

impl Wish {
    /// A quantity of a master item of a shop.
    ///
    /// Errors: the first of `UnknownItem`, `NotMaster`, `ZeroQuantity` and `TooLarge` that applies.
    pub fn new(shop: &Shop, item: usize, quantity: Qty) -> Result<Wish, LineFault>
        ensures exact { result ≡ wish_of shop.now.tables item quantity }
        ensures within { IfOk result (IsWish (supply_of shop.now.tables)) }
    {
        check_item(shop.tables(), item)?;
        check_pieces(quantity)?;
        Ok(Wish { item, quantity })
    }

    /// The item, by its place.
    pub fn item(&self) -> usize
        ensures { result ≡ self.now.item }
    {
        self.item
    }

    /// The pieces.
    pub fn quantity(&self) -> Qty
        ensures { result ≡ self.now.quantity }
    {
        self.quantity
    }
}
