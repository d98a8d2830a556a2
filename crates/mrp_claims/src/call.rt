//! The call of a record of a given history.

ghost use Rattle.std.specs.Prelude.{codes};
ghost use Rattle.mrp_tables.specs.Tables.{Tables};
ghost use Rattle.mrp_claims.specs.Reading.{ReadsCall, ReadsNumber};

use crate::cell::{is_word, item_in, number_in};
use mrp_bill::Shop;
use mrp_book::{Call, Line, Spot, Wish};
use mrp_qty::Qty;
use mrp_tables::limits::{MOST_ENTRIES, MOST_PIECES};

/// The cells of a call: its word, and its own cells.
#[derive(Clone, Copy)]
pub(crate) struct CallCells<'a> {
    pub(crate) word: &'a [u8],
    pub(crate) item: &'a [u8],
    pub(crate) week: &'a [u8],
    pub(crate) quantity: &'a [u8],
    pub(crate) number: &'a [u8],
}

// A quantity that can be booked, from its cell.
fn pieces_in(cell: &[u8]) -> Option<Qty>
    ensures { ReadsNumber 1 MOST_PIECES cell.now result }
{
    Qty::new(number_in(cell, 1, MOST_PIECES)?)
}

// A week of a shop's horizon, from its cell.
fn week_in(shop: &Shop, cell: &[u8]) -> Option<u16>
    ensures { ReadsNumber 1 shop.now.tables.calendar.weeks cell.now result }
{
    let weeks = shop.tables().calendar().weeks();
    let week = number_in(cell, 1, u64::from(weeks))?;
    Some(week as u16)
}

impl CallCells<'_> {
    fn booking(&self, shop: &Shop) -> Option<Call>
        ensures { ReadsCall (codes "book") shop.now.tables self.now result }
    {
        if !self.number.is_empty() {
            return None;
        }
        let item = item_in(shop.tables(), self.item)?;
        let week = week_in(shop, self.week)?;
        let quantity = pieces_in(self.quantity)?;
        let line = Line::new(shop, item, week, quantity);
        Some(Call::Book(line.ok()?))
    }

    fn cancellation(&self) -> Option<Call>
        ensures { (t : Tables) → ReadsCall (codes "cancel") t self.now result }
    {
        if !self.item.is_empty() || !self.week.is_empty() || !self.quantity.is_empty() {
            return None;
        }
        Some(Call::Cancel(number_in(self.number, 1, MOST_ENTRIES)?))
    }

    fn question(&self, shop: &Shop) -> Option<Call>
        ensures { ReadsCall (codes "ask") shop.now.tables self.now result }
    {
        if !self.quantity.is_empty() || !self.number.is_empty() {
            return None;
        }
        let item = item_in(shop.tables(), self.item)?;
        let week = week_in(shop, self.week)?;
        let spot = Spot::new(shop, item, week);
        Some(Call::Ask(spot.ok()?))
    }

    fn wish(&self, shop: &Shop) -> Option<Call>
        ensures { ReadsCall (codes "when") shop.now.tables self.now result }
    {
        if !self.week.is_empty() || !self.number.is_empty() {
            return None;
        }
        let item = item_in(shop.tables(), self.item)?;
        let quantity = pieces_in(self.quantity)?;
        let wish = Wish::new(shop, item, quantity);
        Some(Call::When(wish.ok()?))
    }

    fn run(&self) -> Option<Call>
        ensures { (t : Tables) → ReadsCall (codes "run") t self.now result }
    {
        let bare = self.item.is_empty()
            && self.week.is_empty()
            && self.quantity.is_empty()
            && self.number.is_empty();
        if bare { Some(Call::Snapshot) } else { None }
    }

    /// The call with these cells, if a script may have one.
    pub(crate) fn call(&self, shop: &Shop) -> Option<Call>
        ensures { ReadsCall self.now.word.now shop.now.tables self.now result }
    {
        if is_word(self.word, "book") {
            return self.booking(shop);
        }
        if is_word(self.word, "cancel") {
            return self.cancellation();
        }
        if is_word(self.word, "ask") {
            return self.question(shop);
        }
        if is_word(self.word, "when") {
            return self.wish(shop);
        }
        if is_word(self.word, "run") {
            return self.run();
        }
        None
    }
}
