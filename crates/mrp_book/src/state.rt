//! The state of an order book between two calls.

use crate::booking::Booking;
use crate::call::Call;
use crate::made::MadeList;
use crate::refused::Refused;
use crate::reply::Reply;
use crate::rows::{give, rows_of, take};
use crate::snapshot::Snapshot;
use mrp_bill::Shop;
use mrp_master::{AtpRow, Line, Spot, Supply, Wish};
use mrp_qty::{NoMemory, Qty};
use mrp_tables::limits::MOST_ENTRIES;
use std::alloc::Global;
use std::marker::Model;

/// An order book without its history: the supply that it promises from, the number of entries, and
/// the standing bookings.
///
/// It keeps an available-to-promise row for each master item, and every booking that was made, with
/// a flag whether it stands.
#[derive(Drop)]
pub struct BookState {
    supply: Supply,
    rows: Vec<Option<AtpRow>>,
    made: MadeList,
    entries: u64,
}

impl Model for BookState {
    ghost use Rattle.mrp_book.specs.BookState.{BookState};
    ghost use Rattle.mrp_book.specs.Made.{KeepsState, standing_of};

    ghost Value = { BookState };

    ghost view = { λ b. record { supply = b.supply; entries = b.entries; standing = standing_of b.made } };

    ghost invariant = { λ b. KeepsState b.supply b.entries b.rows.items b.made };
}

impl BookState {
    ghost use Rattle.std.specs.Prelude.{◌≡◌, ◌==◌, ◌↔◌, ◌+◌, ◌<◌, [], ℕ, Err, IfOk, IsSome, IsTrue, OnErr, OnOk, find};
    ghost use Rattle.mrp_master.specs.AtpRow.{atp_row};
    ghost use Rattle.mrp_master.specs.Supply.{CanPromise, IsAvailable, IsEarliest, IsMaster, IsSupply, IsWeek, supply_of};
    ghost use Rattle.mrp_book.specs.Booked.{AreBooked};
    ghost use Rattle.mrp_book.specs.BookState.{BookState};
    ghost use Rattle.mrp_book.specs.Bookings.{lines_of};
    ghost use Rattle.mrp_book.specs.declared.call.Call.TheVariants as call;
    ghost use Rattle.mrp_book.specs.declared.reply.Reply.TheVariants as reply;
    ghost use Rattle.mrp_book.specs.History.{Fits, IsLimit, IsReplyIn, TakesMemory, state_after};

    /// The state of a shop's order book without an entry.
    ///
    /// Errors: `NoMemory` if an allocation fails.
    pub fn open(alloc: Global, shop: &Shop) -> Result<BookState, NoMemory>
        ensures { IfOk result (λ b. b ≡ record { supply = supply_of shop.now.tables; entries = 0; standing = [] }) }
    {
        let supply = Supply::of(alloc, shop)?;
        let rows = rows_of(alloc, &supply, shop.tables().items().len())?;
        Ok(BookState {
            supply,
            rows,
            made: MadeList::new(alloc),
            entries: 0,
        })
    }

    /// Answers a desk's call: returns the reply, and an equal copy. The call must have been made for an
    /// equal shop.
    ///
    /// Errors: `Full` exactly if 1,000,000 entries were made, before all else, and `NoMemory` if an
    /// allocation fails; only a booking that is not short and a snapshot allocate. After an error the
    /// state is unchanged.
    pub fn apply(
        &mut self,
        alloc: Global,
        desk: u64,
        call: &Call,
    ) -> Result<(Reply, Reply), Refused>
        requires fits { Fits self.old.supply call.now }
        ensures reply { IfOk result (λ answer. IsReplyIn self.old desk call.now answer.0) }
        ensures copy { IfOk result (λ answer. answer.1 ≡ answer.0) }
        ensures after { IfOk result (λ answer. self.new ≡ state_after self.old desk call.now answer.0) }
        ensures full { result ≡ Err Refused.Full ↔ IsLimit self.old.entries }
        ensures memory { result ≡ Err Refused.NoMemory → TakesMemory self.old call.now }
        ensures refused { OnErr result (self.new ≡ self.old) }
    {
        if self.is_full() {
            return Err(Refused::Full);
        }
        let reply = self.reply(alloc, desk, call)?;
        let copy = reply.copy()?;
        self.enter(alloc, desk, call, &reply)?;
        Ok((reply, copy))
    }

    /// Whether 1,000,000 entries were made: then every call is refused.
    pub fn is_full(&self) -> bool
        ensures { IsTrue result ↔ IsLimit self.now.entries }
    {
        self.entries >= MOST_ENTRIES
    }

    /// The number of the next entry.
    pub fn next_number(&self) -> u64
        ensures { result ≡ self.now.entries + 1 }
    {
        self.entries + 1
    }

    /// The supply that it promises from.
    pub fn into_supply(self) -> Supply
        ensures { result ≡ self.supply }
    {
        let BookState {
            supply,
            rows: _,
            made: _,
            entries: _,
        } = self;
        supply
    }

    // The reply to a desk's call.
    fn reply(&self, alloc: Global, desk: u64, call: &Call) -> Result<Reply, NoMemory>
        requires fits { Fits self.now.supply call.now }
        ensures reply { IfOk result (IsReplyIn self.now desk call.now) }
        ensures memory { OnErr result (TakesMemory self.now call.now) }
    {
        match call {
            Call::Book(line) => Ok(self.reply_to_book(*line)),
            Call::Cancel(number) => Ok(self.reply_to_cancel(desk, *number)),
            Call::Ask(spot) => Ok(self.reply_to_ask(*spot)),
            Call::When(wish) => Ok(self.reply_to_when(*wish)),
            Call::Snapshot => Ok(Reply::Taken(self.snapshot(alloc)?)),
            Call::Front => Ok(Reply::Front(self.next_number())),
        }
    }

    fn reply_to_book(&self, line: Line) -> Reply
        requires fits { Fits self.now.supply (call.Book line) }
        ensures { (desk : ℕ) → IsReplyIn self.now desk (call.Book line) result }
    {
        let available = self.available(line.item(), line.week());
        if line.quantity().value() <= available.value() {
            Reply::Booked(self.next_number())
        } else {
            Reply::Short(available)
        }
    }

    fn reply_to_cancel(&self, desk: u64, number: u64) -> Reply
        ensures { IsReplyIn self.now desk (call.Cancel number) result }
    {
        match self.find(number) {
            None => Reply::NotStanding,
            Some(booking) if booking.desk == desk => Reply::Cancelled,
            Some(_) => Reply::NotYours,
        }
    }

    fn reply_to_ask(&self, spot: Spot) -> Reply
        requires fits { Fits self.now.supply (call.Ask spot) }
        ensures { (desk : ℕ) → IsReplyIn self.now desk (call.Ask spot) result }
    {
        Reply::Available(self.available(spot.item(), spot.week()))
    }

    fn reply_to_when(&self, wish: Wish) -> Reply
        requires fits { Fits self.now.supply (call.When wish) }
        ensures { (desk : ℕ) → IsReplyIn self.now desk (call.When wish) result }
    {
        match self.earliest(wish.item(), wish.quantity()) {
            Some(week) => Reply::Week(week),
            None => Reply::NoWeek,
        }
    }

    // The standing bookings, with the number of the next entry.
    fn snapshot(&self, alloc: Global) -> Result<Snapshot, NoMemory>
        ensures { IfOk result (λ s. s ≡ record { front = self.now.entries + 1; weeks = self.now.supply.weeks; standing = self.now.standing }) }
    {
        let made = self.made.copy(alloc)?;
        Snapshot::of(alloc, self.next_number(), self.supply.weeks(), made)
    }

    // The booking with a number, if it stands.
    fn find(&self, number: u64) -> Option<Booking>
        ensures { result ≡ find (λ b. b.number == number) self.now.standing }
    {
        let place = self.made.place_of(number)?;
        let made = self.made.at(place);
        if made.stands {
            Some(made.booking)
        } else {
            None
        }
    }

    // The row of a master item.
    fn row(&self, item: usize) -> &AtpRow
        requires { IsMaster self.now.supply item }
        ensures row { result.now ≡ atp_row self.now.supply item (lines_of self.now.standing) }
        ensures supplied { IsSupply self.now.supply }
        ensures booked { AreBooked self.now.supply self.now.standing }
    {
        match &self.rows[item] {
            Some(row) => row,
            None => unreachable!(),
        }
    }

    // What is available to promise of an item in a week.
    fn available(&self, item: usize, week: u16) -> Qty
        requires item { IsMaster self.now.supply item }
        requires week { IsWeek self.now.supply week }
        ensures { IsAvailable self.now.supply (lines_of self.now.standing) item week result }
    {
        self.row(item).available(week)
    }

    // The first week in which a quantity of an item is available to promise.
    fn earliest(&self, item: usize, quantity: Qty) -> Option<u16>
        requires { IsMaster self.now.supply item }
        ensures { IsEarliest self.now.supply (lines_of self.now.standing) item quantity result }
    {
        self.row(item).earliest(quantity)
    }

    // Makes an entry of a call and its reply.
    fn enter(
        &mut self,
        alloc: Global,
        desk: u64,
        call: &Call,
        reply: &Reply,
    ) -> Result<(), NoMemory>
        requires few { self.old.entries < MOST_ENTRIES }
        requires fits { Fits self.old.supply call.now }
        requires reply { IsReplyIn self.old desk call.now reply.now }
        ensures after { OnOk result (self.new ≡ state_after self.old desk call.now reply.now) }
        ensures refused { OnErr result (self.new ≡ self.old) }
        ensures memory { OnErr result (TakesMemory self.old call.now) }
    {
        match (call, reply) {
            (Call::Book(line), Reply::Booked(_)) => self.enter_booking(alloc, desk, *line)?,
            (Call::Cancel(number), Reply::Cancelled) => self.enter_cancel(*number),
            _ => self.entries += 1,
        }
        Ok(())
    }

    // Books a line that is available.
    fn enter_booking(&mut self, alloc: Global, desk: u64, line: Line) -> Result<(), NoMemory>
        requires few { self.old.entries < MOST_ENTRIES }
        requires fits { Fits self.old.supply (call.Book line) }
        requires available { CanPromise self.old.supply (lines_of self.old.standing) line.item line.quantity line.week }
        ensures after { OnOk result (self.new ≡ state_after self.old desk (call.Book line) (reply.Booked (self.old.entries + 1))) }
        ensures refused { OnErr result (self.new ≡ self.old) }
    {
        let number = self.entries + 1;
        self.made.push(alloc, Booking { number, desk, line })?;
        self.entries = number;
        take(&mut self.rows[line.item()], line);
        Ok(())
    }

    // Cancels the standing booking with a number.
    fn enter_cancel(&mut self, number: u64)
        requires few { self.old.entries < MOST_ENTRIES }
        requires stands { IsSome (find (λ b. b.number == number) self.old.standing) }
        ensures { (desk : ℕ) → self.new ≡ state_after self.old desk (call.Cancel number) reply.Cancelled }
    {
        let Some(place) = self.made.place_of(number) else {
            unreachable!()
        };
        let line = self.made.cancel(place).booking.line;
        give(&mut self.rows[line.item()], line);
        self.entries += 1;
    }
}
