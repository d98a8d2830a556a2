//! The office: desks that share an order book.

ghost use Rattle.std.specs.Prelude.{◌≢◌, IfErr};
ghost use Rattle.mrp_turn.specs.declared.turn.CallFault.TheVariants as fault;
ghost use Rattle.mrp_desk.specs.Calls.{IsAnswerOf};

use crate::fault::OfficeFault;
use crate::shop_book::ShopBook;
use mrp_bill::Shop;
use mrp_book::{Call, History, Line, Refused, Reply, Spot, Wish};
use mrp_tables::limits::{MOST_DESKS, MOST_ENTRIES};
use mrp_turn::{CallFault, Seat, Turn};
use std::alloc::Global;
use std::marker::Model;
use std::sync::{Arc, Wait};

// One place more than an order book's greatest number of entries, so that the log never grows.
const ROOM: usize = MOST_ENTRIES as usize + 1;

/// An order desk, with which one thread at a time makes calls. Contracts see its office, its number,
/// what it has seen of the order book's history, and its own entries; the last two have no bytes.
pub type Desk = Seat<ShopBook>;

/// An office of order desks: a shop, and the history of its order book. Calls are answered one at a
/// time, and each answered call makes one entry.
#[derive(Drop)]
pub struct Office {
    turn: Turn<ShopBook>,
}

impl Model for Office {
    ghost use Rattle.std.specs.Prelude.{◌≡◌, ◌+◌};
    ghost use Rattle.mrp_tables.specs.declared.limits.TheConstants.{MOST_ENTRIES};
    ghost use Rattle.mrp_turn.specs.Seen.{TurnId};
    ghost use Rattle.mrp_bill.specs.Shop.{Shop};

    ghost Value = { TurnId Shop };

    ghost view = { λ o. o.turn };

    ghost invariant = { λ o. o.turn.about.room ≡ MOST_ENTRIES + 1 };
}

impl Office {
    ghost use Rattle.std.specs.Prelude.{◌≡◌, ◌+◌, ◌<◌, ◌≤◌, ℕ, All, IfErr, IfOk, OnOk, Some, length, slice_get};
    ghost use Rattle.mrp_turn.specs.Lists.{StartsWith};
    ghost use Rattle.mrp_turn.specs.Log.{entries_by};
    ghost use Rattle.mrp_turn.specs.Seen.{HasNumber, newcomer};
    ghost use Rattle.mrp_book.specs.declared.call.Call.TheVariants as call;
    ghost use Rattle.mrp_book.specs.declared.refused.Refused.TheVariants as refused;
    ghost use Rattle.mrp_book.specs.History.{Fits, IsLegal};
    ghost use Rattle.mrp_desk.specs.Calls.{IsSnapshot, Tells};
    ghost use Rattle.mrp_desk.specs.Faults.{HasFault};
    ghost use Rattle.mrp_desk.specs.Offices.{supply_at};

    /// An office with a shop's order book without entries, and its desks, numbered from 1. Its history has
    /// places for all entries that the book can have.
    ///
    /// Errors, in this order: `Desks` if the number of desks is 0 or over `MOST_DESKS`; `NoMemory` if an
    /// allocation fails.
    pub fn open(alloc: Global, shop: Shop, desks: u64) -> Result<(Office, Vec<Desk>), OfficeFault>
        ensures accepted { OnOk result ((1 ≤ desks) × (desks ≤ MOST_DESKS)) }
        ensures shop { IfOk result (λ r. r.0.about.object ≡ shop) }
        // As many desks as requested; the k-th has the number k, and has seen and called nothing.
        ensures asked { IfOk result (λ r. r.0.about.seats ≡ desks) }
        ensures count { IfOk result (λ r. length r.1.items ≡ desks) }
        ensures desks { IfOk result (λ r. (k : ℕ) → k < desks → slice_get r.1.items k ≡ Some (newcomer r.0 (k + 1))) }
        ensures fault { IfErr result (HasFault desks) }
    {
        if desks == 0 || desks > MOST_DESKS {
            return Err(OfficeFault::Desks);
        }
        let (book, state) = ShopBook::open(alloc, shop)?;
        match Turn::new(alloc, book, state, ROOM, desks) {
            Ok((turn, desks)) => Ok((Office { turn }, desks)),
            Err(_) => Err(OfficeFault::NoMemory),
        }
    }

    /// The shop that the office was opened with.
    pub fn shop(&self) -> &Arc<Shop>
        ensures { result.now.value ≡ self.now.about.object }
    {
        self.turn.object().shop()
    }

    /// Books a quantity of an item, due in a week: returns the entry's number and the reply. The line must
    /// be one of the shop, and the desk one of this office, here and in the calls below. All of them may
    /// wait for calls of other desks.
    ///
    /// Errors: `Full` if the book has 1,000,000 entries, and `NoMemory` if an allocation fails; a short
    /// booking does not allocate. After an error no entry was made.
    pub fn book<R: Wait>(
        &self,
        rt: &R,
        desk: &mut Desk,
        line: Line,
    ) -> Result<(u64, Reply), Refused>
        requires office { desk.old.turn ≡ self.now }
        requires line { Fits (supply_at self.now) (call.Book line) }
        ensures told { Tells (supply_at self.now) (call.Book line) desk.old result desk.new }
    {
        self.call(rt, desk, Call::Book(line))
    }

    /// Cancels the booking of the entry with a number.
    ///
    /// Errors: `Full` alone, as of [`Office::book`].
    pub fn cancel<R: Wait>(
        &self,
        rt: &R,
        desk: &mut Desk,
        number: u64,
    ) -> Result<(u64, Reply), Refused>
        requires office { desk.old.turn ≡ self.now }
        ensures told { Tells (supply_at self.now) (call.Cancel number) desk.old result desk.new }
        ensures full { IfErr result (λ e. e ≡ refused.Full) }
    {
        self.call(rt, desk, Call::Cancel(number))
    }

    /// Asks what is available to promise of an item in a week.
    ///
    /// Errors: `Full` alone, as of [`Office::book`].
    pub fn ask<R: Wait>(&self, rt: &R, desk: &mut Desk, spot: Spot) -> Result<(u64, Reply), Refused>
        requires office { desk.old.turn ≡ self.now }
        requires spot { Fits (supply_at self.now) (call.Ask spot) }
        ensures told { Tells (supply_at self.now) (call.Ask spot) desk.old result desk.new }
        ensures full { IfErr result (λ e. e ≡ refused.Full) }
    {
        self.call(rt, desk, Call::Ask(spot))
    }

    /// Asks for the first week in which a quantity of an item is available to promise.
    ///
    /// Errors: `Full` alone, as of [`Office::book`].
    pub fn when<R: Wait>(
        &self,
        rt: &R,
        desk: &mut Desk,
        wish: Wish,
    ) -> Result<(u64, Reply), Refused>
        requires office { desk.old.turn ≡ self.now }
        requires wish { Fits (supply_at self.now) (call.When wish) }
        ensures told { Tells (supply_at self.now) (call.When wish) desk.old result desk.new }
        ensures full { IfErr result (λ e. e ≡ refused.Full) }
    {
        self.call(rt, desk, Call::When(wish))
    }

    /// Takes a snapshot of the standing bookings, including those of this desk.
    ///
    /// Errors: as of [`Office::book`].
    pub fn snapshot<R: Wait>(&self, rt: &R, desk: &mut Desk) -> Result<(u64, Reply), Refused>
        requires office { desk.old.turn ≡ self.now }
        ensures told { Tells (supply_at self.now) call.Snapshot desk.old result desk.new }
        ensures taken { IfOk result (IsSnapshot (supply_at self.now) desk.old desk.new) }
    {
        self.call(rt, desk, Call::Snapshot)
    }

    /// Asks for the number of the entry that this call makes.
    ///
    /// Errors: `Full` alone, as of [`Office::book`].
    pub fn front<R: Wait>(&self, rt: &R, desk: &mut Desk) -> Result<(u64, Reply), Refused>
        requires office { desk.old.turn ≡ self.now }
        ensures told { Tells (supply_at self.now) call.Front desk.old result desk.new }
        ensures full { IfErr result (λ e. e ≡ refused.Full) }
    {
        self.call(rt, desk, Call::Front)
    }

    /// The call [`Office::front`], after which this desk has seen all that the other desk had seen.
    /// The other keeps its lists.
    ///
    /// Errors: as of [`Office::front`].
    pub fn meet<R: Wait>(
        &self,
        rt: &R,
        desk: &mut Desk,
        other: &mut Desk,
    ) -> Result<(u64, Reply), Refused>
        requires office { (desk.old.turn ≡ self.now) × (other.old.turn ≡ self.now) }
        ensures told { Tells (supply_at self.now) call.Front desk.old result desk.new }
        ensures full { IfErr result (λ e. e ≡ refused.Full) }
        ensures met { StartsWith desk.new.seen other.old.seen }
        ensures other { other.new ≡ other.old }
    {
        answered(self.turn.meet(rt, desk, other, Call::Front))
    }

    /// Ends the office, and returns the history of its order book. All desks must be given. It does not
    /// allocate.
    pub fn close(self, desks: Vec<Desk>) -> History
        requires office { All (λ d. d.turn ≡ self) desks.items }
        requires all { (n : ℕ) → 1 ≤ n → n ≤ self.about.seats → HasNumber desks.items n }
        ensures supply { result.supply ≡ supply_at self }
        ensures legal { IsLegal result.supply result.entries }
        ensures few { length result.entries ≤ MOST_ENTRIES }
        // What each desk has seen is a prefix of the history, and its own entries are all those under its
        // number.
        ensures seen { All (λ d. StartsWith result.entries d.seen) desks.items }
        ensures mine { All (λ d. d.mine ≡ entries_by d.number result.entries) desks.items }
        // Every entry is under the number of one of the desks.
        ensures callers { All (λ e. HasNumber desks.items e.who) result.entries }
    {
        let Office { turn } = self;
        let (state, log) = turn.close(desks);
        let entries = log.into_entries();
        let Some(history) = History::new(state.into_supply(), entries) else {
            unreachable!()
        };
        history
    }

    // A call of a desk.
    fn call<R: Wait>(&self, rt: &R, desk: &mut Desk, call: Call) -> Result<(u64, Reply), Refused>
        requires office { desk.old.turn ≡ self.now }
        requires fits { Fits (supply_at self.now) call }
        ensures { Tells (supply_at self.now) call desk.old result desk.new }
    {
        answered(self.turn.call(rt, desk, call))
    }
}

// The answer to a desk: its call never lacks a place in the log.
fn answered(given: Result<(u64, Reply), CallFault<Refused>>) -> Result<(u64, Reply), Refused>
    requires { IfErr given (λ f. f ≢ fault.NoMemory) }
    ensures { IsAnswerOf given result }
{
    match given {
        Ok(answer) => Ok(answer),
        Err(CallFault::Refused(refused)) => Err(refused),
        Err(CallFault::NoMemory) => unreachable!(),
    }
}
