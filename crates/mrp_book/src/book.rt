//! The order book, for one thread.

use crate::call::Call;
use crate::history::History;
use crate::refused::Refused;
use crate::reply::Reply;
use crate::state::BookState;
use mrp_bill::Shop;
use mrp_qty::NoMemory;
use mrp_tables::limits::{MOST_DESKS, MOST_ENTRIES};
use mrp_turn::Entry;
use std::alloc::Global;
use std::marker::Model;

/// An order book with its history, for one thread.
#[derive(Drop)]
pub struct Book {
    state: BookState,
    entries: Vec<Entry<Call, Reply>>,
}

impl Model for Book {
    ghost use Rattle.mrp_book.specs.Books.{KeepsHistory, OrderBook};

    ghost Value = { OrderBook };

    ghost view = { λ b. record { supply = b.state.supply; entries = b.entries.items } };

    ghost invariant = { λ b. KeepsHistory b.state b.entries.items };
}

impl Book {
    ghost use Rattle.std.specs.Prelude.{◌≡◌, ◌↔◌, ◌++◌, ◌∷◌, ◌≤◌, [], length, Err, IfOk, IsTrue, OnErr};
    ghost use Rattle.std.specs.Int.{IsInRange};
    ghost use Rattle.mrp_turn.specs.Log.{entry};
    ghost use Rattle.mrp_master.specs.Supply.{supply_of};
    ghost use Rattle.mrp_book.specs.Books.{OrderBook};
    ghost use Rattle.mrp_book.specs.History.{Fits, IsFull, IsLegal, IsReply, next_number};

    /// The order book of a shop, without an entry.
    ///
    /// Errors: `NoMemory` if an allocation fails.
    pub fn open(alloc: Global, shop: &Shop) -> Result<Book, NoMemory>
        ensures { IfOk result (λ b. b ≡ record { supply = supply_of shop.now.tables; entries = [] }) }
    {
        let state = BookState::open(alloc, shop)?;
        let entries = Vec::new(alloc);
        Ok(Book { state, entries })
    }

    /// Answers a desk's call, and makes an entry of it: returns the entry's number and the reply. The
    /// desk must be from 1 to 64, and the call must have been made for an equal shop.
    ///
    /// Errors: `Full` exactly if the book has 1,000,000 entries, before all else, and `NoMemory` if an
    /// allocation fails. After an error the book is unchanged.
    pub fn call(&mut self, alloc: Global, desk: u64, call: Call) -> Result<(u64, Reply), Refused>
        requires desk { IsInRange 1 MOST_DESKS desk }
        requires fits { Fits self.old.supply call }
        ensures number { IfOk result (λ answer. answer.0 ≡ next_number self.old.entries) }
        ensures reply { IfOk result (λ answer. IsReply self.old.supply self.old.entries desk call answer.1) }
        ensures entry { IfOk result (λ answer. self.new ≡ record { supply = self.old.supply; entries = self.old.entries ++ entry desk call answer.1 ∷ [] }) }
        ensures full { result ≡ Err Refused.Full ↔ IsFull self.old.entries }
        ensures refused { OnErr result (self.new ≡ self.old) }
    {
        if self.state.is_full() {
            return Err(Refused::Full);
        }
        if self.entries.try_reserve(1).is_err() {
            return Err(Refused::NoMemory);
        }
        let number = self.state.next_number();
        let (reply, copy) = self.state.apply(alloc, desk, &call)?;
        self.entries.push_reserved(Entry {
            who: desk,
            call,
            reply: copy,
        });
        Ok((number, reply))
    }

    /// Whether the book has 1,000,000 entries: then every call is refused.
    pub fn is_full(&self) -> bool
        ensures { IsTrue result ↔ IsFull self.now.entries }
    {
        self.state.is_full()
    }

    /// The entries. An entry's number is its place, from 1.
    pub fn entries(&self) -> &[Entry<Call, Reply>]
        ensures entries { result.now ≡ self.now.entries }
        ensures legal { IsLegal self.now.supply result.now }
        ensures few { length result.now ≤ MOST_ENTRIES }
    {
        &self.entries
    }

    /// The history.
    pub fn into_history(self) -> History
        ensures { result ≡ self }
    {
        let Book { state, entries } = self;
        let Some(history) = History::new(state.into_supply(), entries) else {
            unreachable!()
        };
        history
    }
}
