//! Histories of the order book.

use crate::call::Call;
use crate::reply::Reply;
use mrp_master::Supply;
use mrp_tables::limits::MOST_ENTRIES;
use mrp_turn::Entry;
use std::marker::Model;

/// The calls on an order book and its replies, entry by entry, with the supply that it promised from.
/// It is legal: the entries before an entry decide its reply; and it has at most 1,000,000 entries.
#[derive(Drop)]
pub struct History {
    supply: Supply,
    entries: Vec<Entry<Call, Reply>>,
}

impl Model for History {
    ghost use Rattle.mrp_book.specs.Books.{IsHistory, OrderBook};

    ghost Value = { OrderBook };

    ghost view = { λ h. record { supply = h.supply; entries = h.entries.items } };

    ghost invariant = { λ h. IsHistory h.supply h.entries.items };
}

impl History {
    ghost use Rattle.std.specs.Prelude.{◌≡◌, ◌↔◌, ◌≤◌, ◌<◌, IfSome, IsNone, length};
    ghost use Rattle.mrp_book.specs.Books.{OrderBook};
    ghost use Rattle.mrp_book.specs.History.{IsLegal};

    /// The history of entries, which must be legal over the supply; `None` exactly if there are more
    /// than 1,000,000. It does not allocate.
    pub fn new(supply: Supply, entries: Vec<Entry<Call, Reply>>) -> Option<History>
        requires { IsLegal supply entries.items }
        ensures value { IfSome result (λ h. h ≡ record { supply = supply; entries = entries.items }) }
        ensures many { IsNone result ↔ (MOST_ENTRIES < length entries.items) }
    {
        if entries.len() as u64 > MOST_ENTRIES {
            return None;
        }
        Some(History { supply, entries })
    }

    /// The entries. An entry's number is its place, from 1.
    pub fn entries(&self) -> &[Entry<Call, Reply>]
        ensures entries { result.now ≡ self.now.entries }
        ensures legal { IsLegal self.now.supply result.now }
        ensures few { length result.now ≤ MOST_ENTRIES }
    {
        &self.entries
    }
}
