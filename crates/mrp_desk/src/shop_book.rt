//! The order book as the object that desks take turns on.

use mrp_bill::Shop;
use mrp_book::{BookState, Call, Refused, Reply};
use mrp_qty::NoMemory;
use mrp_turn::Object;
use std::alloc::Global;
use std::marker::Model;
use std::sync::Arc;

/// The order book of a shop, as an object whose state is a [`BookState`]. Contracts see the shop.
#[derive(Drop)]
pub struct ShopBook {
    shop: Arc<Shop>,
    // The allocator of bookings and snapshots.
    alloc: Global,
}

impl Model for ShopBook {
    ghost use Rattle.mrp_bill.specs.Shop.{Shop};

    ghost Value = { Shop };

    ghost view = { λ b. b.shop.value };
}

impl ShopBook {
    ghost use Rattle.std.specs.Prelude.{◌≡◌, IfOk};
    ghost use Rattle.mrp_desk.specs.ShopBook.{Opens};

    // The order book of a shop, and its state without entries.
    pub(crate) fn open(alloc: Global, shop: Shop) -> Result<(ShopBook, BookState), NoMemory>
        ensures { IfOk result (λ r. (r.0 ≡ shop) × Opens r.0 r.1) }
    {
        let state = BookState::open(alloc, &shop)?;
        let shop = Arc::new(alloc, shop)?;
        Ok((ShopBook { shop, alloc }, state))
    }

    // The shop.
    pub(crate) fn shop(&self) -> &Arc<Shop>
        ensures { result.now.value ≡ self.now }
    {
        &self.shop
    }
}

impl Object for ShopBook {
    ghost use Rattle.mrp_master.specs.Supply.{supply_of};
    ghost use Rattle.mrp_book.specs.History.{Fits};
    ghost use Rattle.mrp_desk.specs.ShopBook.{Opens, Answers, Refuses, IsOutOfMemory};

    type State = BookState;

    type Call = Call;

    type Reply = Reply;

    type Refused = Refused;

    ghost opens = { Opens };

    ghost fits = { λ shop call. Fits (supply_of shop.tables) call };

    ghost answers = { Answers };

    ghost refuses = { λ _ b _ _ e. Refuses b e };

    ghost out_of_memory = { λ _ b _ call e. IsOutOfMemory b call e };

    fn apply(
        &self,
        state: &mut BookState,
        who: u64,
        call: &Call,
    ) -> Result<(Reply, Reply), Refused> {
        state.apply(self.alloc, who, call)
    }
}
