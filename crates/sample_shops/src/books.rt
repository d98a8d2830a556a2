//! Order books of sample shops.

ghost use Rattle.std.specs.Prelude.{◌≡◌, IfOk};
ghost use Rattle.mrp_master.specs.Supply.{supply_of};
ghost use Rattle.mrp_book.specs.Booked.{AreBooked};

use crate::asked::Asked;
use mrp_bill::Shop;
use mrp_book::{Book, Call, Reply, Snapshot};
use mrp_item::Inputs;
use std::alloc::Global;
use std::sync::Arc;
use std::test::Fail;

/// The order book of a shop, after these calls of its desks.
pub fn book_of(alloc: Global, shop: &Shop, calls: &[(u64, Asked)]) -> Result<Book, Fail>
    ensures { IfOk result (λ b. b.supply ≡ supply_of shop.now.tables) }
{
    let mut book = Book::open(alloc, shop)?;
    match make_calls(alloc, shop, &mut book, calls) {
        Ok(()) => Ok(book),
        Err(fail) => {
            drop(book);
            Err(fail)
        }
    }
}

// Makes these calls of a shop's desks on its order book.
fn make_calls(
    alloc: Global,
    shop: &Shop,
    book: &mut Book,
    calls: &[(u64, Asked)],
) -> Result<(), Fail>
    requires { book.old.supply ≡ supply_of shop.now.tables }
    ensures { IfOk result (λ _. book.new.supply ≡ supply_of shop.now.tables) }
{
    for (desk, asked) in calls {
        if *desk < 1 || 64 < *desk {
            return Err(Fail::from("a desk from 1 to 64"));
        }
        let call = asked.call(shop)?;
        let answered = book.call(alloc, *desk, call)?;
        drop(answered);
    }
    Ok(())
}

/// The snapshot after these calls of a shop's desks: desk 1 calls for it.
pub fn snapshot_of(alloc: Global, shop: &Shop, calls: &[(u64, Asked)]) -> Result<Snapshot, Fail>
    ensures { IfOk result (λ s. AreBooked (supply_of shop.now.tables) s.standing) }
{
    let mut book = book_of(alloc, shop, calls)?;
    let _legal = book.entries();
    let (_, reply) = book.call(alloc, 1, Call::Snapshot)?;
    match reply {
        Reply::Taken(snapshot) => Ok(snapshot),
        _ => Err(Fail::from("a snapshot")),
    }
}

/// The inputs of another plan of a shop: the bookings that stand after these calls of its desks.
pub fn inputs_after(
    alloc: Global,
    inputs: &Inputs,
    calls: &[(u64, Asked)],
) -> Result<Arc<Inputs>, Fail>
    ensures { IfOk result (λ other. inputs.now.tables ≡ other.value.tables) }
{
    let rows = inputs.rows().clone()?;
    let snapshot = snapshot_of(alloc, rows.shop(), calls)?;
    Ok(Inputs::over(alloc, rows, snapshot)?)
}
