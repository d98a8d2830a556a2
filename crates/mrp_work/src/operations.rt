//! The operations of routings, by their items.

ghost use Rattle.std.specs.Prelude.{◌≡◌, ◌<◌, ℕ, All, IfOk, length, map};
ghost use Rattle.mrp_bill.specs.Grouped.{listed};
ghost use Rattle.mrp_work.specs.Work.{of_operation, operations_of};

use mrp_bill::{Grouped, Numbered};
use mrp_qty::NoMemory;
use mrp_tables::Operation;
use std::alloc::Global;

// An operation, numbered by its item.
fn of_operation(operation: &Operation) -> Numbered<Operation>
    ensures { result ≡ of_operation operation.now }
{
    Numbered {
        number: operation.item,
        value: *operation,
    }
}

// Operations, numbered by their items.
fn numbered(alloc: Global, routings: &[Operation]) -> Result<Vec<Numbered<Operation>>, NoMemory>
    ensures { IfOk result (λ numbered. numbered.items ≡ map of_operation routings.now) }
{
    let numbered = routings.iter().map(|row| of_operation(row)).collect(alloc)?;
    Ok(numbered)
}

// The operations of each item, in table order.
pub(crate) fn operations_by_item(
    alloc: Global,
    count: usize,
    routings: &[Operation],
) -> Result<Grouped<Operation>, NoMemory>
    requires { All (λ o. o.item < count) routings.now }
    ensures size { IfOk result (λ groups. length groups ≡ count) }
    ensures groups { IfOk result (λ groups. (i : ℕ) → i < count → listed groups i ≡ operations_of routings.now i) }
{
    let numbered = numbered(alloc, routings)?;
    Grouped::of(alloc, count, &numbered)
}
