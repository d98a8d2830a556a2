//! The late orders, the latest first.

ghost use Rattle.std.specs.Prelude.{IfOk};
ghost use Rattle.mrp_risk.specs.Late.{AreLateOrders, AreLateRows};

use mrp_qty::NoMemory;
use std::alloc::Global;

// A late order, and how many weeks it is late.
#[derive(Clone, Copy)]
pub(crate) struct Late {
    pub(crate) order: usize,
    pub(crate) weeks: u64,
}

// The late orders by their numbers.
fn late_rows(alloc: Global, lateness: &[u64]) -> Result<Vec<Late>, NoMemory>
    ensures { IfOk result (λ rows. AreLateRows lateness.now rows.items) }
{
    let mut rows = Vec::new(alloc);
    for (order, weeks) in lateness.iter().enumerate() {
        if *weeks > 0 {
            rows.push(Late {
                order,
                weeks: *weeks,
            })?;
        }
    }
    Ok(rows)
}

// The late orders, the latest first, and of equally late ones the one with the least number.
pub(crate) fn late_orders(alloc: Global, lateness: &[u64]) -> Result<Vec<Late>, NoMemory>
    ensures { IfOk result (λ late. AreLateOrders lateness.now late.items) }
{
    let mut late = late_rows(alloc, lateness)?;
    late.sort_by_key(|row| u64::MAX - row.weeks)?;
    Ok(late)
}
