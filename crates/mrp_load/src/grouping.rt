//! Operations by their work centres.

ghost use Rattle.std.specs.Prelude.{◌≡◌, ◌<◌, ◌==◌, ℕ, All, filter, length, IfOk};
ghost use Rattle.mrp_bill.specs.Lists.{listed};

use mrp_bill::{append, empty_lists};
use mrp_qty::NoMemory;
use mrp_tables::Operation;
use std::alloc::Global;

// The operations at each centre, in table order.
pub fn operations_by_centre(
    alloc: Global,
    count: usize,
    operations: &[Operation],
) -> Result<Vec<Vec<Operation>>, NoMemory>
    requires { All (λ o. o.centre < count) operations.now }
    ensures size { IfOk result (λ groups. length groups.items ≡ count) }
    ensures groups { IfOk result (λ groups. (centre : ℕ) → listed groups.items centre ≡ filter (λ o. o.centre == centre) operations.now) }
{
    let mut groups = empty_lists(alloc, count)?;
    for operation in operations {
        append(&mut groups, operation.centre, *operation)?;
    }
    Ok(groups)
}
