//! Items by their low-level codes.

ghost use Rattle.std.specs.Prelude.{length, IfOk};
ghost use Rattle.mrp_explode.specs.Levels.{AreLevels};

use mrp_bill::{Shop, append, empty_lists};
use mrp_qty::NoMemory;
use std::alloc::Global;

// The items of each low-level code, from 0 to the greatest.
pub fn levels_of(alloc: Global, shop: &Shop) -> Result<Vec<Vec<usize>>, NoMemory>
    ensures { IfOk result (λ levels. AreLevels shop.now.tables.bills (length shop.now.tables.items) levels.items) }
{
    let count = shop.tables().items().len();
    let mut levels = empty_lists(alloc, shop.depth() + 1)?;
    for item in 0..count {
        append(&mut levels, shop.code(item), item)?;
    }
    Ok(levels)
}
