//! Cells of more than one table.

ghost use Rattle.std.specs.Prelude.{◌≡◌, ◌<◌, ◌≤◌, length, IfOk};
ghost use Rattle.std.specs.Int.{IsInRange};
ghost use Rattle.mrp_qty.specs.Quantity.{greatest_quantity};
ghost use Rattle.mrp_rows.specs.Cell.{blame, cell_at, number_cell};

use mrp_qty::Qty;
use mrp_rows::faults::RANGE;
use mrp_rows::{Fault, Row};

// A cell as a quantity from `least` to `most`, which is at most the greatest quantity.
pub(crate) fn quantity(row: &Row, column: usize, least: u64, most: u64) -> Result<Qty, Fault>
    requires column { column < length row.now.cells }
    requires most { most ≤ greatest_quantity }
    ensures quantity { result ≡ blame row.now (number_cell least most (cell_at row.now column)) }
    ensures within { IfOk result (IsInRange least most) }
{
    match Qty::new(row.number(column, least, most)?) {
        Some(quantity) => Ok(quantity),
        None => Err(row.fault(RANGE)),
    }
}
