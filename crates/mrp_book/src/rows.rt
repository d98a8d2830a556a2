//! The available-to-promise rows, one for each master item.

ghost use Rattle.std.specs.Prelude.{◌≡◌, ◌≤◌, IfOk, Some, [], length};
ghost use Rattle.std.specs.Option.{ForSome, option_map};
ghost use Rattle.mrp_phase.specs.Weeks.{in_week};
ghost use Rattle.mrp_master.specs.AtpRow.{IsCoveredRow, IsWeekOf, atp_row, with_booking, without_booking};
ghost use Rattle.mrp_master.specs.Supply.{IsMaster};
ghost use Rattle.mrp_book.specs.Made.{HasRows};

use mrp_master::{AtpRow, Line, Supply};
use mrp_qty::NoMemory;
use std::alloc::Global;

// The row of each master item of a shop; a part has none.
pub(crate) fn rows_of(
    alloc: Global,
    supply: &Supply,
    items: usize,
) -> Result<Vec<Option<AtpRow>>, NoMemory>
    requires { length supply.now.masters ≤ items }
    ensures { IfOk result (λ rows. HasRows supply.now rows.items []) }
{
    let mut rows = Vec::with_capacity(alloc, items)?;
    for item in 0..items {
        rows.push(row_of(alloc, supply, item)?)?;
    }
    Ok(rows)
}

// An item's row, if it is a master item.
fn row_of(alloc: Global, supply: &Supply, item: usize) -> Result<Option<AtpRow>, NoMemory>
    ensures { IfOk result (λ row. IsMaster supply.now item → row ≡ Some (atp_row supply.now item [])) }
{
    if !supply.is_master(item) {
        return Ok(None);
    }
    Ok(Some(AtpRow::of(alloc, supply, item)?))
}

// Books a line in its item's row, which must exist.
pub(crate) fn take(row: &mut Option<AtpRow>, line: Line)
    requires week { ForSome row.old (λ r. IsWeekOf r line.week) }
    requires available { ForSome row.old (λ r. IsCoveredRow (with_booking r line.week line.quantity)) }
    ensures { row.new ≡ option_map (λ r. with_booking r line.week line.quantity) row.old }
{
    if let Some(row) = row {
        row.take(line.week(), line.quantity());
    }
}

// Releases a line's booking in its item's row, which must exist.
pub(crate) fn give(row: &mut Option<AtpRow>, line: Line)
    requires week { ForSome row.old (λ r. IsWeekOf r line.week) }
    requires booked { ForSome row.old (λ r. line.quantity ≤ in_week r.booked line.week) }
    ensures { row.new ≡ option_map (λ r. without_booking r line.week line.quantity) row.old }
{
    if let Some(row) = row {
        row.give(line.week(), line.quantity());
    }
}
