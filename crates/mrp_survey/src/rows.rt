//! All records of a text.

ghost use Rattle.std.specs.Prelude.{◌≡◌, IfOk, map};
ghost use Rattle.mrp_rows.specs.Shown.{shown_of};
ghost use Rattle.mrp_survey.specs.Reading.{TakesNext};

use mrp_qty::NoMemory;
use mrp_rows::{Record, Records};
use std::alloc::Global;

// The next record, with its first cells, so many at most, or `None` at the end.
fn new_next(
    alloc: Global,
    most: usize,
    records: &mut Records<'_>,
) -> Result<Option<Record>, NoMemory>
    ensures { TakesNext records.old most result records.new }
{
    let mut row = Record::new(alloc);
    if records.next(most, &mut row)? {
        Ok(Some(row))
    } else {
        Ok(None)
    }
}

// All records that are left, with their first cells, so many at most.
pub(crate) fn all_rows(
    alloc: Global,
    most: usize,
    records: &mut Records<'_>,
) -> Result<Vec<Record>, NoMemory>
    ensures { IfOk result (λ rows. rows.items ≡ map (shown_of most) records.old) }
{
    let mut rows = Vec::new(alloc);
    while let Some(row) = new_next(alloc, most, records)? {
        rows.push(row)?;
    }
    Ok(rows)
}
