//! The firm rows of each item.

ghost use Rattle.std.specs.Prelude.{◌≡◌, ◌<◌, All, filter, map, IfOk};
ghost use Rattle.std.specs.List.{range_with_len};
ghost use Rattle.mrp_tables.specs.Master.{is_firm};
ghost use Rattle.mrp_master.specs.Supply.{firm_lines};
ghost use Rattle.mrp_master.specs.Numbered.{line_of};

use crate::line::Line;
use mrp_bill::{Grouped, Numbered};
use mrp_qty::NoMemory;
use mrp_tables::MasterRow;
use std::alloc::Global;

// A row of the master schedule as a line, numbered by its item.
fn line_of(row: &MasterRow) -> Numbered<Line>
    ensures { result ≡ line_of row.now }
{
    Numbered {
        number: row.item,
        value: Line {
            item: row.item,
            week: row.week,
            quantity: row.quantity,
        },
    }
}

// The firm rows as lines.
fn lines(alloc: Global, rows: &[MasterRow]) -> Result<Vec<Numbered<Line>>, NoMemory>
    ensures { IfOk result (λ lines. lines.items ≡ map line_of (filter (λ r. is_firm r.kind) rows.now)) }
{
    let lines = rows
        .iter()
        .filter(|row| row.kind.is_firm())
        .map(|row| line_of(row))
        .collect(alloc)?;
    Ok(lines)
}

// The firm rows of each item.
pub fn firm_rows(alloc: Global, count: usize, rows: &[MasterRow]) -> Result<Grouped<Line>, NoMemory>
    requires { All (λ r. r.item < count) rows.now }
    ensures { IfOk result (λ f. f ≡ map (firm_lines rows.now) (range_with_len 0 count)) }
{
    let lines = lines(alloc, rows)?;
    Grouped::of(alloc, count, &lines)
}
