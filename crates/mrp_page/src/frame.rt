//! Rows of a page that are not the day's: the frames of its tables and pictures.

ghost use Rattle.std.specs.Prelude.{◌≡◌, ◌++◌, IfOk, OnOk, map};
ghost use Rattle.mrp_page.specs.Frame.{count_row, frame, frame_of, heading, last_week};
ghost use Rattle.mrp_page.specs.Template.{drawn_of, row_html};

use crate::html::Html;
use crate::row::Row;
use crate::rows::{greatest, rows_in};
use crate::template::{Part, put_row};
use csv::ByteRecord;
use itoa::Buffer;
use mrp_day::Section;
use mrp_qty::NoMemory;
use std::alloc::Global;

// A frame: the name, the weeks and the greatest number of a table.
pub(crate) fn frame<'x>(
    alloc: Global,
    name: &'x [u8],
    weeks: &'x [u8],
    top: &'x [u8],
) -> Result<Row, NoMemory>
    ensures { IfOk result (λ row. row ≡ frame name.now weeks.now top.now) }
{
    let cells = ByteRecord::from_fields(alloc, &[name, weeks, top])?;
    Ok(Row::new(Section::Run, cells))
}

// The frame of the rows of an item or a work centre. Its greatest number is that of two columns, or
// this one if that is greater.
pub(crate) fn frame_of<'x>(
    alloc: Global,
    name: &'x [u8],
    rows: &'x [Row],
    column: usize,
    other: usize,
    least: &'x [u8],
) -> Result<Row, NoMemory>
    ensures { IfOk result (λ row. row ≡ frame_of name.now rows.now column other least.now) }
{
    let top = greatest(rows, other, greatest(rows, column, least));
    frame(alloc, name, greatest(rows, 1, b"1"), top)
}

// The last week of a report, in its plan or its loads.
pub(crate) fn last_week(report: &[Row]) -> &[u8]
    ensures { result.now ≡ last_week report.now }
{
    let planned = greatest(rows_in(report, Section::Plan), 1, b"0");
    greatest(rows_in(report, Section::Loads), 1, planned)
}

// The title of a page, the entry that its run plans from, the bookings there, the weeks, and the number of
// items.
pub(crate) fn heading<'x>(
    alloc: Global,
    title: &'x [u8],
    report: &'x [Row],
    items: u64,
) -> Result<Row, NoMemory>
    ensures { IfOk result (λ row. row ≡ heading title.now report.now items) }
{
    let mut digits = Buffer::new();
    let run = rows_in(report, Section::Run);
    let front = greatest(run, 0, b"0");
    let standing = greatest(run, 1, b"0");
    let weeks = last_week(report);
    let cells = ByteRecord::from_fields(
        alloc,
        &[
            title,
            front,
            standing,
            weeks,
            digits.format(items).as_bytes(),
        ],
    )?;
    Ok(Row::new(Section::Run, cells))
}

// A count of what is not shown, and the word for it, singular or plural.
fn count_row<'x>(alloc: Global, count: u64, one: &'x [u8], more: &'x [u8]) -> Result<Row, NoMemory>
    ensures { IfOk result (λ row. row ≡ count_row count one.now more.now) }
{
    let mut digits = Buffer::new();
    let words = if count == 1 { one } else { more };
    let cells = ByteRecord::from_fields(alloc, &[digits.format(count).as_bytes(), words])?;
    Ok(Row::new(Section::Run, cells))
}

// Adds a count, and the word for it.
pub(crate) fn put_count_row(
    alloc: Global,
    page: &mut Html,
    parts: &[Part],
    count: u64,
    one: &[u8],
    more: &[u8],
) -> Result<(), NoMemory>
    ensures { OnOk result (page.new ≡ page.old ++ row_html (map drawn_of parts.now) (count_row count one.now more.now)) }
{
    let row = count_row(alloc, count, one, more)?;
    put_row(page, parts, &row)
}
