//! The picture of a work centre's loads.

ghost use Rattle.std.specs.Prelude.{◌≡◌, ◌++◌, IfOk, OnOk, map};
ghost use Rattle.mrp_page.specs.Pictured.{bars_html, centre_frame, picture_html};
ghost use Rattle.mrp_page.specs.Shares.{share_row};

use crate::draw::put_table;
use crate::frame::frame;
use crate::html::Html;
use crate::layout::centres::{
    above_bar, above_end, cut_bar, hot_bar, hot_end, load_chart, load_end, low_bar, low_end,
};
use crate::row::Row;
use crate::rows::greatest;
use crate::shares::share_rows;
use crate::template::{put_row, put_rows};
use mrp_qty::NoMemory;
use std::alloc::Global;

// Adds the bars of the picture of loads.
#[tactic(auto, unfolding(crate::specs::Pictured::bars_html))]
fn put_bars(page: &mut Html, shares: &[Row]) -> Result<(), NoMemory>
    ensures { OnOk result (page.new ≡ page.old ++ bars_html shares.now) }
{
    put_table(page, b"", low_bar(), shares, low_end())?;
    put_table(page, b"", hot_bar(), shares, hot_end())?;
    put_table(page, b"", above_bar(), shares, above_end())?;
    put_rows(page, cut_bar(), shares)
}

// Adds the picture of a work centre's loads.
#[tactic(auto, unfolding(crate::specs::Pictured::picture_html))]
fn put_picture(page: &mut Html, frame: &Row, shares: &[Row]) -> Result<(), NoMemory>
    ensures { OnOk result (page.new ≡ page.old ++ picture_html frame.now shares.now) }
{
    put_row(page, load_chart(), frame)?;
    put_bars(page, shares)?;
    put_row(page, load_end(), frame)
}

// Adds the picture of a work centre's loads in these weeks.
pub(crate) fn put_load_picture(
    alloc: Global,
    page: &mut Html,
    frame: &Row,
    weeks: &[Row],
) -> Result<(), NoMemory>
    ensures { OnOk result (page.new ≡ page.old ++ picture_html frame.now (map share_row weeks.now)) }
{
    let shares = share_rows(alloc, weeks)?;
    put_picture(page, frame, shares.as_slice())
}

// The frame of a work centre: its name and its last week.
pub(crate) fn centre_frame<'x>(
    alloc: Global,
    name: &'x [u8],
    rows: &'x [Row],
) -> Result<Row, NoMemory>
    ensures { IfOk result (λ row. row ≡ centre_frame name.now rows.now) }
{
    let last = greatest(rows, 1, b"1");
    frame(alloc, name, last, b"")
}
