//! The weeks of a table's heading, and their dates.

ghost use Rattle.std.specs.Prelude.{◌≡◌, ◌++◌, OnOk, codes, flat_map};
ghost use Rattle.std.specs.Option.{option_copied};
ghost use Rattle.mrp_page.specs.Dates.{date_in};
ghost use Rattle.mrp_page.specs.Weeks.{date_html, start_html, week_html, weeks_html};

use crate::dates::date_in;
use crate::html::Html;
use crate::layout::head::{start_end, start_open};
use crate::layout::records::{date_end, date_open, week, week_end, weeks_end};
use crate::row::Row;
use crate::template::put_row;
use mrp_facts::Facts;
use mrp_qty::NoMemory;

// Adds a date below the number of a week; nothing if it is empty.
fn put_date(page: &mut Html, date: &[u8]) -> Result<(), NoMemory>
    ensures { OnOk result (page.new ≡ page.old ++ date_html date.now) }
{
    if date.is_empty() {
        return Ok(());
    }
    page.markup(date_open())?;
    page.text(date)?;
    page.markup(date_end())
}

// Adds the week of a row to a table's heading.
fn put_week(page: &mut Html, tables: Option<&Facts<'_>>, row: &Row) -> Result<(), NoMemory>
    ensures { OnOk result (page.new ≡ page.old ++ week_html (option_copied tables.entry) row.now) }
{
    put_row(page, week(), row)?;
    put_date(page, date_in(tables, row.cell(1)))?;
    page.markup(week_end())
}

// Adds the weeks of rows to a table's heading.
fn put_each_week(page: &mut Html, tables: Option<&Facts<'_>>, rows: &[Row]) -> Result<(), NoMemory>
    ensures { OnOk result (page.new ≡ page.old ++ flat_map (week_html (option_copied tables.entry)) rows.now) }
{
    for row in rows {
        put_week(page, tables, row)?;
    }
    Ok(())
}

// Adds the weeks of a table, each with its date if the tables are given.
#[tactic(auto, unfolding(crate::specs::Weeks::weeks_html))]
pub(crate) fn put_weeks(
    page: &mut Html,
    tables: Option<&Facts<'_>>,
    rows: &[Row],
) -> Result<(), NoMemory>
    ensures { OnOk result (page.new ≡ page.old ++ weeks_html (option_copied tables.entry) rows.now) }
{
    put_each_week(page, tables, rows)?;
    page.markup(weeks_end())
}

// Adds a date from which on a page plans; nothing if it is empty.
fn put_start_date(page: &mut Html, date: &[u8]) -> Result<(), NoMemory>
    ensures { OnOk result (page.new ≡ page.old ++ start_html date.now) }
{
    if date.is_empty() {
        return Ok(());
    }
    page.markup(start_open())?;
    page.text(date)?;
    page.markup(start_end())
}

// Adds the date of the first week; nothing without tables.
pub(crate) fn put_start(page: &mut Html, tables: Option<&Facts<'_>>) -> Result<(), NoMemory>
    ensures { OnOk result (page.new ≡ page.old ++ start_html (date_in (option_copied tables.entry) (codes "1"))) }
{
    put_start_date(page, date_in(tables, b"1"))
}
