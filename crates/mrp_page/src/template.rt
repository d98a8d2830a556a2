//! The markup that rows are drawn with.

ghost use Rattle.std.specs.Prelude.{◌≡◌, ◌++◌, OnOk, map};
ghost use Rattle.std.specs.Option.{option_copied};
ghost use Rattle.mrp_page.specs.Template.{date_at, dated_html, dated_rows, drawn_of, flows_html, has_word, markup_if, numbers_html, part_html, row_html, rows_html, week_at};

use crate::dates::{date_in, put_cell_date, put_said_date};
use crate::html::Html;
use crate::row::Row;
use mrp_facts::Facts;
use mrp_qty::NoMemory;

// A part of the markup that a row is drawn with.
#[derive(Clone, Copy)]
pub(crate) enum Part {
    // Markup, as it is.
    Markup(&'static [u8]),
    // Markup for the rows that have this word in a column.
    If(usize, &'static [u8], &'static [u8]),
    // The text of a cell.
    Cell(usize),
    // The text of a cell, as a number in a table.
    Number(usize),
    // A week in a table, with its date if the tables of the day are given.
    Week(usize),
    // The date of a week in a sentence, if the tables are given.
    Date(usize),
    // The same for the rows that have this word in a column: the column, the word, and the column of the week.
    DateIf(usize, &'static [u8], usize),
}

// Whether a row has this word in a column.
pub(crate) fn has_word(column: usize, word: &[u8], row: &Row) -> bool
    ensures { result ≡ has_word column word.now row.now }
{
    row.cell(column) == word
}

// Adds markup if this holds.
fn put_if(page: &mut Html, holds: bool, markup: &[u8]) -> Result<(), NoMemory>
    ensures { OnOk result (page.new ≡ page.old ++ markup_if holds markup.now) }
{
    if holds { page.markup(markup) } else { Ok(()) }
}

// Adds a week in a cell of a table, with its date if the tables are given.
#[tactic(auto, unfolding(crate::specs::Template::week_at))]
fn put_week(
    page: &mut Html,
    tables: Option<&Facts<'_>>,
    column: usize,
    row: &Row,
) -> Result<(), NoMemory>
    ensures { OnOk result (page.new ≡ page.old ++ week_at (option_copied tables.entry) column row.now) }
{
    let week = row.cell(column);
    page.markup(b"<td>")?;
    page.text(week)?;
    put_cell_date(page, date_in(tables, week))?;
    page.markup(b"</td>")
}

// Adds the date of a week in a sentence, if the tables are given.
fn put_date(
    page: &mut Html,
    tables: Option<&Facts<'_>>,
    column: usize,
    row: &Row,
) -> Result<(), NoMemory>
    ensures { OnOk result (page.new ≡ page.old ++ date_at (option_copied tables.entry) column row.now) }
{
    put_said_date(page, date_in(tables, row.cell(column)))
}

// The same if this holds.
fn put_date_if(
    page: &mut Html,
    holds: bool,
    tables: Option<&Facts<'_>>,
    column: usize,
    row: &Row,
) -> Result<(), NoMemory>
    ensures { OnOk result (page.new ≡ page.old ++ markup_if holds (date_at (option_copied tables.entry) column row.now)) }
{
    if holds {
        put_date(page, tables, column, row)
    } else {
        Ok(())
    }
}

// Adds a part.
fn put_part(
    page: &mut Html,
    tables: Option<&Facts<'_>>,
    part: Part,
    row: &Row,
) -> Result<(), NoMemory>
    ensures { OnOk result (page.new ≡ page.old ++ part_html (option_copied tables.entry) row.now (drawn_of part)) }
{
    match part {
        Part::Markup(markup) => page.markup(markup),
        Part::If(column, word, markup) => put_if(page, has_word(column, word, row), markup),
        Part::Cell(column) => page.text(row.cell(column)),
        Part::Number(column) => page.number(row.cell(column)),
        Part::Week(column) => put_week(page, tables, column, row),
        Part::Date(column) => put_date(page, tables, column, row),
        Part::DateIf(column, word, week) => {
            put_date_if(page, has_word(column, word, row), tables, week, row)
        }
    }
}

// Adds a row, part by part, with the dates of its weeks if the tables are given.
pub(crate) fn put_dated(
    page: &mut Html,
    tables: Option<&Facts<'_>>,
    parts: &[Part],
    row: &Row,
) -> Result<(), NoMemory>
    ensures { OnOk result (page.new ≡ page.old ++ dated_html (option_copied tables.entry) (map drawn_of parts.now) row.now) }
{
    for part in parts {
        put_part(page, tables, *part, row)?;
    }
    Ok(())
}

// Adds a row without dates.
#[tactic(auto, unfolding(crate::specs::Template::dated_html, crate::specs::Template::row_html))]
pub(crate) fn put_row(page: &mut Html, parts: &[Part], row: &Row) -> Result<(), NoMemory>
    ensures { OnOk result (page.new ≡ page.old ++ row_html (map drawn_of parts.now) row.now) }
{
    put_dated(page, None, parts, row)
}

// Adds rows, one after another.
#[tactic(auto, unfolding(crate::specs::Template::rows_html))]
pub(crate) fn put_rows(page: &mut Html, parts: &[Part], rows: &[Row]) -> Result<(), NoMemory>
    ensures { OnOk result (page.new ≡ page.old ++ rows_html (map drawn_of parts.now) rows.now) }
{
    for row in rows {
        put_row(page, parts, row)?;
    }
    Ok(())
}

// Adds rows, one after another, with the dates of their weeks if the tables are given.
#[tactic(auto, unfolding(crate::specs::Template::dated_rows))]
pub(crate) fn put_dated_rows(
    page: &mut Html,
    tables: Option<&Facts<'_>>,
    parts: &[Part],
    rows: &[Row],
) -> Result<(), NoMemory>
    ensures { OnOk result (page.new ≡ page.old ++ dated_rows (option_copied tables.entry) (map drawn_of parts.now) rows.now) }
{
    for row in rows {
        put_dated(page, tables, parts, row)?;
    }
    Ok(())
}

// Adds the numbers of a column.
#[tactic(auto, unfolding(crate::specs::Template::numbers_html))]
pub(crate) fn put_numbers(page: &mut Html, column: usize, rows: &[Row]) -> Result<(), NoMemory>
    ensures { OnOk result (page.new ≡ page.old ++ numbers_html column rows.now) }
{
    for row in rows {
        page.number(row.cell(column))?;
    }
    Ok(())
}

// Adds the numbers of a column, and leaves those empty that are 0.
#[tactic(auto, unfolding(crate::specs::Template::flows_html))]
pub(crate) fn put_flows(page: &mut Html, column: usize, rows: &[Row]) -> Result<(), NoMemory>
    ensures { OnOk result (page.new ≡ page.old ++ flows_html column rows.now) }
{
    for row in rows {
        page.flow(row.cell(column))?;
    }
    Ok(())
}
