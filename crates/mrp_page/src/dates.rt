//! The dates of weeks, where the tables of a day are given.

ghost use Rattle.std.specs.Prelude.{◌≡◌, ◌++◌, OnOk};
ghost use Rattle.std.specs.Option.{option_copied};
ghost use Rattle.mrp_page.specs.Dates.{cell_date, date_in, said_date};

use crate::amounts::amount;
use crate::html::Html;
use mrp_facts::Facts;
use mrp_qty::NoMemory;

// The date of a week, by its text; empty without tables, or if there is no such week.
pub(crate) fn date_in<'f>(tables: Option<&'f Facts<'_>>, week: &[u8]) -> &'f [u8]
    ensures { result.now ≡ date_in (option_copied tables.entry) week.now }
{
    match tables {
        Some(facts) => facts.date(amount(week)).as_bytes(),
        None => b"",
    }
}

// Adds a date behind a week in a cell of a table; nothing if it is empty.
pub(crate) fn put_cell_date(page: &mut Html, date: &[u8]) -> Result<(), NoMemory>
    ensures { OnOk result (page.new ≡ page.old ++ cell_date date.now) }
{
    if date.is_empty() {
        return Ok(());
    }
    page.markup(b" <i>")?;
    page.text(date)?;
    page.markup(b"</i>")
}

// Adds a date behind a week in a sentence; nothing if it is empty.
pub(crate) fn put_said_date(page: &mut Html, date: &[u8]) -> Result<(), NoMemory>
    ensures { OnOk result (page.new ≡ page.old ++ said_date date.now) }
{
    if date.is_empty() {
        return Ok(());
    }
    page.markup(b" (")?;
    page.text(date)?;
    page.markup(b")")
}
