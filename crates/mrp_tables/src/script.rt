//! The script's table.

ghost use Rattle.std.specs.Prelude.{◌≡◌, ℕ, List, length, IfOk};
ghost use Rattle.std.specs.Int.{IsInRange};
ghost use Rattle.mrp_tables.specs.declared.item.Item.{Item};
ghost use Rattle.mrp_tables.specs.Facts.{IsMasterItem, IsScriptCall, IsScriptRow};
ghost use Rattle.mrp_tables.specs.Script.{ask_cells, book_cells, call_at, cancel_cells, script_row, spot_of, when_cells};

use crate::cells::quantity;
use crate::items::Items;
use crate::limits::{CALL_WORDS, MOST_DESKS, MOST_ENTRIES, MOST_PIECES, most_records};
use crate::reading::{TableRows, read_table};
use crate::rows::{ScriptCall, ScriptRow};
use jiff::civil::Date;
use mrp_cal::Calendar;
use mrp_rows::faults::{DATE_OUTSIDE, NO_MEMORY, NOT_MASTER, UNKNOWN_ITEM};
use mrp_rows::{Fault, Name, Row, Sections, Table};
use std::alloc::Global;
use std::marker::Model;

// The columns, from 0.
const DESK: usize = 0;

const CALL: usize = 1;

const ITEM: usize = 2;

const DATE: usize = 3;

const QUANTITY: usize = 4;

const NUMBER: usize = 5;

/// The script's rows so far.
#[derive(Drop)]
pub(crate) struct Script<'a> {
    calendar: &'a Calendar,
    items: &'a Items,
    rows: Vec<ScriptRow>,
}

impl<'a> Model for Script<'a> {
    ghost use Rattle.mrp_tables.specs.Gathered.{GatheredByDate};
    ghost use Rattle.mrp_tables.specs.declared.rows.ScriptRow.{ScriptRow};

    ghost Value = { GatheredByDate ScriptRow };

    ghost view = { λ t. record { calendar = t.calendar.now; items = t.items.now; rows = t.rows.items } };

    ghost use Rattle.std.specs.Prelude.{All};
    ghost use Rattle.mrp_tables.specs.Facts.{IsScriptRow};

    ghost invariant = { λ t. All (IsScriptRow t.calendar.now.weeks t.items.now) t.rows.items };
}

impl<'a> TableRows for Script<'a> {
    type Line = ScriptRow;

    ghost use Rattle.std.specs.Prelude.{◌≡◌};
    ghost use Rattle.mrp_rows.specs.declared.fault.Table.TheVariants as own;
    ghost use Rattle.mrp_tables.specs.Gathered.{beside_dates};
    ghost use Rattle.mrp_tables.specs.Reading.{by_itself, reads_of};
    ghost use Rattle.mrp_tables.specs.Script.{script_row};

    ghost takes = { λ given count. count ≡ 6 };

    ghost rows = { λ t. t.rows };

    ghost reads = { λ t. reads_of own.Script (by_itself (script_row t.calendar t.items)) };

    ghost beside = { λ t. beside_dates t.calendar t.items };

    fn most_records(&self) -> Option<u32> {
        most_records(Table::Script)
    }

    fn add(&mut self, row: &Row) -> Result<(), Fault> {
        // Destructured, so that the proof knows the type of the call.
        let ScriptRow { desk, call } = script_row(row, self.calendar, self.items)?;
        if self.rows.push(ScriptRow { desk, call }).is_err() {
            return Err(row.fault(NO_MEMORY));
        }
        Ok(())
    }
}

// A record as a desk's call.
#[tactic(auto, unfolding(crate::specs::Script::script_row))]
pub(crate) fn script_row(row: &Row, calendar: &Calendar, items: &Items) -> Result<ScriptRow, Fault>
    requires { length row.now.cells ≡ 6 }
    ensures cells { result ≡ script_row calendar.now items.now row.now }
    ensures within { IfOk result (IsScriptRow calendar.now.weeks items.now) }
{
    let desk = row.number(DESK, 1, MOST_DESKS)?;
    let place = row.word(CALL, CALL_WORDS)?;
    let call = call_at(row, calendar, items, place)?;
    Ok(ScriptRow { desk, call })
}

// The call of a word, by its place among the words. Cells that the call does not use are not read.
fn call_at(row: &Row, calendar: &Calendar, items: &Items, place: usize) -> Result<ScriptCall, Fault>
    requires { length row.now.cells ≡ 6 }
    ensures cells { result ≡ call_at calendar.now items.now row.now place }
    ensures within { IfOk result (IsScriptCall calendar.now.weeks items.now) }
{
    match place {
        0 => book(row, calendar, items),
        1 => cancel(row),
        2 => ask(row, calendar, items),
        3 => when(row, items),
        _ => Ok(ScriptCall::Run),
    }
}

#[tactic(auto, unfolding(crate::specs::Script::book_cells))]
fn book(row: &Row, calendar: &Calendar, items: &Items) -> Result<ScriptCall, Fault>
    requires { length row.now.cells ≡ 6 }
    ensures cells { result ≡ book_cells calendar.now items.now row.now }
    ensures within { IfOk result (IsScriptCall calendar.now.weeks items.now) }
{
    let name = row.name(ITEM)?;
    let date = row.date(DATE)?;
    let quantity = quantity(row, QUANTITY, 1, MOST_PIECES)?;
    let (item, week) = spot(row, calendar, items, &name, date)?;
    Ok(ScriptCall::Book {
        item,
        week,
        quantity,
    })
}

#[tactic(auto, unfolding(crate::specs::Script::cancel_cells))]
fn cancel(row: &Row) -> Result<ScriptCall, Fault>
    requires { length row.now.cells ≡ 6 }
    ensures cells { result ≡ cancel_cells row.now }
    ensures within { (weeks : ℕ) (items : List Item) → IfOk result (IsScriptCall weeks items) }
{
    let entry = row.number(NUMBER, 1, MOST_ENTRIES)?;
    Ok(ScriptCall::Cancel { entry })
}

#[tactic(auto, unfolding(crate::specs::Script::ask_cells))]
fn ask(row: &Row, calendar: &Calendar, items: &Items) -> Result<ScriptCall, Fault>
    requires { length row.now.cells ≡ 6 }
    ensures cells { result ≡ ask_cells calendar.now items.now row.now }
    ensures within { IfOk result (IsScriptCall calendar.now.weeks items.now) }
{
    let name = row.name(ITEM)?;
    let date = row.date(DATE)?;
    let (item, week) = spot(row, calendar, items, &name, date)?;
    Ok(ScriptCall::Ask { item, week })
}

#[tactic(auto, unfolding(crate::specs::Script::when_cells))]
fn when(row: &Row, items: &Items) -> Result<ScriptCall, Fault>
    requires { length row.now.cells ≡ 6 }
    ensures cells { result ≡ when_cells items.now row.now }
    ensures within { (weeks : ℕ) → IfOk result (IsScriptCall weeks items.now) }
{
    let name = row.name(ITEM)?;
    let quantity = quantity(row, QUANTITY, 1, MOST_PIECES)?;
    let Some(item) = items.find(&name) else {
        return Err(row.fault(UNKNOWN_ITEM));
    };
    if !items.is_master(item) {
        return Err(row.fault(NOT_MASTER));
    }
    Ok(ScriptCall::When { item, quantity })
}

// The master item of a name, and the week of a date.
#[tactic(auto, unfolding(crate::specs::Script::spot_of))]
fn spot(
    row: &Row,
    calendar: &Calendar,
    items: &Items,
    name: &Name,
    date: Date,
) -> Result<(usize, u16), Fault>
    ensures spot { result ≡ spot_of calendar.now items.now row.now name.now date }
    ensures item { IfOk result (λ spot. IsMasterItem items.now spot.0) }
    ensures week { IfOk result (λ spot. IsInRange 1 calendar.now.weeks spot.1) }
{
    let Some(item) = items.find(name) else {
        return Err(row.fault(UNKNOWN_ITEM));
    };
    let Some(week) = calendar.week_of(date) else {
        return Err(row.fault(DATE_OUTSIDE));
    };
    if !items.is_master(item) {
        return Err(row.fault(NOT_MASTER));
    }
    Ok((item, week))
}

impl<'a> Script<'a> {
    ghost use Rattle.std.specs.Prelude.{◌≡◌, ◌≤◌, [], All, IfOk, Ok, length};
    ghost use Rattle.mrp_tables.specs.declared.limits.TheConstants.{MOST_ROWS};
    ghost use Rattle.mrp_tables.specs.Facts.{IsScriptRow};
    ghost use Rattle.mrp_tables.specs.Readers.{GivesTable, calendar_in, items_in};

    pub(crate) fn read(
        alloc: Global,
        sections: &Sections<'_>,
        calendar: &'a Calendar,
        items: &'a Items,
    ) -> Result<Vec<ScriptRow>, Fault>
        requires calendar { calendar_in sections.now ≡ Ok calendar.now }
        requires items { items_in sections.now ≡ Ok items.now }
        ensures table { GivesTable sections.now Table.Script result (λ rows. rows.items) }
        ensures within { IfOk result (λ rows. All (IsScriptRow calendar.now.weeks items.now) rows.items) }
        ensures count { IfOk result (λ rows. length rows.items ≤ MOST_ROWS) }
    {
        let empty = Script::new(alloc, calendar, items);
        let script = read_table(alloc, sections, Table::Script, empty)?;
        Ok(script.into_rows())
    }

    fn new(alloc: Global, calendar: &'a Calendar, items: &'a Items) -> Script<'a>
        ensures { result ≡ record { calendar = calendar.now; items = items.now; rows = [] } }
    {
        Script {
            calendar,
            items,
            rows: Vec::new(alloc),
        }
    }

    fn into_rows(self) -> Vec<ScriptRow>
        ensures rows { result.items ≡ self.entry.rows }
        ensures within { All (IsScriptRow self.entry.calendar.weeks self.entry.items) result.items }
    {
        let Script {
            calendar: _,
            items: _,
            rows,
        } = self;
        rows
    }
}
