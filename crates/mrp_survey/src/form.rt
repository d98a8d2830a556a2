//! Of which kind each cell of a table's records has to be.

ghost use Rattle.std.specs.Prelude.{◌≡◌};
ghost use Rattle.mrp_tables.specs.Items.{greatest_size, least_size};
ghost use Rattle.mrp_survey.specs.Forms.{bill_kind, calendar_kind, call_in, call_kind, cell_in, centre_kind, dated_key, dated_kind, entry_place, item_kind, kind_of, lot_in, master_kind, receipt_kind, routing_kind, script_kind, stock_kind};

use crate::kind::{Kind, Words, read_word, wrong};
use mrp_cal::MOST_WEEKS;
use mrp_rows::{Record, Table};
use mrp_tables::limits::{
    GREATEST_OPERATION, MOST_DESKS, MOST_ENTRIES, MOST_LEAST, MOST_MINUTES, MOST_OFFSET, MOST_PER,
    MOST_PERIOD, MOST_PIECES, MOST_RUN, MOST_SCRAP, MOST_SETUP, MOST_STEP,
};
use mrp_tables::{MOST_VERSION, Version};

// How a table's records are read.
#[derive(Clone, Copy)]
pub(crate) struct Form {
    pub(crate) table: Table,
    pub(crate) version: Version,
    // Whether the calendar begins with a version.
    pub(crate) has_version: bool,
}

/// A record's cell in a column, counted from 0; empty past the last that is kept.
pub fn cell_in(row: &Record, column: usize) -> &[u8]
    ensures { result.now ≡ cell_in row.now column }
{
    row.cell(column)
}

// Which entry of the calendar a record is: 0 a version, 1 the start, 2 the weeks, 3 the workdays, and then holidays.
pub(crate) fn entry_place(form: Form, number: usize) -> usize
    ensures { result ≡ entry_place form number }
{
    if form.has_version {
        number.saturating_sub(1)
    } else {
        number
    }
}

pub(crate) fn dated_key(place: usize) -> Words
    ensures { result ≡ dated_key place }
{
    match place {
        0 => Words::Version,
        1 => Words::Start,
        2 => Words::Weeks,
        3 => Words::Workdays,
        _ => Words::Holiday,
    }
}

fn dated_kind(place: usize) -> Kind
    ensures { result ≡ dated_kind place }
{
    match place {
        0 => Kind::Number {
            least: 1,
            most: MOST_VERSION,
        },
        1 => Kind::Monday,
        2 => Kind::Number {
            least: 1,
            most: MOST_WEEKS,
        },
        3 => Kind::Workdays,
        _ => Kind::Date,
    }
}

// Where a key is wrong, its value is not read.
fn calendar_kind(form: Form, number: usize, row: &Record, column: usize) -> Kind
    ensures { result ≡ calendar_kind form number row.now column }
{
    let place = entry_place(form, number);
    let key = Kind::Word(dated_key(place));
    if column == 0 {
        return key;
    }
    if wrong(key, cell_in(row, 0)).is_none() {
        dated_kind(place)
    } else {
        Kind::Unread
    }
}

// The place of an item's lot rule; that of `lfl` where it is wrong.
fn lot_in(row: &Record) -> usize
    ensures { result ≡ lot_in row.now }
{
    read_word(cell_in(row, 4), Words::LotRules).unwrap_or(0)
}

fn size_kind(lot: usize) -> Kind
    ensures { result ≡ Kind.Number (least_size lot) (greatest_size lot) }
{
    match lot {
        0 => Kind::Number {
            least: 0,
            most: MOST_PIECES,
        },
        1 => Kind::Number {
            least: 1,
            most: MOST_PIECES,
        },
        _ => Kind::Number {
            least: 1,
            most: MOST_PERIOD,
        },
    }
}

fn up_to(most: u64) -> Kind
    ensures { result ≡ Kind.Number 0 most }
{
    Kind::Number { least: 0, most }
}

fn from_one(most: u64) -> Kind
    ensures { result ≡ Kind.Number 1 most }
{
    Kind::Number { least: 1, most }
}

fn item_kind(version: Version, row: &Record, column: usize) -> Kind
    ensures { result ≡ item_kind version row.now column }
{
    match column {
        0 => Kind::Name,
        1 => Kind::Word(Words::Classes),
        2 => up_to(version.most_lead()),
        3 => up_to(MOST_SCRAP),
        4 => Kind::Word(Words::LotRules),
        5 => size_kind(lot_in(row)),
        6 => up_to(MOST_PIECES),
        7 => up_to(MOST_LEAST),
        _ => from_one(MOST_STEP),
    }
}

fn centre_kind(column: usize) -> Kind
    ensures { result ≡ centre_kind column }
{
    match column {
        0 => Kind::Name,
        _ => up_to(MOST_MINUTES),
    }
}

fn stock_kind(column: usize) -> Kind
    ensures { result ≡ stock_kind column }
{
    match column {
        0 => Kind::Name,
        _ => up_to(MOST_PIECES),
    }
}

fn receipt_kind(column: usize) -> Kind
    ensures { result ≡ receipt_kind column }
{
    match column {
        0 => Kind::Name,
        1 => Kind::Name,
        2 => Kind::Date,
        _ => up_to(MOST_PIECES),
    }
}

fn bill_kind(column: usize) -> Kind
    ensures { result ≡ bill_kind column }
{
    match column {
        0 => Kind::Name,
        1 => Kind::Name,
        _ => from_one(MOST_PER),
    }
}

fn routing_kind(column: usize) -> Kind
    ensures { result ≡ routing_kind column }
{
    match column {
        0 => Kind::Name,
        1 => from_one(GREATEST_OPERATION),
        2 => Kind::Name,
        3 => up_to(MOST_SETUP),
        4 => up_to(MOST_RUN),
        _ => up_to(MOST_OFFSET),
    }
}

fn master_kind(version: Version, column: usize) -> Kind
    ensures { result ≡ master_kind version column }
{
    match column {
        0 => Kind::Name,
        1 => Kind::Word(Words::RowKinds(version)),
        2 => Kind::Date,
        _ => up_to(MOST_PIECES),
    }
}

// The place of a script's call; past the last where it is wrong.
fn call_in(row: &Record) -> usize
    ensures { result ≡ call_in row.now }
{
    read_word(cell_in(row, 1), Words::Calls).unwrap_or(5)
}

// The cells of a call that come after it: those that it does not use are not read.
fn call_kind(call: usize, column: usize) -> Kind
    ensures { result ≡ call_kind call column }
{
    match (call, column) {
        (0 | 2 | 3, 2) => Kind::Name,
        (0 | 2, 3) => Kind::Date,
        (0 | 3, 4) => from_one(MOST_PIECES),
        (1, 5) => from_one(MOST_ENTRIES),
        _ => Kind::Unread,
    }
}

fn script_kind(row: &Record, column: usize) -> Kind
    ensures { result ≡ script_kind row.now column }
{
    match column {
        0 => from_one(MOST_DESKS),
        1 => Kind::Word(Words::Calls),
        _ => call_kind(call_in(row), column),
    }
}

// The kind of a record's cell, by the record's number, from 1, and the cell's column, from 0.
pub(crate) fn kind_of(form: Form, number: usize, row: &Record, column: usize) -> Kind
    ensures { result ≡ kind_of form number row.now column }
{
    match form.table {
        Table::Calendar => calendar_kind(form, number, row, column),
        Table::Items => item_kind(form.version, row, column),
        Table::Centres => centre_kind(column),
        Table::Stock => stock_kind(column),
        Table::Receipts => receipt_kind(column),
        Table::Bills => bill_kind(column),
        Table::Routings => routing_kind(column),
        Table::Master => master_kind(form.version, column),
        Table::Script => script_kind(row, column),
        Table::Bundle => Kind::Unread,
    }
}
