//! The section `history`: the calls that the order book answered, and its replies.

ghost use Rattle.std.specs.Prelude.{◌≡◌, ◌++◌, ◌∷◌, OnOk, decimal};
ghost use Rattle.mrp_master.specs.Supply.{supply_of};
ghost use Rattle.mrp_report.specs.section.HistoryText.{call_cells, entry_text, history_text, reply_cells};
ghost use Rattle.mrp_report.specs.section.EntryCells.{called_cells, replied_cells};
ghost use Rattle.mrp_report.specs.page.Rows.{row};
ghost use Rattle.mrp_report.specs.Written.{WritesWhole};

use crate::fault::ReportFault;
use crate::page::{Cell, Line, Page, ROOM, Word, put_byte, put_first_number, put_number, put_word};
use crate::section::shop_names::ShopNames;
use mrp_bill::Shop;
use mrp_book::{Call, Entry, History, Reply};
use mrp_day::Section;
use mrp_qty::NoMemory;
use mrp_rows::{Told, Tries, WRITE_TRIES};
use mrp_tables::Tables;
use std::alloc::{AllocError, Global};
use std::io::Write;
use std::marker::Model;

/// More bytes than the row of an entry has.
pub const LONGEST_ROW: usize = ROOM;

// The cells of a row that come from the call.
#[derive(Clone, Copy)]
struct Called<'a> {
    word: Word,
    item: Cell<'a>,
    week: Cell<'a>,
    quantity: Cell<'a>,
    number: Cell<'a>,
}

// The cells of a row that come from the reply.
#[derive(Clone, Copy)]
struct Replied<'a> {
    word: Word,
    value: Cell<'a>,
}

impl<'a> Called<'a> {
    // A call with no cell but its word.
    fn word(word: Word) -> Called<'a>
        ensures { result ≡ record { word = word; item = Cell.Empty; week = Cell.Empty; quantity = Cell.Empty; number = Cell.Empty } }
    {
        Called {
            word,
            item: Cell::Empty,
            week: Cell::Empty,
            quantity: Cell::Empty,
            number: Cell::Empty,
        }
    }

    fn of(names: &'a ShopNames<'_>, call: &Call) -> Called<'a>
        ensures { called_cells result ≡ call_cells names.now.tables.now call.now }
    {
        match call {
            Call::Book(line) => Called {
                item: Cell::Name(names.item(line.item())),
                week: Cell::Number(u64::from(line.week())),
                quantity: Cell::Number(line.quantity().value()),
                ..Called::word(Word::Book)
            },
            Call::Cancel(number) => Called {
                number: Cell::Number(*number),
                ..Called::word(Word::CancelBooking)
            },
            Call::Ask(spot) => Called {
                item: Cell::Name(names.item(spot.item())),
                week: Cell::Number(u64::from(spot.week())),
                ..Called::word(Word::Ask)
            },
            Call::When(wish) => Called {
                item: Cell::Name(names.item(wish.item())),
                quantity: Cell::Number(wish.quantity().value()),
                ..Called::word(Word::When)
            },
            Call::Snapshot => Called::word(Word::Run),
            Call::Front => Called::word(Word::Front),
        }
    }
}

impl<'a> Replied<'a> {
    fn of(reply: &Reply) -> Replied<'a>
        ensures { replied_cells result ≡ reply_cells reply.now }
    {
        let (word, value) = match reply {
            Reply::Booked(number) => (Word::Booked, Cell::Number(*number)),
            Reply::Short(available) => (Word::Short, Cell::Number(available.value())),
            Reply::Cancelled => (Word::Cancelled, Cell::Empty),
            Reply::NotStanding => (Word::NotStanding, Cell::Empty),
            Reply::NotYours => (Word::NotYours, Cell::Empty),
            Reply::Available(available) => (Word::Available, Cell::Number(available.value())),
            Reply::Week(week) => (Word::Week, Cell::Number(u64::from(*week))),
            Reply::NoWeek => (Word::NoWeek, Cell::Empty),
            Reply::Taken(snapshot) => (Word::Front, Cell::Number(snapshot.front())),
            Reply::Front(number) => (Word::Front, Cell::Number(*number)),
        };
        Replied { word, value }
    }
}

// An entry with its number.
#[derive(Clone, Copy)]
struct EntryLine<'a> {
    number: u64,
    desk: u64,
    called: Called<'a>,
    replied: Replied<'a>,
}

impl Line for EntryLine<'_> {
    ghost csv = { λ line. row (decimal line.number ∷ decimal line.desk ∷ (called_cells line.called ++ replied_cells line.replied)) };

    fn put(&self, text: &mut [u8], at: usize) -> usize {
        let end = put_first_number(text, at, self.number);
        let end = put_number(text, end, self.desk);
        let end = put_word(text, end, self.called.word);
        let end = self.called.item.put(text, end);
        let end = self.called.week.put(text, end);
        let end = self.called.quantity.put(text, end);
        let end = self.called.number.put(text, end);
        let end = put_word(text, end, self.replied.word);
        let end = self.replied.value.put(text, end);
        put_byte(text, end, b'\n')
    }
}

// The row of an entry with its number.
fn entry_line<'a>(
    names: &'a ShopNames<'_>,
    number: u64,
    entry: &Entry<Call, Reply>,
) -> EntryLine<'a>
    ensures { row (decimal result.number ∷ decimal result.desk ∷ (called_cells result.called ++ replied_cells result.replied)) ≡ entry_text names.now.tables.now (number, entry.now) }
{
    EntryLine {
        number,
        desk: entry.who,
        called: Called::of(names, &entry.call),
        replied: Replied::of(&entry.reply),
    }
}

// Adds the row of an entry.
fn entry_row(
    page: &mut Page,
    names: &ShopNames<'_>,
    number: usize,
    entry: &Entry<Call, Reply>,
) -> Result<(), NoMemory>
    ensures { OnOk result (page.new ≡ page.old ++ entry_text names.now.tables.now (number, entry.now)) }
{
    page.line(&entry_line(names, number as u64, entry))
}

/// The rows of the section `history`, one at a time. Contracts see the tables that have the items' names.
#[derive(Drop)]
pub struct HistoryRows<'a> {
    names: ShopNames<'a>,
}

impl<'a> Model for HistoryRows<'a> {
    ghost use Rattle.mrp_tables.specs.Tables.{Tables};

    ghost Value = { Tables };

    ghost view = { λ rows. rows.names.tables.now };
}

impl<'a> HistoryRows<'a> {
    ghost use Rattle.std.specs.Prelude.{◌≡◌, ◌+◌, ◌≤◌, ◌++◌, IfOk, IsOk, if◌then◌else◌, is_ok, vec_capacity, vec_len};
    ghost use Rattle.mrp_report.specs.section.HistoryText.{entry_text};

    /// The rows of a shop with these tables.
    ///
    /// Errors: `NoMemory` if an allocation fails.
    pub fn of(alloc: Global, tables: &'a Tables) -> Result<HistoryRows<'a>, NoMemory>
        ensures { IfOk result (λ rows. rows ≡ tables.now) }
    {
        Ok(HistoryRows {
            names: ShopNames::of(alloc, tables)?,
        })
    }

    /// Adds the row of an entry, with its number, to a text.
    ///
    /// Errors: an allocation fails. None is made where [`LONGEST_ROW`] bytes are free.
    pub fn add(
        &self,
        text: &mut Vec<u8>,
        number: u64,
        entry: &Entry<Call, Reply>,
    ) -> Result<(), AllocError>
        ensures row { text.new.items ≡ (if is_ok result then text.old.items ++ entry_text self.now (number, entry.now) else text.old.items) }
        ensures free { vec_len text.old + LONGEST_ROW ≤ vec_capacity text.old → IsOk result }
        ensures few { vec_len text.new ≤ vec_len text.old + LONGEST_ROW }
        ensures room { vec_capacity text.old ≤ vec_capacity text.new }
    {
        let mut row = [0; ROOM];
        let end = entry_line(&self.names, number, entry).put(&mut row, 0);
        text.extend_from_slice(&row[..end])
    }
}

/// Writes the section `history`: a row for each entry of the order book. The caller guarantees that
/// the book's supply is that of the shop.
///
/// An interrupted write is tried again, at most 1,000,000 times. Errors: `Write` if a write failed in this
/// call or was interrupted more often; otherwise `NoMemory` if an allocation fails. A prefix of the text has
/// been written then.
pub fn write_history<W: Write>(
    alloc: Global,
    history: &History,
    shop: &Shop,
    writer: &mut Told<W>,
) -> Result<(), ReportFault>
    requires { history.now.supply ≡ supply_of shop.now.tables }
    ensures { WritesWhole W.contents writer.old writer.new (history_text shop.now.tables history.now.entries) result }
{
    let names = ShopNames::of(alloc, shop.tables())?;
    let mut tries = Tries::new();
    let mut page = Page::new(alloc);
    page.begin(Section::History)?;
    for (place, entry) in history.entries().iter().enumerate() {
        entry_row(&mut page, &names, place + 1, entry)?;
        page.pass_on(writer, &mut tries)?;
    }
    page.hand_over(writer, &mut tries)
}
