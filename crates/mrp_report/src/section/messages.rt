//! The section `messages`.

ghost use Rattle.std.specs.Prelude.{◌≡◌, [], ◌∷◌, ◌++◌, OnOk, flat_map};
ghost use Rattle.mrp_report.specs.page.CellOf.{cell_of};
ghost use Rattle.mrp_report.specs.section.Cells.{number_cell};
ghost use Rattle.mrp_report.specs.section.MessageText.{advice_value, advice_word, message_text};
ghost use Rattle.mrp_report.specs.page.Rows.{row};
ghost use Rattle.mrp_report.specs.page.WordText.{word_text};

use crate::page::{Cell, CsvName, Line, Page, Word, put_byte, put_word};
use crate::section::shop_names::ShopNames;
use crate::section::source::{source_cell, source_word};
use mrp_item::Order;
use mrp_notes::{Advice, Message};
use mrp_qty::NoMemory;

// The word for what is said of a supply.
fn advice_word(advice: Advice) -> Word
    ensures { word_text result ≡ advice_word advice }
{
    match advice {
        Advice::Release => Word::Release,
        Advice::PastDue(_) => Word::PastDue,
        Advice::Earlier(_) => Word::In,
        Advice::Later(_) => Word::Out,
        Advice::Cancel => Word::Cancel,
    }
}

// By how much an order is past due, in the unit of lead times, or the week in which a supply is needed.
fn advice_value<'a>(advice: Advice) -> Cell<'a>
    ensures { cell_of result ≡ number_cell (advice_value advice) }
{
    match advice {
        Advice::PastDue(week) | Advice::Earlier(week) | Advice::Later(week) => {
            Cell::Number(u64::from(week))
        }
        Advice::Release | Advice::Cancel => Cell::Empty,
    }
}

// A message about a supply of the item with this name.
#[derive(Clone, Copy)]
struct MessageLine<'a> {
    name: &'a CsvName,
    supply: Word,
    source: Cell<'a>,
    advice: Word,
    value: Cell<'a>,
}

impl Line for MessageLine<'_> {
    ghost csv = { λ line. row (line.name.now ∷ word_text line.supply ∷ cell_of line.source ∷ word_text line.advice ∷ cell_of line.value ∷ []) };

    fn put(&self, text: &mut [u8], at: usize) -> usize {
        let end = self.name.put_first(text, at);
        let end = put_word(text, end, self.supply);
        let end = self.source.put(text, end);
        let end = put_word(text, end, self.advice);
        let end = self.value.put(text, end);
        put_byte(text, end, b'\n')
    }
}

// Adds a message about a supply of an item.
fn message_row(
    page: &mut Page,
    names: &ShopNames<'_>,
    name: &CsvName,
    orders: &[Order],
    message: &Message,
) -> Result<(), NoMemory>
    ensures { OnOk result (page.new ≡ page.old ++ message_text names.now.tables.now name.now orders.now message.now) }
{
    page.line(&MessageLine {
        name,
        supply: source_word(message.supply, orders),
        source: source_cell(message.supply, names),
        advice: advice_word(message.advice),
        value: advice_value(message.advice),
    })
}

// Adds an item's messages.
pub(crate) fn message_rows(
    page: &mut Page,
    names: &ShopNames<'_>,
    name: &CsvName,
    orders: &[Order],
    messages: &[Message],
) -> Result<(), NoMemory>
    ensures { OnOk result (page.new ≡ page.old ++ flat_map (message_text names.now.tables.now name.now orders.now) messages.now) }
{
    for message in messages {
        message_row(page, names, name, orders, message)?;
    }
    Ok(())
}
