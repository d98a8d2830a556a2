//! The section `orders`.

ghost use Rattle.std.specs.Prelude.{◌≡◌, ◌++◌, OnOk, flat_map};
ghost use Rattle.std.specs.List.{enumerate_from};
ghost use Rattle.mrp_report.specs.section.OrderText.{kind_word, order_text};
ghost use Rattle.mrp_report.specs.page.WordText.{word_text};

use crate::page::{CsvName, Line, Page, Word, put_byte, put_number, put_word};
use mrp_item::{Order, OrderKind};
use mrp_qty::NoMemory;

// The word for an order's kind: firm or planned.
pub(crate) fn kind_word(kind: OrderKind) -> Word
    ensures { word_text result ≡ kind_word kind }
{
    match kind {
        OrderKind::Firm => Word::Firm,
        OrderKind::Planned => Word::Planned,
    }
}

// An order of the item with this name, and the order's number.
#[derive(Clone, Copy)]
struct OrderLine<'a> {
    name: &'a CsvName,
    number: usize,
    order: &'a Order,
}

impl Line for OrderLine<'_> {
    ghost csv = { λ line. order_text line.name.now (line.number, line.order.now) };

    #[inline(always)]
    fn put(&self, text: &mut [u8], at: usize) -> usize {
        let end = self.name.put_first(text, at);
        let end = put_number(text, end, self.number as u64);
        let end = put_word(text, end, kind_word(self.order.kind));
        let end = put_number(text, end, u64::from(self.order.due));
        let end = put_number(text, end, self.order.quantity.value());
        let end = put_number(text, end, self.order.start.value());
        let end = put_number(text, end, u64::from(self.order.release));
        let end = put_number(text, end, u64::from(self.order.late));
        put_byte(text, end, b'\n')
    }
}

// Adds an order of an item.
fn order_row(page: &mut Page, name: &CsvName, number: usize, order: &Order) -> Result<(), NoMemory>
    ensures { OnOk result (page.new ≡ page.old ++ order_text name.now (number, order.now)) }
{
    page.line(&OrderLine {
        name,
        number,
        order,
    })
}

// Adds an item's orders, numbered from 1.
pub(crate) fn order_rows(page: &mut Page, name: &CsvName, orders: &[Order]) -> Result<(), NoMemory>
    ensures { OnOk result (page.new ≡ page.old ++ flat_map (order_text name.now) (enumerate_from 1 orders.now)) }
{
    for (place, order) in orders.iter().enumerate() {
        order_row(page, name, place + 1, order)?;
    }
    Ok(())
}
