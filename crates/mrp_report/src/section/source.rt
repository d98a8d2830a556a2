//! The cells that identify the supply of a row.

ghost use Rattle.std.specs.Prelude.{◌≡◌};
ghost use Rattle.mrp_report.specs.page.CellOf.{cell_of};
ghost use Rattle.mrp_report.specs.section.SourceText.{source_name, source_word};
ghost use Rattle.mrp_report.specs.page.WordText.{word_text};

use crate::page::{Cell, Word};
use crate::section::orders::kind_word;
use crate::section::shop_names::ShopNames;
use mrp_item::{Order, Supplied};

// The word for a supply of an item with these orders.
pub(crate) fn source_word(supply: Supplied, orders: &[Order]) -> Word
    ensures { word_text result ≡ source_word orders.now supply }
{
    match supply {
        Supplied::Stock => Word::Stock,
        Supplied::Receipt(_) => Word::Open,
        Supplied::Order(number) => match orders.get(number.saturating_sub(1)) {
            Some(order) => kind_word(order.kind),
            None => Word::Nothing,
        },
    }
}

// The cell that identifies a supply of its kind: the name of a receipt's order, or an order's
// number.
pub(crate) fn source_cell<'a>(supply: Supplied, names: &'a ShopNames<'_>) -> Cell<'a>
    ensures { cell_of result ≡ source_name names.now.tables.now supply }
{
    match supply {
        Supplied::Stock => Cell::Empty,
        Supplied::Receipt(number) => Cell::Name(names.receipt(number)),
        Supplied::Order(number) => Cell::Number(number as u64),
    }
}
