//! Checks that the parts of a line, a spot or a wish fit a shop.

ghost use Rattle.std.specs.Prelude.{◌≡◌, Ok};
ghost use Rattle.mrp_master.specs.Lines.{in_horizon, of_master, of_pieces};

use crate::line::LineFault;
use mrp_qty::Qty;
use mrp_tables::Tables;
use mrp_tables::limits::MOST_PIECES;

// Checks that the shop has the item, as a master item.
pub(crate) fn check_item(tables: &Tables, item: usize) -> Result<(), LineFault>
    ensures { result ≡ of_master tables.now item (Ok tt) }
{
    match tables.items().get(item) {
        None => Err(LineFault::UnknownItem),
        Some(entry) if entry.class.is_master() => Ok(()),
        Some(_) => Err(LineFault::NotMaster),
    }
}

// Checks that the week is one of the horizon.
pub(crate) fn check_week(tables: &Tables, week: u16) -> Result<(), LineFault>
    ensures { result ≡ in_horizon tables.now week (Ok tt) }
{
    if 1 <= week && week <= tables.calendar().weeks() {
        Ok(())
    } else {
        Err(LineFault::BadWeek)
    }
}

// Checks that the pieces are at least 1 and not too many.
pub(crate) fn check_pieces(quantity: Qty) -> Result<(), LineFault>
    ensures { result ≡ of_pieces quantity (Ok tt) }
{
    match quantity.value() {
        0 => Err(LineFault::ZeroQuantity),
        pieces if pieces <= MOST_PIECES => Ok(()),
        _ => Err(LineFault::TooLarge),
    }
}
