//! An item's rows of the section `promises`.

ghost use Rattle.std.specs.Prelude.{◌≡◌, ◌<◌, ◌++◌, IfOk, IsTrue, OnOk};
ghost use Rattle.mrp_master.specs.Supply.{IsSupply, supply_of};
ghost use Rattle.mrp_book.specs.Booked.{AreBooked};
ghost use Rattle.mrp_item.specs.Inputs.{count, is_master};
ghost use Rattle.mrp_report.specs.section.PromiseRows.{promises_of};
ghost use Rattle.mrp_report.specs.ReportText.{promised_text};

use crate::page::Page;
use crate::section::item::entry_of;
use crate::section::promise_sheet::PromiseSheet;
use crate::section::shop_names::ShopNames;
use mrp_item::{Inputs, Planned};
use mrp_master::{AtpRow, Supply};
use mrp_qty::NoMemory;
use std::alloc::Global;

// The supply of a master item, and all its standing bookings.
fn promises_of(
    alloc: Global,
    supply: &Supply,
    inputs: &Inputs,
    item: usize,
) -> Result<AtpRow, NoMemory>
    requires supply { supply.now ≡ supply_of inputs.now.tables }
    requires kept { IsSupply supply.now }
    requires within { item < count inputs.now }
    requires master { IsTrue (is_master inputs.now item) }
    ensures row { IfOk result (λ row. row ≡ promises_of inputs.now item) }
    ensures stands { OnOk result (AreBooked supply.now inputs.now.standing) }
{
    let mut row = AtpRow::of(alloc, supply, item)?;
    for due in inputs.bookings(item) {
        row.take(due.week, due.quantity);
    }
    Ok(row)
}

// Adds an item's rows of the section `promises`; a part has none. The caller passes what promising
// reads of the item's shop.
pub(crate) fn item_promises(
    alloc: Global,
    page: &mut Page,
    names: &ShopNames<'_>,
    supply: &Supply,
    planned: &Planned,
) -> Result<(), NoMemory>
    requires names { names.now.tables.now ≡ planned.now.inputs.tables }
    requires supply { supply.now ≡ supply_of planned.now.inputs.tables }
    ensures { OnOk result (page.new ≡ page.old ++ promised_text planned.now.inputs planned.now.item) }
{
    let entry = entry_of(planned);
    if !entry.class.is_master() {
        return Ok(());
    }
    let weeks = supply.weeks();
    let row = promises_of(alloc, supply, planned.inputs(), planned.item())?;
    let stock = planned.stock(alloc)?;
    let sheet = PromiseSheet {
        weeks,
        firm: stock.scheduled.as_slice(),
        row: &row,
    };
    sheet.write(page, names.item(planned.item()))
}
