//! An item's rows of the section `plan`.

ghost use Rattle.std.specs.Prelude.{◌≡◌, ◌++◌, OnOk};
ghost use Rattle.mrp_item.specs.Inputs.{item_at};
ghost use Rattle.mrp_report.specs.ReportText.{item_text};

use crate::page::Page;
use crate::section::sheet::Sheet;
use crate::section::shop_names::ShopNames;
use mrp_item::Planned;
use mrp_qty::NoMemory;
use mrp_tables::Item;
use std::alloc::Global;

// A planned item's record in the tables.
pub(crate) fn entry_of(planned: &Planned) -> Item
    ensures { result ≡ item_at planned.now.inputs planned.now.item }
{
    planned.inputs().shop().tables().items()[planned.item()]
}

// Adds an item's rows of the section `plan`.
pub(crate) fn item_rows(
    alloc: Global,
    page: &mut Page,
    names: &ShopNames<'_>,
    planned: &Planned,
) -> Result<(), NoMemory>
    requires { names.now.tables.now ≡ planned.now.inputs.tables }
    ensures { OnOk result (page.new ≡ page.old ++ item_text planned.now.inputs planned.now.item planned.now.plan) }
{
    let entry = entry_of(planned);
    let stock = planned.stock(alloc)?;
    let sheet = Sheet {
        weeks: planned.inputs().shop().tables().calendar().weeks(),
        is_master: entry.class.is_master(),
        on_hand: stock.on_hand,
        gross: planned.gross().as_slice(),
        scheduled: stock.scheduled.as_slice(),
        received: planned.receipts().as_slice(),
        started: planned.started().as_slice(),
    };
    sheet.write(page, names.item(planned.item()))
}
