//! The sections of a day and their rows; in this file the sections of a report with rows for each item or work
//! centre.

ghost use Rattle.std.specs.Prelude.{◌≡◌, ◌<◌, ◌++◌, OnOk};
ghost use Rattle.mrp_day.specs.Sections.{head_of};
ghost use Rattle.mrp_report.specs.ReportText.{ordered_text, told_text};
ghost use Rattle.mrp_report.specs.section.Sections.{count_in, of_day, rows_of};

mod centre;
mod history;
mod item;
mod loads;
mod messages;
mod orders;
mod peg_shares;
mod pegs;
mod plan;
mod promise_item;
mod promise_sheet;
mod promises;
mod readings;
mod run;
mod sheet;
mod shop_names;
mod source;

use crate::page::Page;
use centre::centre_rows;
pub use history::{HistoryRows, LONGEST_ROW, write_history};
use item::item_rows;
use messages::message_rows;
use mrp_item::{Plan, Planned};
use mrp_notes::item_messages;
use mrp_qty::NoMemory;
use orders::order_rows;
pub(crate) use pegs::PegRows;
use pegs::pegged_rows;
use promise_item::item_promises;
pub(crate) use readings::Readings;
pub(crate) use run::run_section;
use shop_names::ShopNames;
use std::alloc::Global;

// A section with rows for each item, or for each work centre.
#[derive(Clone, Copy)]
pub(crate) enum Section {
    Promises,
    Plan,
    Orders,
    Pegs,
    Messages,
    Loads,
}

// These sections, in the order in which a report has them.
pub(crate) const SECTIONS: [Section; 6] = [
    Section::Promises,
    Section::Plan,
    Section::Orders,
    Section::Pegs,
    Section::Messages,
    Section::Loads,
];

// Adds an item's rows of the section `orders`.
fn ordered_rows(page: &mut Page, names: &ShopNames<'_>, planned: &Planned) -> Result<(), NoMemory>
    requires { names.now.tables.now ≡ planned.now.inputs.tables }
    ensures { OnOk result (page.new ≡ page.old ++ ordered_text planned.now.inputs planned.now.item planned.now.plan) }
{
    order_rows(page, names.item(planned.item()), planned.orders())
}

// Adds an item's rows of the section `messages`.
fn told_rows(
    alloc: Global,
    page: &mut Page,
    names: &ShopNames<'_>,
    planned: &Planned,
) -> Result<(), NoMemory>
    requires { names.now.tables.now ≡ planned.now.inputs.tables }
    ensures { OnOk result (page.new ≡ page.old ++ told_text planned.now.inputs planned.now.item planned.now.plan) }
{
    let messages = item_messages(alloc, planned)?;
    message_rows(
        page,
        names,
        names.item(planned.item()),
        planned.orders(),
        messages.as_slice(),
    )
}

impl Section {
    // The section of a day that it is.
    fn of_day(self) -> mrp_day::Section
        ensures { result ≡ of_day self }
    {
        match self {
            Section::Promises => mrp_day::Section::Promises,
            Section::Plan => mrp_day::Section::Plan,
            Section::Orders => mrp_day::Section::Orders,
            Section::Pegs => mrp_day::Section::Pegs,
            Section::Messages => mrp_day::Section::Messages,
            Section::Loads => mrp_day::Section::Loads,
        }
    }

    // Adds the section's line and its header.
    pub(crate) fn begin(self, page: &mut Page) -> Result<(), NoMemory>
        ensures { OnOk result (page.new ≡ page.old ++ head_of (of_day self)) }
    {
        page.begin(self.of_day())
    }

    // How many items or work centres the section has rows for.
    pub(crate) fn count(self, plan: &Plan) -> usize
        ensures { result ≡ count_in plan.now.inputs self }
    {
        let tables = plan.inputs().shop().tables();
        match self {
            Section::Loads => tables.centres().len(),
            _ => tables.items().len(),
        }
    }

    // Adds the rows of the item or work centre at a place.
    pub(crate) fn add(
        self,
        alloc: Global,
        page: &mut Page,
        readings: &Readings<'_>,
        place: usize,
    ) -> Result<(), NoMemory>
        requires { place < count_in readings.now.plan.now.inputs self }
        ensures { OnOk result (page.new ≡ page.old ++ rows_of readings.now.plan.now.inputs self place) }
    {
        let plan = readings.plan;
        let names = &readings.names;
        match self {
            Section::Promises => {
                item_promises(alloc, page, names, readings.supply, plan.item(place))
            }
            Section::Plan => item_rows(alloc, page, names, plan.item(place)),
            Section::Orders => ordered_rows(page, names, plan.item(place)),
            Section::Pegs => pegged_rows(alloc, page, readings, place),
            Section::Messages => told_rows(alloc, page, names, plan.item(place)),
            Section::Loads => centre_rows(page, plan, &readings.loads, place),
        }
    }
}
