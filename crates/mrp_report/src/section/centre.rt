//! A work centre's rows of the section `loads`.

ghost use Rattle.std.specs.Prelude.{◌≡◌, ◌<◌, ◌≤◌, ◌++◌, OnOk, flat_map, length};
ghost use Rattle.std.specs.Int.{IsInRange};
ghost use Rattle.mrp_phase.specs.Weeks.{row};
ghost use Rattle.mrp_item.specs.Inputs.{horizon};
ghost use Rattle.mrp_load.specs.Loads.{centre_at};
ghost use Rattle.mrp_report.specs.section.LoadRows.{load_row};
ghost use Rattle.mrp_report.specs.section.LoadText.{load_text};
ghost use Rattle.mrp_report.specs.ReportText.{loaded_text};

use crate::page::{CsvName, Page};
use crate::section::loads::{LoadRow, load_row};
use mrp_item::Plan;
use mrp_load::LoadTable;
use mrp_qty::NoMemory;
use mrp_tables::Centre;

// The row of a work centre's week.
fn row_of(loads: &LoadTable, centre: usize, week: u16) -> LoadRow
    requires centre { centre < length loads.now.tables.centres }
    requires week { IsInRange 1 (horizon loads.now) week }
    ensures { result ≡ load_row loads.now centre week }
{
    LoadRow {
        week,
        load: loads.load(centre, week),
        capacity: loads.capacity(centre, week),
        over: loads.over(centre, week),
    }
}

// Adds a row for each week of a work centre.
fn week_rows(
    page: &mut Page,
    name: &CsvName,
    loads: &LoadTable,
    centre: usize,
    weeks: u16,
) -> Result<(), NoMemory>
    requires centre { centre < length loads.now.tables.centres }
    requires weeks { weeks ≡ horizon loads.now }
    ensures { OnOk result (page.new ≡ page.old ++ flat_map (load_text name.now) (row weeks (load_row loads.now centre))) }
{
    for place in 0..weeks {
        load_row(page, name, &row_of(loads, centre, place + 1))?;
    }
    Ok(())
}

// A work centre's record in the tables.
fn centre_of(plan: &Plan, centre: usize) -> Centre
    requires { centre < length plan.now.inputs.tables.centres }
    ensures { result ≡ centre_at plan.now.inputs centre }
{
    plan.inputs().shop().tables().centres()[centre]
}

// Adds a work centre's rows of the section `loads`. The loads are those of the plan.
pub(crate) fn centre_rows(
    page: &mut Page,
    plan: &Plan,
    loads: &LoadTable,
    centre: usize,
) -> Result<(), NoMemory>
    requires loads { loads.now ≡ plan.now.inputs }
    requires within { centre < length plan.now.inputs.tables.centres }
    ensures { OnOk result (page.new ≡ page.old ++ loaded_text plan.now.inputs centre) }
{
    let name = CsvName::of(&centre_of(plan, centre).name);
    week_rows(page, &name, loads, centre, plan.inputs().weeks())
}
