//! The warnings of accepted tables.

ghost use Rattle.std.specs.Prelude.{◌≡◌, IfOk, Ok, string_bytes};
ghost use Rattle.mrp_rows.specs.Bundle.{bundle_of};
ghost use Rattle.mrp_tables.specs.Tables.{Tables, tables_of};
ghost use Rattle.mrp_script.specs.Opened.{IsAccepted};
ghost use Rattle.mrp_inspect.specs.Sheets.{AreSheets};
ghost use Rattle.mrp_inspect.specs.Warned.{AreGroupsOf, WarnsOf};

use crate::sheets::sheets_of;
use mrp_bill::Shop;
use mrp_qty::NoMemory;
use mrp_rows::{Sections, split_bundle};
use mrp_survey::Source;
use mrp_warn::{Group, Inspection, Sheet, warnings, warnings_text};
use std::alloc::Global;
use std::thread;
use std::thread::Threads;

// The sections of an accepted bundle.
fn sections_of(bundle: &[u8]) -> Sections<'_>
    requires { (tables : Tables) × (tables_of bundle.now ≡ Ok tables) }
    ensures { bundle_of bundle.now ≡ Ok result }
{
    match split_bundle(bundle) {
        Ok(sections) => sections,
        Err(_) => unreachable!(),
    }
}

// The warnings of a shop's tables, kind by kind.
fn groups_of(
    rt: &impl Threads,
    alloc: Global,
    bundle: &[u8],
    shop: &Shop,
) -> Result<Vec<Group>, NoMemory>
    requires { IsAccepted bundle.now shop.now.tables }
    ensures { IfOk result (λ groups. AreGroupsOf bundle.now groups.items) }
{
    let sections = sections_of(bundle);
    let inspection = Inspection::of(alloc, &sections, shop)?;
    warnings(rt, alloc, &inspection)
}

// The same, and beside it the sheets of the tables, in two threads if a second one can be started.
fn groups_and_sheets(
    rt: &(impl Threads + Sync),
    alloc: Global,
    bundle: &[u8],
    shop: &Shop,
    sources: &[Option<Source<'_>>; 9],
) -> (Result<Vec<Group>, NoMemory>, Result<Vec<Sheet>, NoMemory>)
    requires { IsAccepted bundle.now shop.now.tables }
    ensures groups { IfOk result.0 (λ groups. AreGroupsOf bundle.now groups.items) }
    ensures sheets { IfOk result.1 (λ sheets. AreSheets sources.now sheets.items) }
{
    let warn = move || -> Result<Vec<Group>, NoMemory>
        requires { IsAccepted bundle.now shop.now.tables }
        ensures { IfOk result (λ groups. AreGroupsOf bundle.entry.now groups.items) }
    { groups_of(rt, alloc, bundle, shop) };
    let place = move || -> Result<Vec<Sheet>, NoMemory>
        ensures { IfOk result (λ sheets. AreSheets sources.entry.now sheets.items) }
    { sheets_of(alloc, sources) };
    thread::join(rt, warn, place)
}

// The warnings of a shop's tables.
pub(crate) fn warnings_of(
    rt: &(impl Threads + Sync),
    alloc: Global,
    bundle: &[u8],
    shop: &Shop,
    sources: &[Option<Source<'_>>; 9],
) -> Result<String, NoMemory>
    requires { IsAccepted bundle.now shop.now.tables }
    ensures { IfOk result (λ text. WarnsOf bundle.now sources.now (string_bytes text)) }
{
    let (groups, sheets) = groups_and_sheets(rt, alloc, bundle, shop, sources);
    let groups = groups?;
    let sheets = sheets?;
    warnings_text(alloc, sheets.as_slice(), groups.as_slice())
}
