//! The warnings of each kind.

ghost use Rattle.std.specs.Prelude.{◌++◌, IfOk};
ghost use Rattle.mrp_warn.specs.Tells.{AreGroups, AreWarnings, Tells};

use crate::bills::{doubled_warnings, per_warnings};
use crate::calendar::week_warnings;
use crate::calls::{denied_warnings, unplaced_warnings};
use crate::centres::{idle_warnings, minutes_warnings};
use crate::inspection::Inspection;
use crate::items::{
    lead_warnings, least_warnings, plan_warnings, scrap_warnings, size_warnings, step_warnings,
    stock_warnings, twin_warnings, unused_warnings,
};
use crate::kind::{Kind, kinds};
use crate::oddity::Warning;
use crate::runs::run_warnings;
use mrp_qty::NoMemory;
use std::alloc::Global;
use std::thread;
use std::thread::Threads;

/// The warnings of a kind.
#[derive(Drop)]
pub struct Group {
    /// The kind.
    pub kind: Kind,
    /// Its warnings, in the order of their records.
    pub warnings: Vec<Warning>,
}

// The warnings of a kind.
fn told(alloc: Global, inspection: &Inspection<'_>, kind: Kind) -> Result<Vec<Warning>, NoMemory>
    ensures { IfOk result (λ own. Tells inspection.now kind own.items) }
{
    let tables = inspection.tables();
    let history = inspection.history();
    match kind {
        Kind::ClosedWeek => week_warnings(alloc, tables.calendar(), inspection.workdays()),
        Kind::Scrap => scrap_warnings(alloc, tables.items()),
        Kind::Size => size_warnings(alloc, tables.items(), inspection.sizes()),
        Kind::Least => least_warnings(alloc, tables.items()),
        Kind::Step => step_warnings(alloc, tables.items()),
        Kind::Lead => lead_warnings(alloc, tables.lead_unit(), tables.calendar(), tables.items()),
        Kind::Twin => twin_warnings(alloc, tables.items()),
        Kind::Unused => unused_warnings(alloc, tables),
        Kind::Unstocked => stock_warnings(alloc, tables),
        Kind::Unplanned => plan_warnings(alloc, tables),
        Kind::Minutes => minutes_warnings(alloc, tables.centres(), tables.routings()),
        Kind::Idle => idle_warnings(alloc, tables.centres(), tables.routings()),
        Kind::Doubled => doubled_warnings(alloc, tables.items(), tables.bills()),
        Kind::Per => per_warnings(alloc, tables.items(), tables.bills()),
        Kind::Run => run_warnings(alloc, tables.routings()),
        Kind::Denied => denied_warnings(alloc, history),
        Kind::Unplaced => unplaced_warnings(alloc, history),
    }
}

// The warnings of some kinds, kind by kind.
fn groups_of(
    alloc: Global,
    inspection: &Inspection<'_>,
    kinds: &[Kind],
) -> Result<Vec<Group>, NoMemory>
    ensures { IfOk result (λ groups. AreGroups inspection.now kinds.now groups.items) }
{
    let mut groups = Vec::new(alloc);
    for kind in kinds {
        let warnings = told(alloc, inspection, *kind)?;
        groups.push(Group {
            kind: *kind,
            warnings,
        })?;
    }
    Ok(groups)
}

// The same of some kinds and others behind them, in two threads if a second one can be started.
fn groups_of_both(
    rt: &impl Threads,
    alloc: Global,
    inspection: &Inspection<'_>,
    front: &[Kind],
    back: &[Kind],
) -> Result<Vec<Group>, NoMemory>
    ensures { IfOk result (λ groups. AreGroups inspection.now (front.now ++ back.now) groups.items) }
{
    let tell_front = move || -> Result<Vec<Group>, NoMemory>
        ensures { IfOk result (λ groups. AreGroups inspection.entry.now front.entry.now groups.items) }
    { groups_of(alloc, inspection, front) };
    let tell_back = move || -> Result<Vec<Group>, NoMemory>
        ensures { IfOk result (λ groups. AreGroups inspection.entry.now back.entry.now groups.items) }
    { groups_of(alloc, inspection, back) };
    let (first, second) = thread::join(rt, tell_front, tell_back);
    let mut groups = first?;
    let mut others = second?;
    groups.append(&mut others)?;
    Ok(groups)
}

/// The warnings of accepted tables, kind by kind, in the order of [`kinds`]: exactly one of each record that
/// has the condition of its kind, in the order of the records. Of a table without a record of stock there
/// is one for all items. They are looked for in two threads if a second one can be started.
///
/// Errors: `NoMemory` if an allocation fails.
pub fn warnings(
    rt: &impl Threads,
    alloc: Global,
    inspection: &Inspection<'_>,
) -> Result<Vec<Group>, NoMemory>
    ensures { IfOk result (λ groups. AreWarnings inspection.now groups.items) }
{
    let kinds = kinds();
    // Those of the bills, behind these, take about as long.
    let (front, back) = kinds.split_at(kinds.len() / 3 * 2);
    groups_of_both(rt, alloc, inspection, front, back)
}
