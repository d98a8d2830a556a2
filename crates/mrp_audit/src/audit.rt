//! Checking a day against its bundle.

ghost use Rattle.std.specs.Prelude.{◌≡◌, Result, ⊤};
ghost use Rattle.mrp_engine.specs.day.RightDay.{IsRightDay};
ghost use Rattle.mrp_master.specs.Supply.{supply_of};
ghost use Rattle.mrp_engine.specs.day.Day.{runs_of};
ghost use Rattle.mrp_audit.specs.Parts.{ComparesHistory, ComparesReports};
ghost use Rattle.mrp_audit.specs.Kept.{KeepsLimits};
ghost use Rattle.mrp_audit.specs.Verdict.{IsVerdict, Judges, JudgesText, Passes};

use crate::desks::check_desks;
use crate::fault::AuditFault;
use crate::history::history_of;
use crate::replay::find_history;
use crate::reports::check_reports;
use crate::script::script_calls;
use crate::shape::read_history;
use mrp_bill::Shop;
use mrp_book::History;
use mrp_item::ShopRows;
use mrp_script::open_shop;
use mrp_tables::Tables;
use std::alloc::Global;
use std::sync::Arc;
use std::thread::Threads;

// Compares a text with the reports of a history's runs.
fn check_runs(
    rt: &(impl Alloc + Threads + Sync),
    alloc: Global,
    shop: Shop,
    history: &History,
    text: &[u8],
) -> Result<(), AuditFault>
    requires { history.now.supply ≡ supply_of shop.tables }
    ensures { ComparesReports (runs_of shop.tables history.now.entries) text.now result }
{
    let rows = ShopRows::of(alloc, Arc::new(alloc, shop)?)?;
    check_reports(rt, alloc, &rows, history, text)
}

// Compares a history with the script of its shop, and a text with the reports of its runs.
fn check_history(
    rt: &(impl Alloc + Threads + Sync),
    alloc: Global,
    shop: Shop,
    history: &History,
    text: &[u8],
) -> Result<(), AuditFault>
    requires { history.now.supply ≡ supply_of shop.tables }
    ensures { ComparesHistory shop.tables history.now.entries text.now result }
{
    let tables = shop.tables();
    tables.keep_limits();
    let script = script_calls(alloc, &shop)?;
    check_desks(alloc, history.entries(), &script)?;
    check_runs(rt, alloc, shop, history, text)
}

// The limits of accepted tables, which the calls that read them guarantee.
fn keep_limits(tables: &Tables)
    ensures { KeepsLimits tables.now }
{
    tables.keep_limits();
    let _weeks = tables.calendar().weeks();
}

// Checks a text against the right days of a shop by the claims that its history makes.
fn check_claims(
    rt: &(impl Alloc + Threads + Sync),
    alloc: Global,
    shop: Shop,
    text: &[u8],
) -> Result<(), AuditFault>
    ensures { JudgesText shop.tables text.now result }
{
    let given = read_history(alloc, &shop, text)?;
    let history = history_of(alloc, &shop, &given.claims)?;
    let (_, reports) = text.split_at(given.len);
    check_history(rt, alloc, shop, &history, reports)
}

// Checks a text against the right days of a shop. Usually the history is found by replaying the script,
// which is faster; its records are read only if that finds none.
fn check_text(
    rt: &(impl Alloc + Threads + Sync),
    alloc: Global,
    shop: Shop,
    text: &[u8],
) -> Result<(), AuditFault>
    requires { KeepsLimits shop.tables }
    ensures { JudgesText shop.tables text.now result }
{
    let Some((history, len)) = find_history(alloc, &shop, text)? else {
        return check_claims(rt, alloc, shop, text);
    };
    let (_, reports) = text.split_at(len);
    check_runs(rt, alloc, shop, &history, reports)
}

/// Whether a text is a right day of a bundle: it is the text of a legal history in which each desk's
/// entries are its script records in order, and then of the report of each run in whose plan no item
/// gets too large.
///
/// A right day gives `Ok`, unless memory runs out. Reports are compared while they are made, and none is held
/// in memory.
///
/// Errors: the first that applies of `Input` with the bundle's first fault, a loop in the bill last; `Shape`;
/// `HistoryNotLegal`; `DeskRows`; `ReportDiffers`. `NoMemory` if an allocation fails.
pub fn check(
    rt: &(impl Alloc + Threads + Sync),
    alloc: Global,
    input: &[u8],
    output: &[u8],
) -> Result<(), AuditFault>
    ensures verdict { Judges input.now output.now result }
    ensures right { IsRightDay input.now output.now → Passes result }
    // No other verdict is possible.
    ensures one { (other : Result ⊤ AuditFault) → Judges input.now output.now other → IsVerdict result → IsVerdict other → result ≡ other }
{
    let shop = open_shop(rt, alloc, input)?;
    keep_limits(shop.tables());
    check_text(rt, alloc, shop, output)
}
