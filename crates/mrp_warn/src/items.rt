//! What is odd about items.

ghost use Rattle.std.specs.Prelude.{◌≡◌, ◌++◌, IfOk, filter, length, map};
ghost use Rattle.std.specs.List.{zip};
ghost use Rattle.mrp_cal.specs.Releases.{first_shop_day};
ghost use Rattle.mrp_warn.specs.Items.{has_pieces, is_unused, items_planned, items_stocked, items_used, late_from, lead_warnings, least_warnings, no_stock, odd_lead, odd_least, odd_name, odd_plan, odd_scrap, odd_size, odd_step, odd_stock, odd_unused, plan_warnings, scrap_warnings, scraps, size_warnings, step_warnings, stock_by_item, stock_warnings, twin_warnings, unused_warnings};
ghost use Rattle.mrp_warn.specs.Rows.{tally, told};

use crate::earlier::earlier;
use crate::limits::{LIKELY_MOST_SCRAP, LIKELY_SCRAP};
use crate::names::{folded_names, name_at};
use crate::oddity::{Oddity, Warning};
use crate::tally::{first_likely, is_at, tally};
use mrp_cal::Calendar;
use mrp_qty::NoMemory;
use mrp_rows::Name;
use mrp_tables::{BillLine, Item, LeadUnit, LotRule, MasterRow, Receipt, StockRow, Tables};
use std::alloc::Global;

fn odd_scrap(likely: Option<usize>, place: usize, scrap: u64) -> Option<Oddity>
    ensures { result ≡ odd_scrap likely place scrap }
{
    if 0 < scrap && scrap < LIKELY_SCRAP {
        Some(Oddity::SmallScrap(scrap))
    } else if is_at(likely, place) {
        Some(Oddity::LowScrap(scrap))
    } else {
        None
    }
}

fn scraps(alloc: Global, items: &[Item]) -> Result<Vec<u64>, NoMemory>
    ensures { IfOk result (λ own. own.items ≡ scraps items.now) }
{
    let own = items.iter().map(|item| item.scrap).collect(alloc)?;
    Ok(own)
}

fn told_scraps(
    alloc: Global,
    likely: Option<usize>,
    scraps: &[u64],
) -> Result<Vec<Warning>, NoMemory>
    ensures { IfOk result (λ own. own.items ≡ told (odd_scrap likely) scraps.now) }
{
    let own = scraps
        .iter()
        .enumerate()
        .filter_map(|(place, scrap)| Warning::at(place, odd_scrap(likely, place, *scrap)))
        .collect(alloc)?;
    Ok(own)
}

// The items whose scrap may be meant in per cent.
pub(crate) fn scrap_warnings(alloc: Global, items: &[Item]) -> Result<Vec<Warning>, NoMemory>
    ensures { IfOk result (λ own. own.items ≡ scrap_warnings items.now) }
{
    let scraps = scraps(alloc, items)?;
    let likely = first_likely(LIKELY_SCRAP, LIKELY_MOST_SCRAP, &scraps);
    told_scraps(alloc, likely, &scraps)
}

fn odd_size(lot: LotRule, size: u64) -> Option<Oddity>
    ensures { result ≡ odd_size lot size }
{
    match lot {
        LotRule::LotForLot if 1 < size => Some(Oddity::IdleSize(size)),
        _ => None,
    }
}

// The lot sizes without effect.
pub(crate) fn size_warnings(
    alloc: Global,
    items: &[Item],
    sizes: &[u64],
) -> Result<Vec<Warning>, NoMemory>
    ensures { IfOk result (λ own. own.items ≡ size_warnings items.now sizes.now) }
{
    let own = items
        .iter()
        .zip(sizes.iter())
        .enumerate()
        .filter_map(|(place, (item, size))| Warning::at(place, odd_size(item.lot, *size)))
        .collect(alloc)?;
    Ok(own)
}

fn odd_least(lot: LotRule, least: u64) -> Option<Oddity>
    ensures { result ≡ odd_least lot least }
{
    match lot {
        LotRule::Fixed(_) if 0 < least => Some(Oddity::IdleLeast(least)),
        _ => None,
    }
}

// The minimum order quantities without effect.
pub(crate) fn least_warnings(alloc: Global, items: &[Item]) -> Result<Vec<Warning>, NoMemory>
    ensures { IfOk result (λ own. own.items ≡ least_warnings items.now) }
{
    let own = items
        .iter()
        .enumerate()
        .filter_map(|(place, item)| Warning::at(place, odd_least(item.lot, item.least)))
        .collect(alloc)?;
    Ok(own)
}

fn odd_step(lot: LotRule, step: u64) -> Option<Oddity>
    ensures { result ≡ odd_step lot step }
{
    match lot {
        LotRule::Fixed(_) if 1 < step => Some(Oddity::IdleStep(step)),
        _ => None,
    }
}

// The order multiples without effect.
pub(crate) fn step_warnings(alloc: Global, items: &[Item]) -> Result<Vec<Warning>, NoMemory>
    ensures { IfOk result (λ own. own.items ≡ step_warnings items.now) }
{
    let own = items
        .iter()
        .enumerate()
        .filter_map(|(place, item)| Warning::at(place, odd_step(item.lot, item.step)))
        .collect(alloc)?;
    Ok(own)
}

// The number of the last week's first shop day, where the shop days of the horizon are numbered from 1.
fn last_weeks_shop_day(calendar: &Calendar) -> u64
    ensures { result ≡ first_shop_day calendar.now calendar.now.weeks }
{
    let mut next = 1;
    for week in 1..calendar.weeks() {
        next += u64::from(calendar.shop_days(week));
    }
    next
}

// The least lead time with which an order that is due in the last week is late.
fn late_from(unit: LeadUnit, calendar: &Calendar) -> u64
    ensures { result ≡ late_from unit calendar.now }
{
    match unit {
        LeadUnit::Weeks => u64::from(calendar.weeks()),
        LeadUnit::ShopDays => last_weeks_shop_day(calendar),
    }
}

fn odd_lead(unit: LeadUnit, weeks: u16, late: u64, lead: u64) -> Option<Oddity>
    ensures { result ≡ odd_lead unit weeks late lead }
{
    if late <= lead {
        Some(Oddity::LongLead { lead, unit, weeks })
    } else {
        None
    }
}

// The lead times with which each order is late.
pub(crate) fn lead_warnings(
    alloc: Global,
    unit: LeadUnit,
    calendar: &Calendar,
    items: &[Item],
) -> Result<Vec<Warning>, NoMemory>
    ensures { IfOk result (λ own. own.items ≡ lead_warnings unit calendar.now items.now) }
{
    let weeks = calendar.weeks();
    let late = late_from(unit, calendar);
    let own = items
        .iter()
        .enumerate()
        .filter_map(|(place, item)| Warning::at(place, odd_lead(unit, weeks, late, item.lead)))
        .collect(alloc)?;
    Ok(own)
}

fn odd_name(items: &[Item], name: Name, first: Option<usize>) -> Option<Oddity>
    ensures { result ≡ odd_name items.now name first }
{
    let first = first?;
    let other = name_at(items, first)?;
    Some(Oddity::Twin { name, other, first })
}

// The names that differ in capitals alone from an earlier one.
pub(crate) fn twin_warnings(alloc: Global, items: &[Item]) -> Result<Vec<Warning>, NoMemory>
    ensures { IfOk result (λ own. own.items ≡ twin_warnings items.now) }
{
    let names = folded_names(alloc, items)?;
    let firsts = earlier(alloc, &names)?;
    let own = items
        .iter()
        .zip(firsts.iter())
        .enumerate()
        .filter_map(|(place, (item, first))| {
            Warning::at(place, odd_name(items, item.name, *first))
        })
        .collect(alloc)?;
    Ok(own)
}

fn components(alloc: Global, bills: &[BillLine]) -> Result<Vec<usize>, NoMemory>
    ensures { IfOk result (λ own. own.items ≡ map (λ l. l.component) bills.now) }
{
    let own = bills.iter().map(|line| line.component).collect(alloc)?;
    Ok(own)
}

fn has_pieces(row: &StockRow) -> bool
    ensures { result ≡ has_pieces row.now }
{
    0 < row.on_hand.value()
}

fn items_on_hand(alloc: Global, stock: &[StockRow]) -> Result<Vec<usize>, NoMemory>
    ensures { IfOk result (λ own. own.items ≡ items_stocked (filter has_pieces stock.now)) }
{
    let own = stock
        .iter()
        .filter(|row| has_pieces(row))
        .map(|row| row.item)
        .collect(alloc)?;
    Ok(own)
}

fn items_stocked(alloc: Global, stock: &[StockRow]) -> Result<Vec<usize>, NoMemory>
    ensures { IfOk result (λ own. own.items ≡ items_stocked stock.now) }
{
    let own = stock.iter().map(|row| row.item).collect(alloc)?;
    Ok(own)
}

fn items_received(alloc: Global, receipts: &[Receipt]) -> Result<Vec<usize>, NoMemory>
    ensures { IfOk result (λ own. own.items ≡ map (λ r. r.item) receipts.now) }
{
    let own = receipts.iter().map(|row| row.item).collect(alloc)?;
    Ok(own)
}

fn items_planned(alloc: Global, master: &[MasterRow]) -> Result<Vec<usize>, NoMemory>
    ensures { IfOk result (λ own. own.items ≡ items_planned master.now) }
{
    let own = master.iter().map(|row| row.item).collect(alloc)?;
    Ok(own)
}

// The items that the tables do something with, as often as they do.
fn items_used(alloc: Global, tables: &Tables) -> Result<Vec<usize>, NoMemory>
    ensures { IfOk result (λ own. own.items ≡ items_used tables.now) }
{
    let mut own = components(alloc, tables.bills())?;
    let on_hand = items_on_hand(alloc, tables.stock())?;
    own.extend_from_slice(&on_hand)?;
    let received = items_received(alloc, tables.receipts())?;
    own.extend_from_slice(&received)?;
    let planned = items_planned(alloc, tables.master())?;
    own.extend_from_slice(&planned)?;
    Ok(own)
}

// How often the tables do something with each item.
fn uses(alloc: Global, tables: &Tables) -> Result<Vec<usize>, NoMemory>
    ensures { IfOk result (λ own. own.items ≡ tally (length tables.now.items) (items_used tables.now)) }
{
    let used = items_used(alloc, tables)?;
    tally(alloc, tables.items().len(), &used)
}

// A part without safety stock that the tables do nothing with.
fn is_unused(item: &Item, used: usize) -> bool
    ensures { result ≡ is_unused item.now used }
{
    !item.class.is_master() && item.safety.value() == 0 && used == 0
}

fn odd_unused(item: &Item, used: usize) -> Option<Oddity>
    ensures { result ≡ odd_unused item.now used }
{
    if is_unused(item, used) {
        Some(Oddity::Unused(item.name))
    } else {
        None
    }
}

// The parts that nothing needs and nothing is known of.
pub(crate) fn unused_warnings(alloc: Global, tables: &Tables) -> Result<Vec<Warning>, NoMemory>
    ensures { IfOk result (λ own. own.items ≡ unused_warnings tables.now) }
{
    let uses = uses(alloc, tables)?;
    let own = tables
        .items()
        .iter()
        .zip(uses.iter())
        .enumerate()
        .filter_map(|(place, (item, used))| Warning::at(place, odd_unused(item, *used)))
        .collect(alloc)?;
    Ok(own)
}

fn odd_stock(item: &Item, used: usize, stocked: usize) -> Option<Oddity>
    ensures { result ≡ odd_stock item.now used stocked }
{
    if stocked == 0 && !is_unused(item, used) {
        Some(Oddity::Unstocked(item.name))
    } else {
        None
    }
}

// How many records of stock each item has.
fn stock_records(alloc: Global, tables: &Tables) -> Result<Vec<usize>, NoMemory>
    ensures { IfOk result (λ own. own.items ≡ tally (length tables.now.items) (items_stocked tables.now.stock)) }
{
    let stocked = items_stocked(alloc, tables.stock())?;
    tally(alloc, tables.items().len(), &stocked)
}

fn told_stock(
    alloc: Global,
    items: &[Item],
    uses: &[usize],
    records: &[usize],
) -> Result<Vec<Warning>, NoMemory>
    ensures { IfOk result (λ own. own.items ≡ told (λ _ r. odd_stock r.0.0 r.0.1 r.1) (zip (zip items.now uses.now) records.now)) }
{
    let own = items
        .iter()
        .zip(uses.iter())
        .zip(records.iter())
        .enumerate()
        .filter_map(|(place, ((item, used), records))| {
            Warning::at(place, odd_stock(item, *used, *records))
        })
        .collect(alloc)?;
    Ok(own)
}

fn stock_by_item(alloc: Global, tables: &Tables) -> Result<Vec<Warning>, NoMemory>
    ensures { IfOk result (λ own. own.items ≡ stock_by_item tables.now) }
{
    let uses = uses(alloc, tables)?;
    let records = stock_records(alloc, tables)?;
    told_stock(alloc, tables.items(), &uses, &records)
}

fn no_stock(alloc: Global, items: &[Item]) -> Result<Vec<Warning>, NoMemory>
    ensures { IfOk result (λ own. own.items ≡ no_stock items.now) }
{
    let mut own = Vec::new(alloc);
    if !items.is_empty() {
        own.push(Warning {
            place: None,
            oddity: Oddity::NoStock,
        })?;
    }
    Ok(own)
}

// The items without a record of stock; told once if there is no such record at all.
pub(crate) fn stock_warnings(alloc: Global, tables: &Tables) -> Result<Vec<Warning>, NoMemory>
    ensures { IfOk result (λ own. own.items ≡ stock_warnings tables.now) }
{
    if tables.stock().is_empty() {
        no_stock(alloc, tables.items())
    } else {
        stock_by_item(alloc, tables)
    }
}

fn odd_plan(item: &Item, rows: usize) -> Option<Oddity>
    ensures { result ≡ odd_plan item.now rows }
{
    if item.class.is_master() && rows == 0 {
        Some(Oddity::Unplanned(item.name))
    } else {
        None
    }
}

// The master items without a row of the master schedule.
pub(crate) fn plan_warnings(alloc: Global, tables: &Tables) -> Result<Vec<Warning>, NoMemory>
    ensures { IfOk result (λ own. own.items ≡ plan_warnings tables.now) }
{
    let planned = items_planned(alloc, tables.master())?;
    let rows = tally(alloc, tables.items().len(), &planned)?;
    let own = tables
        .items()
        .iter()
        .zip(rows.iter())
        .enumerate()
        .filter_map(|(place, (item, rows))| Warning::at(place, odd_plan(item, *rows)))
        .collect(alloc)?;
    Ok(own)
}
