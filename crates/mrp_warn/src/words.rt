//! Warnings in words.

ghost use Rattle.std.specs.Prelude.{◌≡◌, ◌++◌, IfOk, OnOk, string_bytes, take};
ghost use Rattle.mrp_warn.specs.Sheets as places;
ghost use Rattle.mrp_warn.specs.Words.{count_of, count_words, group_text, line_text, more_text, not_standing, not_yours, of_doubled, of_few_minutes, of_lead, of_low_run, of_low_scrap, of_name, of_number, of_operations, of_per, of_short, of_small_run, of_small_scrap, of_twin, of_unplanned, of_unstocked, of_unused, of_week, text_of, unplaced, warning_text, words_of};

use crate::kind::Kind;
use crate::limits::MOST_OF_A_KIND;
use crate::oddity::{Oddity, Warning};
use crate::sheets::{Sheet, file_of, line_of};
use crate::telling::Group;
use jiff::civil::Date;
use mrp_advice::{plural, text_of_name};
use mrp_qty::NoMemory;
use mrp_rows::{Name, Table};
use mrp_tables::LeadUnit;
use std::alloc::{AllocError, Global};

// A number, and what is said of it.
fn of_number(alloc: Global, number: u64, words: &str) -> Result<String, AllocError>
    ensures { IfOk result (λ text. string_bytes text ≡ of_number number words.now) }
{
    format!(in alloc; "'{number}'{words}")
}

// A name, and what is said of it.
fn of_name(alloc: Global, name: &Name, words: &str) -> Result<String, AllocError>
    ensures { IfOk result (λ text. string_bytes text ≡ of_name name.now words.now) }
{
    let name = text_of_name(name);
    format!(in alloc; "'{name}'{words}")
}

// What is said of a lead time with which each order is late.
fn of_lead(alloc: Global, lead: u64, unit: LeadUnit, weeks: u16) -> Result<String, AllocError>
    ensures { IfOk result (λ text. string_bytes text ≡ of_lead lead unit weeks) }
{
    match unit {
        LeadUnit::Weeks => {
            format!(in alloc; "'{lead}' weeks in a horizon of {weeks} make each of its orders late")
        }
        LeadUnit::ShopDays => {
            format!(in alloc;
                "'{lead}' shop days in a horizon of {weeks} weeks make each of its orders late"
            )
        }
    }
}

// What is said of the first scrap of those that may be meant in per cent.
fn of_low_scrap(alloc: Global, scrap: u64) -> Result<String, AllocError>
    ensures { IfOk result (λ text. string_bytes text ≡ of_low_scrap scrap) }
{
    let whole = scrap / 10;
    let tenths = scrap % 10;
    format!(in alloc;
        "'{scrap}' is {whole}.{tenths} % (thousandths), and no item has more than 3 %"
    )
}

// What is said of a name that differs in capitals alone from another.
fn of_twin(
    alloc: Global,
    sheets: &[Sheet],
    name: &Name,
    other: &Name,
    first: usize,
) -> Result<String, AllocError>
    ensures { IfOk result (λ text. string_bytes text ≡ of_twin name.now other.now (places.line_of sheets.now Table.Items first)) }
{
    let name = text_of_name(name);
    let other = text_of_name(other);
    let line = line_of(sheets, Table::Items, first);
    format!(in alloc; "'{name}' differs in capitals alone from '{other}' of line {line}")
}

// What is said of a work centre without minutes.
fn of_operations(alloc: Global, operations: usize) -> Result<String, AllocError>
    ensures { IfOk result (λ text. string_bytes text ≡ of_operations operations) }
{
    let ending = plural(operations as u128);
    format!(in alloc; "'0' minutes for {operations} operation{ending}")
}

// What is said of a bill line whose parent and component an earlier one has.
fn of_doubled(
    alloc: Global,
    sheets: &[Sheet],
    component: &Name,
    parent: &Name,
    first: usize,
) -> Result<String, AllocError>
    ensures { IfOk result (λ text. string_bytes text ≡ of_doubled component.now parent.now (places.line_of sheets.now Table.Bills first)) }
{
    let line = line_of(sheets, Table::Bills, first);
    let component = text_of_name(component);
    let parent = text_of_name(parent);
    format!(in alloc; "'{component}' of '{parent}' stands in line {line} already, and both count")
}

// What is said of a large quantity per.
fn of_per(alloc: Global, per: u64, component: &Name, parent: &Name) -> Result<String, AllocError>
    ensures { IfOk result (λ text. string_bytes text ≡ of_per per component.now parent.now) }
{
    let component = text_of_name(component);
    let parent = text_of_name(parent);
    format!(in alloc; "'{per}' pieces of '{component}' in one '{parent}'")
}

// What is said of a booking that was answered short.
fn of_short(alloc: Global, quantity: u64, available: u64) -> Result<String, AllocError>
    ensures { IfOk result (λ text. string_bytes text ≡ of_short quantity available) }
{
    format!(in alloc; "booking '{quantity}' is answered short, {available} are available")
}

// What is said of a booking behind the last run.
fn unplaced(alloc: Global, sheets: &[Sheet], run: usize) -> Result<String, AllocError>
    ensures { IfOk result (λ text. string_bytes text ≡ unplaced (places.line_of sheets.now Table.Script run)) }
{
    let line = line_of(sheets, Table::Script, run);
    format!(in alloc; "this booking is behind the last run, line {line}, and in no plan")
}

// What is said of a week without a shop day.
fn of_week(alloc: Global, week: u16, monday: Date) -> Result<String, AllocError>
    ensures { IfOk result (λ text. string_bytes text ≡ of_week week monday) }
{
    format!(in alloc; "week {week} from {monday} has no shop day")
}

// What is said of scrap below one per cent.
fn of_small_scrap(alloc: Global, scrap: u64) -> Result<String, AllocError>
    ensures { IfOk result (λ text. string_bytes text ≡ of_small_scrap scrap) }
{
    format!(in alloc; "'{scrap}' is 0.{scrap} % (thousandths)")
}

// What is said of a part that nothing needs.
fn of_unused(alloc: Global, name: &Name) -> Result<String, AllocError>
    ensures { IfOk result (λ text. string_bytes text ≡ of_unused name.now) }
{
    let words = " is a part of no bill, without stock, receipt or safety stock";
    of_name(alloc, name, words)
}

// What is said of an item without a record of stock.
fn of_unstocked(alloc: Global, name: &Name) -> Result<String, AllocError>
    ensures { IfOk result (λ text. string_bytes text ≡ of_unstocked name.now) }
{
    of_name(alloc, name, " has no row in stock.csv, so none on hand")
}

// What is said of a master item that the master schedule asks nothing of.
fn of_unplanned(alloc: Global, name: &Name) -> Result<String, AllocError>
    ensures { IfOk result (λ text. string_bytes text ≡ of_unplanned name.now) }
{
    let words = " is a master item without pieces in master.csv";
    of_name(alloc, name, words)
}

// What is said of minutes that may be meant in hours.
fn of_few_minutes(alloc: Global, minutes: u64) -> Result<String, AllocError>
    ensures { IfOk result (λ text. string_bytes text ≡ of_few_minutes minutes) }
{
    let words = " is minutes on a shop day (8 hours are 480)";
    of_number(alloc, minutes, words)
}

// What is said of a run time below a hundredth of a minute.
fn of_small_run(alloc: Global, run: u64) -> Result<String, AllocError>
    ensures { IfOk result (λ text. string_bytes text ≡ of_small_run run) }
{
    format!(in alloc; "'{run}' is 0.00{run} minutes (thousandths)")
}

// What is said of the first run time of those that may be meant in minutes.
fn of_low_run(alloc: Global, run: u64) -> Result<String, AllocError>
    ensures { IfOk result (λ text. string_bytes text ≡ of_low_run run) }
{
    format!(in alloc; "'{run}' is 0.0{run} minutes (thousandths), and no operation has 0.1")
}

// What is said of a cancellation of what does not stand.
fn not_standing(alloc: Global, number: u64) -> Result<String, AllocError>
    ensures { IfOk result (λ text. string_bytes text ≡ not_standing number) }
{
    format!(in alloc; "no booking '{number}' stands to be cancelled")
}

// What is said of a cancellation of another desk's booking.
fn not_yours(alloc: Global, number: u64, desk: u64) -> Result<String, AllocError>
    ensures { IfOk result (λ text. string_bytes text ≡ not_yours number desk) }
{
    format!(in alloc; "booking '{number}' is that of desk {desk} and stays")
}

// What is odd, in words.
fn words_of(alloc: Global, sheets: &[Sheet], oddity: &Oddity) -> Result<String, AllocError>
    ensures { IfOk result (λ text. string_bytes text ≡ words_of sheets.now oddity.now) }
{
    match oddity {
        Oddity::ClosedWeek { week, monday } => of_week(alloc, *week, *monday),
        Oddity::SmallScrap(scrap) => of_small_scrap(alloc, *scrap),
        Oddity::LowScrap(scrap) => of_low_scrap(alloc, *scrap),
        Oddity::IdleSize(size) => of_number(alloc, *size, " has no effect with lfl"),
        Oddity::IdleLeast(least) => of_number(alloc, *least, " has no effect with fixed"),
        Oddity::IdleStep(step) => of_number(alloc, *step, " has no effect with fixed"),
        Oddity::LongLead { lead, unit, weeks } => of_lead(alloc, *lead, *unit, *weeks),
        Oddity::Twin { name, other, first } => of_twin(alloc, sheets, name, other, *first),
        Oddity::Unused(name) => of_unused(alloc, name),
        Oddity::Unstocked(name) => of_unstocked(alloc, name),
        Oddity::NoStock => String::from_str(alloc, "there is no row, so no item has any on hand"),
        Oddity::Unplanned(name) => of_unplanned(alloc, name),
        Oddity::NoMinutes { operations } => of_operations(alloc, *operations),
        Oddity::FewMinutes(minutes) => of_few_minutes(alloc, *minutes),
        Oddity::Idle(name) => of_name(alloc, name, " is in no routing"),
        Oddity::Doubled {
            component,
            parent,
            first,
        } => of_doubled(alloc, sheets, component, parent, *first),
        Oddity::LargePer {
            per,
            component,
            parent,
        } => of_per(alloc, *per, component, parent),
        Oddity::SmallRun(run) => of_small_run(alloc, *run),
        Oddity::LowRun(run) => of_low_run(alloc, *run),
        Oddity::Short {
            quantity,
            available,
        } => of_short(alloc, *quantity, *available),
        Oddity::NotStanding(number) => not_standing(alloc, *number),
        Oddity::NotYours { number, desk } => not_yours(alloc, *number, *desk),
        Oddity::Unplaced { run } => unplaced(alloc, sheets, *run),
    }
}

// A line: a file, a line of it, a column, and what is said.
fn line_text(
    alloc: Global,
    file: Table,
    line: u64,
    column: &str,
    words: &str,
) -> Result<String, AllocError>
    ensures { IfOk result (λ text. string_bytes text ≡ line_text file line column.now words.now) }
{
    let file = file.name();
    format!(in alloc; "{file}.csv:{line}: warning: {column}: {words}\n")
}

// The line of a warning.
fn warning_text(
    alloc: Global,
    sheets: &[Sheet],
    kind: Kind,
    warning: &Warning,
) -> Result<String, AllocError>
    ensures { IfOk result (λ text. string_bytes text ≡ warning_text sheets.now kind warning.now) }
{
    let words = words_of(alloc, sheets, &warning.oddity)?;
    let column = kind.column();
    match warning.place {
        Some(place) => {
            let file = file_of(sheets, kind.table());
            let line = line_of(sheets, kind.table(), place);
            line_text(alloc, file, line, column, &words)
        }
        None => line_text(alloc, file_of(sheets, Table::Stock), 1, column, &words),
    }
}

// The first warnings of a kind, which have a line each.
fn shown(warnings: &[Warning]) -> &[Warning]
    ensures { result.now ≡ take MOST_OF_A_KIND warnings.now }
{
    match warnings.get(..MOST_OF_A_KIND) {
        Some(first) => first,
        None => warnings,
    }
}

// The line that stands for the rest of a kind, if there is a rest.
fn more_text(alloc: Global, sheets: &[Sheet], kind: Kind, rest: usize) -> Result<String, AllocError>
    ensures { IfOk result (λ text. string_bytes text ≡ more_text sheets.now kind rest) }
{
    if rest == 0 {
        return Ok(String::new(alloc));
    }
    let words = format!(in alloc; "{rest} more like these")?;
    let file = file_of(sheets, kind.table());
    line_text(alloc, file, 0, kind.column(), &words)
}

// Adds the lines of a kind to a text.
fn push_group(
    alloc: Global,
    sheets: &[Sheet],
    group: &Group,
    text: &mut String,
) -> Result<(), AllocError>
    ensures { OnOk result (string_bytes text.new ≡ string_bytes text.old ++ group_text sheets.now group.now) }
{
    for warning in shown(&group.warnings) {
        let line = warning_text(alloc, sheets, group.kind, warning)?;
        text.push_str(&line)?;
    }
    let rest = group.warnings.len().saturating_sub(MOST_OF_A_KIND);
    let more = more_text(alloc, sheets, group.kind, rest)?;
    text.push_str(&more)?;
    Ok(())
}

// How many warnings there are.
fn count_of(groups: &[Group]) -> u128
    ensures { result ≡ count_of groups.now }
{
    let mut count = 0;
    for group in groups {
        count += group.warnings.len() as u128;
    }
    count
}

// How many warnings there are, in words.
fn count_words(alloc: Global, count: u128) -> Result<String, AllocError>
    ensures { IfOk result (λ text. string_bytes text ≡ count_words count) }
{
    if count == 0 {
        return String::from_str(alloc, "no warnings");
    }
    let ending = plural(count);
    format!(in alloc; "{count} warning{ending}")
}

/// Warnings as text: a line for each of the first 20 of a kind, as `items.csv:3: warning: scrap: ..`, one for
/// the rest of the kind, at line 0, and last how many there are, as `no faults, 2 warnings`. Sheets are in the
/// order of the tables, the calendar first.
///
/// Errors: `NoMemory` if an allocation fails.
pub fn warnings_text(alloc: Global, sheets: &[Sheet], groups: &[Group]) -> Result<String, NoMemory>
    ensures { IfOk result (λ text. string_bytes text ≡ text_of sheets.now groups.now) }
{
    let mut text = String::new(alloc);
    for group in groups {
        push_group(alloc, sheets, group, &mut text)?;
    }
    text.push_str("no faults, ")?;
    text.push_str(&count_words(alloc, count_of(groups))?)?;
    text.push_str("\n")?;
    Ok(text)
}
