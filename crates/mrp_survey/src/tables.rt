//! What is told of nine tables.

ghost use Rattle.std.specs.Prelude.{◌≡◌, ◌<◌, ◌++◌, ◌∷◌, [], IfNone, IfOk, IfSome, List, None, OnOk, Some, false, map, option_map};
ghost use Rattle.mrp_tables.specs.declared.version.Version.TheVariants.{One};
ghost use Rattle.mrp_survey.specs.BillLines.{bill_lines};
ghost use Rattle.mrp_survey.specs.BillParts.{has_key};
ghost use Rattle.mrp_survey.specs.Forms.{AllCells};
ghost use Rattle.mrp_survey.specs.Loops.{FindsLoops};
ghost use Rattle.mrp_survey.specs.Records.{rows_below};
ghost use Rattle.mrp_survey.specs.Survey.{FindsLoopsIn, IsProgress, IsSurveyOf, begun_in, calendar_among, calendar_told, dated_form, first_told, form_of, items_among, last_told, missing, missing_from, names_among, names_by, nothing_beside, records_at, rows_in, survey_told, table_told, version_among, version_of_items, versioned_told};
ghost use Rattle.mrp_survey.specs.InTwo.{IsBillsTold, IsFirstTold, stock_told};

use crate::begun::{Begun, Progress};
use crate::bill_lines::{BillLine, tell_bill_lines};
use crate::calendar::{calendar_in, has_version, version_in};
use crate::early::is_suspect;
use crate::finding::{Finding, Place, What, tell};
use crate::finding_loops::loops_among;
use crate::form::{Form, dated_key, entry_place};
use crate::found_loop::FoundLoop;
use crate::header::can_be_read;
use crate::known::Known;
use crate::likes::Likes;
use crate::rule::Beside;
use crate::sheet::Sheet;
use crate::source::Source;
use crate::surveyed::{Survey, likes_of};
use crate::table::{tell_header, tell_named_rows, tell_rows};
use mrp_cal::Calendar;
use mrp_qty::NoMemory;
use mrp_rows::{Record, Table};
use mrp_tables::Version;
use std::alloc::Global;
use std::thread::Threads;
use std::{mem, thread};

// The records of a table, where it has a text.
fn sheet_of<'a>(
    alloc: Global,
    sources: &[Option<Source<'a>>; 9],
    table: Table,
) -> Result<Option<Sheet<'a>>, NoMemory>
    ensures { IfOk result (λ sheet. sheet ≡ records_at sources.now table) }
{
    match sources.get(table.index()) {
        Some(Some(source)) => {
            let sheet = Sheet::of(alloc, source.file, source.line, source.text)?;
            Ok(Some(sheet))
        }
        _ => Ok(None),
    }
}

fn form_of(table: Table, version: Version) -> Form
    ensures { result ≡ record { table = table; version = version; has_version = false } }
{
    Form {
        table,
        version,
        has_version: false,
    }
}

// Tells what is wrong with a table, where it has a text.
fn tell_table(
    alloc: Global,
    form: Form,
    beside: &Beside,
    sheet: &Option<Sheet<'_>>,
    findings: &mut Vec<Finding>,
) -> Result<(), NoMemory>
    ensures { OnOk result (findings.new.items ≡ findings.old.items ++ table_told form beside.now sheet.now) }
{
    let Some(sheet) = sheet else {
        return Ok(());
    };
    tell_header(alloc, form, sheet, findings)?;
    match sheet.rows_below(alloc, form)? {
        Some(mut records) => tell_rows(alloc, form, beside, sheet, &mut records, findings),
        None => Ok(()),
    }
}

// The same of a table that looks at no other.
fn tell_alone(
    alloc: Global,
    form: Form,
    sheet: &Option<Sheet<'_>>,
    findings: &mut Vec<Finding>,
) -> Result<(), NoMemory>
    ensures { OnOk result (findings.new.items ≡ findings.old.items ++ table_told form nothing_beside sheet.now) }
{
    let beside = nothing_beside();
    tell_table(alloc, form, &beside, sheet, findings)
}

// The records below a table's header, if that can be read.
fn rows_in(
    alloc: Global,
    form: Form,
    sheet: &Option<Sheet<'_>>,
) -> Result<Option<Vec<Record>>, NoMemory>
    ensures { IfOk result (λ rows. option_map (λ rows. rows.items) rows ≡ rows_in form sheet.now) }
{
    match sheet {
        Some(sheet) => sheet.all_below(alloc, form),
        None => Ok(None),
    }
}

// What the calendar says to other tables.
#[derive(Drop)]
struct Dated {
    version: Option<Version>,
    calendar: Option<Calendar>,
}

fn nothing_beside() -> Beside
    ensures { result ≡ nothing_beside }
{
    Beside {
        items: None,
        centres: None,
        calendar: None,
    }
}

// Whether the calendar begins with a version.
fn dated_form(alloc: Global, sheet: &Option<Sheet<'_>>) -> Result<Form, NoMemory>
    ensures { IfOk result (λ form. form ≡ dated_form sheet.now) }
{
    let bare = form_of(Table::Calendar, Version::One);
    match rows_in(alloc, bare, sheet)? {
        Some(rows) => Ok(Form {
            table: Table::Calendar,
            version: Version::One,
            has_version: has_version(&rows),
        }),
        None => Ok(bare),
    }
}

// Tells that the record behind so many is missing.
fn tell_lack(
    alloc: Global,
    form: Form,
    file: Table,
    count: usize,
    findings: &mut Vec<Finding>,
) -> Result<(), NoMemory>
    requires { count < 4 }
    ensures { OnOk result (findings.new.items ≡ findings.old.items ++ missing form file count ∷ []) }
{
    let place = Place {
        file,
        table: form.table,
        number: count + 1,
        line: 0,
    };
    let key = dated_key(entry_place(form, count + 1));
    tell(
        place,
        &Record::new(alloc),
        0,
        What::Missing { key },
        findings,
    )
}

// Tells of the records that a calendar with so many lacks.
fn tell_missing(
    alloc: Global,
    form: Form,
    file: Table,
    count: usize,
    findings: &mut Vec<Finding>,
) -> Result<(), NoMemory>
    ensures { OnOk result (findings.new.items ≡ findings.old.items ++ missing_from form file count) }
{
    let most = if form.has_version { 4 } else { 3 };
    for number in count..most {
        tell_lack(alloc, form, file, number, findings)?;
    }
    Ok(())
}

// Tells what is wrong with the calendar's records.
fn tell_dates(
    alloc: Global,
    sources: &[Option<Source<'_>>; 9],
    sheet: &Option<Sheet<'_>>,
    findings: &mut Vec<Finding>,
) -> Result<Dated, NoMemory>
    requires { sheet.now ≡ records_at sources.now Table.Calendar }
    ensures told { OnOk result (findings.new.items ≡ findings.old.items ++ calendar_told sources.now) }
    ensures dated { IfOk result (λ dated. dated ≡ record { version = version_among sources.now; calendar = calendar_among sources.now }) }
{
    let form = dated_form(alloc, sheet)?;
    tell_alone(alloc, form, sheet, findings)?;
    let Some(sheet) = sheet else {
        return no_dates(alloc, sources);
    };
    let Some(rows) = sheet.all_below(alloc, form)? else {
        return no_dates(alloc, sources);
    };
    tell_missing(alloc, form, sheet.file(), rows.len(), findings)?;
    Ok(Dated {
        version: version_in(form, &rows),
        calendar: calendar_in(form, &rows),
    })
}

// Tells what is wrong with the calendar.
fn tell_calendar(
    alloc: Global,
    sources: &[Option<Source<'_>>; 9],
    findings: &mut Vec<Finding>,
) -> Result<Dated, NoMemory>
    ensures told { OnOk result (findings.new.items ≡ findings.old.items ++ calendar_told sources.now) }
    ensures dated { IfOk result (λ dated. dated ≡ record { version = version_among sources.now; calendar = calendar_among sources.now }) }
{
    let sheet = sheet_of(alloc, sources, Table::Calendar)?;
    tell_dates(alloc, sources, &sheet, findings)
}

// The version whose columns the items' header has.
fn version_of_items(alloc: Global, sources: &[Option<Source<'_>>; 9]) -> Result<Version, NoMemory>
    ensures { IfOk result (λ version. version ≡ version_of_items (records_at sources.now Table.Items)) }
{
    let Some(sheet) = sheet_of(alloc, sources, Table::Items)? else {
        return Ok(Version::One);
    };
    let Some(header) = sheet.header(alloc)? else {
        return Ok(Version::One);
    };
    if can_be_read(form_of(Table::Items, Version::Three), &header) {
        Ok(Version::Three)
    } else {
        Ok(Version::One)
    }
}

// What no calendar says, where none can be read.
fn no_dates(alloc: Global, sources: &[Option<Source<'_>>; 9]) -> Result<Dated, NoMemory>
    ensures { IfOk result (λ dated. dated ≡ record { version = Some (version_of_items (records_at sources.now Table.Items)); calendar = None }) }
{
    Ok(Dated {
        version: Some(version_of_items(alloc, sources)?),
        calendar: None,
    })
}

// Tells what is wrong with records that look at no other table, and returns their names, if they were read to their end.
fn tell_names(
    alloc: Global,
    form: Form,
    sheet: &Sheet<'_>,
    findings: &mut Vec<Finding>,
) -> Result<Option<Known>, NoMemory>
    ensures told { OnOk result (findings.new.items ≡ findings.old.items ++ table_told form nothing_beside (Some sheet.now)) }
    ensures names { IfOk result (λ names. names ≡ names_by form (Some sheet.now)) }
{
    tell_header(alloc, form, sheet, findings)?;
    match sheet.rows_below(alloc, form)? {
        Some(mut rows) => tell_named_rows(
            alloc,
            form,
            &nothing_beside(),
            sheet,
            &mut rows,
            findings,
        ),
        None => Ok(None),
    }
}

// Tells what is wrong with the items or the work centres, and returns their names, if the table was read to its end.
fn tell_named(
    alloc: Global,
    sources: &[Option<Source<'_>>; 9],
    form: Form,
    findings: &mut Vec<Finding>,
) -> Result<Option<Known>, NoMemory>
    ensures told { OnOk result (findings.new.items ≡ findings.old.items ++ table_told form nothing_beside (records_at sources.now form.table)) }
    ensures names { IfOk result (λ names. names ≡ names_among sources.now form) }
{
    match sheet_of(alloc, sources, form.table)? {
        Some(sheet) => tell_names(alloc, form, &sheet, findings),
        None => Ok(None),
    }
}

// The same of the items, which are read only where the version is right.
fn tell_items(
    alloc: Global,
    sources: &[Option<Source<'_>>; 9],
    version: Option<Version>,
    findings: &mut Vec<Finding>,
) -> Result<Option<Known>, NoMemory>
    ensures told { OnOk result (findings.new.items ≡ findings.old.items ++ versioned_told sources.now nothing_beside Table.Items version) }
    ensures names { IfOk result (λ names. names ≡ items_among sources.now version) }
{
    match version {
        Some(version) => tell_named(alloc, sources, form_of(Table::Items, version), findings),
        None => Ok(None),
    }
}

// Tells what is wrong with a table that looks at others.
fn tell_other(
    alloc: Global,
    sources: &[Option<Source<'_>>; 9],
    beside: &Beside,
    table: Table,
    version: Option<Version>,
    findings: &mut Vec<Finding>,
) -> Result<(), NoMemory>
    ensures { OnOk result (findings.new.items ≡ findings.old.items ++ versioned_told sources.now beside.now table version) }
{
    let Some(version) = version else {
        return Ok(());
    };
    let sheet = sheet_of(alloc, sources, table)?;
    tell_table(alloc, form_of(table, version), beside, &sheet, findings)
}

// What is told of the tables up to the bills.
#[derive(Drop)]
struct FirstTold {
    findings: Vec<Finding>,
    // The sets of items that need one another.
    loops: Vec<FoundLoop>,
}

// Tells what is wrong with a table in which no record has something to itself, and returns the bill lines among its records that lead
// from item to item, if these can be read.
fn tell_lines(
    rt: &impl Threads,
    alloc: Global,
    form: Form,
    beside: &Beside,
    sheet: &Sheet<'_>,
    findings: &mut Vec<Finding>,
) -> Result<Option<Vec<BillLine>>, NoMemory>
    requires { has_key form.table ≡ false }
    ensures told { OnOk result (findings.new.items ≡ findings.old.items ++ table_told form beside.now (Some sheet.now)) }
    ensures lines { IfOk result (λ lines. IfSome lines (λ own. (rows : List AllCells) × (rows_below form sheet.now ≡ Some rows) × (own.items ≡ bill_lines form beside.now.items sheet.now rows))) }
    ensures none { IfOk result (λ lines. IfNone lines (rows_below form sheet.now ≡ None)) }
{
    tell_header(alloc, form, sheet, findings)?;
    let Some(mut rows) = sheet.rows_below(alloc, form)? else {
        return Ok(None);
    };
    let Some(mut again) = sheet.rows_below(alloc, form)? else {
        return Ok(None);
    };
    let lines = tell_bill_lines(
        rt, alloc, form, beside, sheet, &mut rows, &mut again, findings,
    )?;
    Ok(Some(lines))
}

// Tells what is wrong with the bills' records, and returns the sets of items that need one another.
fn tell_loops(
    rt: &impl Threads,
    alloc: Global,
    beside: &Beside,
    sheet: &Sheet<'_>,
    findings: &mut Vec<Finding>,
) -> Result<Vec<FoundLoop>, NoMemory>
    ensures told { OnOk result (findings.new.items ≡ findings.old.items ++ table_told (form_of Table.Bills One) beside.now (Some sheet.now)) }
    ensures loops { IfOk result (λ loops. FindsLoops (form_of Table.Bills One) beside.now.items (Some sheet.now) loops.items) }
{
    let form = form_of(Table::Bills, Version::One);
    let Some(lines) = tell_lines(rt, alloc, form, beside, sheet, findings)? else {
        return Ok(Vec::new(alloc));
    };
    loops_among(alloc, &beside.items, sheet, &lines)
}

// Tells what is wrong with the bills, and returns the sets of items that need one another.
fn tell_bills(
    rt: &impl Threads,
    alloc: Global,
    sources: &[Option<Source<'_>>; 9],
    beside: &Beside,
    findings: &mut Vec<Finding>,
) -> Result<Vec<FoundLoop>, NoMemory>
    ensures told { OnOk result (findings.new.items ≡ findings.old.items ++ versioned_told sources.now beside.now Table.Bills (Some One)) }
    ensures loops { IfOk result (λ loops. FindsLoopsIn sources.now beside.now.items loops.items) }
{
    match sheet_of(alloc, sources, Table::Bills)? {
        Some(sheet) => tell_loops(rt, alloc, beside, &sheet, findings),
        None => Ok(Vec::new(alloc)),
    }
}

// What is told of the stock and the receipts.
fn tell_stock(
    alloc: Global,
    sources: &[Option<Source<'_>>; 9],
    beside: &Beside,
) -> Result<Vec<Finding>, NoMemory>
    ensures { IfOk result (λ findings. findings.items ≡ stock_told sources.now beside.now) }
{
    let first = Some(Version::One);
    let mut own = Vec::new(alloc);
    tell_other(alloc, sources, beside, Table::Stock, first, &mut own)?;
    tell_other(alloc, sources, beside, Table::Receipts, first, &mut own)?;
    Ok(own)
}

// What is told of the bills.
fn tell_bills_alone(
    rt: &impl Threads,
    alloc: Global,
    sources: &[Option<Source<'_>>; 9],
    beside: &Beside,
) -> Result<FirstTold, NoMemory>
    ensures { IfOk result (IsBillsTold sources.now beside.now) }
{
    let mut own = Vec::new(alloc);
    let loops = tell_bills(rt, alloc, sources, beside, &mut own)?;
    Ok(FirstTold {
        findings: own,
        loops,
    })
}

// Both, in two threads if a second one can be started.
fn tell_stock_and_bills(
    rt: &(impl Threads + Sync),
    alloc: Global,
    sources: &[Option<Source<'_>>; 9],
    beside: &Beside,
) -> (Result<Vec<Finding>, NoMemory>, Result<FirstTold, NoMemory>)
    ensures stock { IfOk result.0 (λ findings. findings.items ≡ stock_told sources.now beside.now) }
    ensures bills { IfOk result.1 (IsBillsTold sources.now beside.now) }
{
    let read_stock = move || -> Result<Vec<Finding>, NoMemory>
        ensures { IfOk result (λ findings. findings.items ≡ stock_told sources.entry.now beside.entry.now) }
    { tell_stock(alloc, sources, beside) };
    let read_bills = move || -> Result<FirstTold, NoMemory>
        ensures { IfOk result (IsBillsTold sources.entry.now beside.entry.now) }
    { tell_bills_alone(rt, alloc, sources, beside) };
    thread::join(rt, read_stock, read_bills)
}

// What is told of the bills, behind what was told before and what is told of the stock.
fn put_behind(
    before: Vec<Finding>,
    stock: Vec<Finding>,
    bills: FirstTold,
) -> Result<FirstTold, NoMemory>
    ensures { IfOk result (λ first. (first.findings.items ≡ before.items ++ stock.items ++ bills.findings.items) × (first.loops ≡ bills.loops)) }
{
    let mut own = before;
    let mut stock = stock;
    let mut bills = bills;
    own.append(&mut stock)?;
    own.append(&mut bills.findings)?;
    Ok(FirstTold {
        findings: own,
        loops: bills.loops,
    })
}

// Takes findings out, and tells behind them what is wrong with the tables from the stock to the bills.
fn tell_first(
    rt: &(impl Threads + Sync),
    alloc: Global,
    sources: &[Option<Source<'_>>; 9],
    beside: &Beside,
    findings: &mut Vec<Finding>,
) -> Result<FirstTold, NoMemory>
    ensures { IfOk result (IsFirstTold sources.now beside.now findings.old.items) }
{
    let before = mem::replace(findings, Vec::new(alloc));
    let (stock, bills) = tell_stock_and_bills(rt, alloc, sources, beside);
    let stock = stock?;
    let bills = bills?;
    put_behind(before, stock, bills)
}

// Tells what is wrong with the master schedule, which is read only where the version is right.
fn tell_master(
    rt: &impl Threads,
    alloc: Global,
    sources: &[Option<Source<'_>>; 9],
    beside: &Beside,
    version: Option<Version>,
    findings: &mut Vec<Finding>,
) -> Result<(), NoMemory>
    ensures { OnOk result (findings.new.items ≡ findings.old.items ++ versioned_told sources.now beside.now Table.Master version) }
{
    let Some(version) = version else {
        return Ok(());
    };
    let form = form_of(Table::Master, version);
    let Some(sheet) = sheet_of(alloc, sources, Table::Master)? else {
        return Ok(());
    };
    let _ = tell_lines(rt, alloc, form, beside, &sheet, findings)?;
    Ok(())
}

// What is told of the tables behind the bills.
fn tell_last(
    rt: &impl Threads,
    alloc: Global,
    sources: &[Option<Source<'_>>; 9],
    beside: &Beside,
    version: Option<Version>,
) -> Result<Vec<Finding>, NoMemory>
    ensures { IfOk result (λ findings. findings.items ≡ last_told sources.now beside.now version) }
{
    let first = Some(Version::One);
    let mut own = Vec::new(alloc);
    tell_other(alloc, sources, beside, Table::Routings, first, &mut own)?;
    tell_master(rt, alloc, sources, beside, version, &mut own)?;
    tell_other(alloc, sources, beside, Table::Script, first, &mut own)?;
    Ok(own)
}

// Puts what is told last behind what is told first, in place of the findings before.
fn put_last(
    first: FirstTold,
    last: Vec<Finding>,
    findings: &mut Vec<Finding>,
) -> Result<Vec<FoundLoop>, NoMemory>
    ensures findings { OnOk result (findings.new.items ≡ first.findings.items ++ last.items) }
    ensures loops { IfOk result (λ loops. loops ≡ first.loops) }
{
    let mut first = first;
    let mut last = last;
    first.findings.append(&mut last)?;
    *findings = first.findings;
    Ok(first.loops)
}

// Tells what is wrong with the tables that look at others, in up to five threads, as many as can be started, and returns the sets
// of items that need one another.
fn tell_others(
    rt: &(impl Threads + Sync),
    alloc: Global,
    sources: &[Option<Source<'_>>; 9],
    beside: &Beside,
    version: Option<Version>,
    findings: &mut Vec<Finding>,
) -> Result<Vec<FoundLoop>, NoMemory>
    ensures told { OnOk result (findings.new.items ≡ findings.old.items ++ first_told sources.now beside.now ++ last_told sources.now beside.now version) }
    ensures loops { IfOk result (λ loops. FindsLoopsIn sources.now beside.now.items loops.items) }
{
    let read_last = move || -> Result<Vec<Finding>, NoMemory>
        ensures { IfOk result (λ findings. findings.items ≡ last_told sources.entry.now beside.entry.now version) }
    { tell_last(rt, alloc, sources, beside, version) };
    let before = &mut *findings;
    let read_first = move || -> Result<FirstTold, NoMemory>
        ensures { IfOk result (IsFirstTold sources.entry.now beside.entry.now before.entry.now.items) }
    { tell_first(rt, alloc, sources, beside, before) };
    let (last, first) = thread::join(rt, read_last, read_first);
    let first = first?;
    let last = last?;
    put_last(first, last, findings)
}

// Both tables' names with what look-ups of other names need.
fn likes_of_both(
    alloc: Global,
    items: Option<Known>,
    centres: Option<Known>,
) -> Result<(Option<Likes>, Option<Likes>), NoMemory>
    ensures { IfOk result (λ likes. (likes.0 ≡ items) × (likes.1 ≡ centres)) }
{
    let items = likes_of(alloc, items)?;
    let centres = likes_of(alloc, centres)?;
    Ok((items, centres))
}

fn surveyed(
    alloc: Global,
    findings: Vec<Finding>,
    loops: Vec<FoundLoop>,
    version: Option<Version>,
    beside: Beside,
) -> Result<Survey, NoMemory>
    ensures { IfOk result (λ survey. survey ≡ record { findings = findings.items; loops = loops.items; version = version; calendar = beside.calendar; items = beside.items; centres = beside.centres }) }
{
    let (items, centres) = likes_of_both(alloc, beside.items, beside.centres)?;
    Ok(Survey {
        findings,
        loops,
        version,
        calendar: beside.calendar,
        items,
        centres,
    })
}

// Tells what is wrong with the items and the work centres, and returns what other tables look at.
fn tell_beside(
    alloc: Global,
    sources: &[Option<Source<'_>>; 9],
    dated: Dated,
    findings: &mut Vec<Finding>,
) -> Result<Beside, NoMemory>
    ensures told { OnOk result (findings.new.items ≡ findings.old.items ++ versioned_told sources.now nothing_beside Table.Items dated.version ++ table_told (form_of Table.Centres One) nothing_beside (records_at sources.now Table.Centres)) }
    ensures beside { IfOk result (λ beside. beside ≡ record { items = items_among sources.now dated.version; centres = names_among sources.now (form_of Table.Centres One); calendar = dated.calendar }) }
{
    let items = tell_items(alloc, sources, dated.version, findings)?;
    let centres = form_of(Table::Centres, Version::One);
    let centres = tell_named(alloc, sources, centres, findings)?;
    Ok(Beside {
        items,
        centres,
        calendar: dated.calendar,
    })
}

// Surveys the calendar, the items and the work centres.
fn begun(alloc: Global, sources: &[Option<Source<'_>>; 9]) -> Result<Begun, NoMemory>
    ensures { IfOk result (λ begun. begun ≡ begun_in sources.now) }
{
    let mut findings = Vec::new(alloc);
    let dated = tell_calendar(alloc, sources, &mut findings)?;
    let version = dated.version;
    let beside = tell_beside(alloc, sources, dated, &mut findings)?;
    Ok(Begun {
        findings,
        version,
        beside,
    })
}

// Surveys the other tables.
fn finish(
    rt: &(impl Threads + Sync),
    alloc: Global,
    sources: &[Option<Source<'_>>; 9],
    begun: Begun,
) -> Result<Survey, NoMemory>
    requires { begun ≡ begun_in sources.now }
    ensures findings { IfOk result (λ survey. survey.findings ≡ survey_told sources.now) }
    ensures loops { IfOk result (λ survey. FindsLoopsIn sources.now survey.items survey.loops) }
    ensures version { IfOk result (λ survey. survey.version ≡ version_among sources.now) }
    ensures calendar { IfOk result (λ survey. survey.calendar ≡ calendar_among sources.now) }
    ensures items { IfOk result (λ survey. survey.items ≡ items_among sources.now (version_among sources.now)) }
    ensures centres { IfOk result (λ survey. survey.centres ≡ names_among sources.now (form_of Table.Centres One)) }
{
    let Begun {
        findings,
        version,
        beside,
    } = begun;
    let mut findings = findings;
    let loops = tell_others(rt, alloc, sources, &beside, version, &mut findings)?;
    surveyed(alloc, findings, loops, version, beside)
}

// The same as a survey.
fn finish_begun(
    rt: &(impl Threads + Sync),
    alloc: Global,
    sources: &[Option<Source<'_>>; 9],
    begun: Begun,
) -> Result<Survey, NoMemory>
    requires { begun ≡ begun_in sources.now }
    ensures { IfOk result (IsSurveyOf sources.now) }
{
    finish(rt, alloc, sources, begun)
}

/// Begins a survey of nine tables, which stand in their order; a table without a text is not read. Where faults are soon found, it is
/// a whole survey: then there are probably many.
///
/// Errors: `NoMemory` if an allocation fails.
pub fn begin_survey(
    rt: &(impl Threads + Sync),
    alloc: Global,
    sources: &[Option<Source<'_>>; 9],
) -> Result<Progress, NoMemory>
    ensures { IfOk result (IsProgress sources.now) }
{
    let begun = begun(alloc, sources)?;
    if is_suspect(alloc, sources, &begun)? {
        let survey = finish_begun(rt, alloc, sources, begun)?;
        Ok(Progress::Done(survey))
    } else {
        Ok(Progress::Begun(begun))
    }
}

/// All that is wrong with the records of nine tables of which a survey is begun. The tables behind the work centres are read in up to
/// five threads, as many as can be started.
///
/// Errors: `NoMemory` if an allocation fails.
pub fn finish_survey(
    rt: &(impl Threads + Sync),
    alloc: Global,
    sources: &[Option<Source<'_>>; 9],
    progress: Progress,
) -> Result<Survey, NoMemory>
    requires { IsProgress sources.now progress }
    ensures { IfOk result (IsSurveyOf sources.now) }
{
    match progress {
        Progress::Begun(begun) => finish_begun(rt, alloc, sources, begun),
        Progress::Done(survey) => Ok(survey),
    }
}
