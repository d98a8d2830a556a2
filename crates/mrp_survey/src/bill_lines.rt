//! What is told of a table without keys, in two parts, and the bill lines among its records that lead from item to item.

ghost use Rattle.std.specs.Prelude.{◌≡◌, ◌≤◌, ◌++◌, [], IfOk, OnOk, drop, false};
ghost use Rattle.std.specs.Option.{option_to_list};
ghost use Rattle.mrp_survey.specs.BillLines.{bill_line, bill_lines};
ghost use Rattle.mrp_survey.specs.BillParts.{TellsBack, TellsFront, TellsSome, has_key, unless};
ghost use Rattle.mrp_survey.specs.Sought.{named_of};
ghost use Rattle.mrp_survey.specs.Tables.{told_from};

use crate::finding::{Finding, What, tell};
use crate::form::Form;
use crate::header::{columns, most_records};
use crate::known::Known;
use crate::record::Record;
use crate::rule::{Beside, Named, found_in, look_up, misfit};
use crate::seen::Seen;
use crate::sheet::Sheet;
use crate::table::is_past;
use crate::tell::{is_whole, tell_record};
use mrp_loops::Line;
use mrp_qty::NoMemory;
use mrp_rows::Records;
use std::alloc::Global;
use std::thread::Threads;
use std::{mem, thread};

// A bill line: the number of its record, and the places of its items.
#[derive(Clone, Copy)]
pub(crate) struct BillLine {
    pub(crate) number: usize,
    pub(crate) line: Line,
}

// A whole record as a bill line, where both items are known and the component is not told as a master item.
fn bill_line(
    width: usize,
    items: &Option<Known>,
    named: &Named,
    entry: &Record<'_>,
) -> Option<BillLine>
    requires { named.now ≡ named_of items.now entry.now }
    ensures { result ≡ bill_line width items.now entry.now }
{
    let parent = found_in(items, named, entry, 0).place?;
    let component = found_in(items, named, entry, 1).place?;
    if !is_whole(width, entry) || misfit(items, named, entry, 1).is_some() {
        return None;
    }
    Some(BillLine {
        number: entry.place.number,
        line: Line { parent, component },
    })
}

// Adds a record's bill line, if it is one.
fn add_line(
    width: usize,
    items: &Option<Known>,
    named: &Named,
    entry: &Record<'_>,
    lines: &mut Vec<BillLine>,
) -> Result<(), NoMemory>
    requires { named.now ≡ named_of items.now entry.now }
    ensures { OnOk result (lines.new.items ≡ lines.old.items ++ option_to_list (bill_line width items.now entry.now)) }
{
    if let Some(line) = bill_line(width, items, named, entry) {
        lines.push(line)?;
    }
    Ok(())
}

// What is told of records that stand one behind the other, and those of them that are bill lines and lead from item to item.
#[derive(Drop)]
pub(crate) struct BillsTold {
    findings: Vec<Finding>,
    lines: Vec<BillLine>,
    // Whether no record behind them is told of.
    is_end: bool,
}

// Tells what is wrong with records from the one of a number on and up to one that is not read, each of which is read into the same
// row, and adds bill lines. Returns whether no record behind them is told of.
fn tell_each(
    form: Form,
    beside: &Beside,
    sheet: &Sheet<'_>,
    records: &mut Records<'_>,
    row: &mut mrp_rows::Record,
    first: usize,
    past: usize,
    seen: &Seen,
    findings: &mut Vec<Finding>,
    lines: &mut Vec<BillLine>,
) -> Result<bool, NoMemory>
    requires keyless { has_key form.table ≡ false }
    requires ahead { first ≤ past }
    requires seen { seen.now ≡ [] }
    requires lines { lines.old.items ≡ [] }
    ensures { IfOk result (λ is_end. TellsSome form beside.now sheet.now findings.old.items first records.old past records.new (record { findings = findings.new; lines = lines.new; is_end = is_end })) }
{
    let width = columns(form).len();
    let limit = most_records(form);
    for number in first..past {
        if !records.next(width, row)? {
            return Ok(true);
        }
        let place = sheet.place(form.table, number);
        if is_past(limit, number) {
            tell(place, row, 0, What::TooMany, findings)?;
            return Ok(true);
        }
        let entry = Record::of(form, place, row);
        let named = look_up(&beside.items, &entry);
        tell_record(width, beside, &named, seen, &entry, findings)?;
        add_line(width, &beside.items, &named, &entry, lines)?;
    }
    Ok(false)
}

// Tells, behind what was told before, what is wrong with records from the one of a number on and up to one that is not read.
fn tell_some(
    alloc: Global,
    form: Form,
    beside: &Beside,
    sheet: &Sheet<'_>,
    records: &mut Records<'_>,
    first: usize,
    past: usize,
    before: Vec<Finding>,
) -> Result<BillsTold, NoMemory>
    requires keyless { has_key form.table ≡ false }
    requires ahead { first ≤ past }
    ensures { IfOk result (TellsSome form beside.now sheet.now before.items first records.old past records.new) }
{
    // No two records have to differ.
    let seen = Seen::new(alloc);
    let mut row = mrp_rows::Record::new(alloc);
    let mut findings = before;
    let mut lines = Vec::new(alloc);
    let is_end = tell_each(
        form,
        beside,
        sheet,
        records,
        &mut row,
        first,
        past,
        &seen,
        &mut findings,
        &mut lines,
    )?;
    Ok(BillsTold {
        findings,
        lines,
        is_end,
    })
}

// Passes over so many records.
fn pass_over(alloc: Global, count: usize, records: &mut Records<'_>) -> Result<(), NoMemory>
    ensures { OnOk result (records.new ≡ drop count records.old) }
{
    let mut row = mrp_rows::Record::new(alloc);
    for passed in 0..count {
        let _ = records.next(0, &mut row)?;
    }
    Ok(())
}

// Takes findings out, and tells behind them what is wrong with the records in front of the one of a number.
fn tell_front(
    alloc: Global,
    form: Form,
    beside: &Beside,
    sheet: &Sheet<'_>,
    records: &mut Records<'_>,
    past: usize,
    findings: &mut Vec<Finding>,
) -> Result<BillsTold, NoMemory>
    requires keyless { has_key form.table ≡ false }
    requires ahead { 1 ≤ past }
    ensures { IfOk result (TellsFront form beside.now sheet.now findings.old.items records.old past) }
{
    let before = mem::replace(findings, Vec::new(alloc));
    tell_some(alloc, form, beside, sheet, records, 1, past, before)
}

// Tells what is wrong with the records from the one of a number on.
fn tell_back(
    alloc: Global,
    form: Form,
    beside: &Beside,
    sheet: &Sheet<'_>,
    records: &mut Records<'_>,
    first: usize,
) -> Result<BillsTold, NoMemory>
    requires keyless { has_key form.table ≡ false }
    requires ahead { 1 ≤ first }
    ensures { IfOk result (TellsBack form beside.now sheet.now records.old first) }
{
    pass_over(alloc, first - 1, records)?;
    let none = Vec::new(alloc);
    let told = tell_some(alloc, form, beside, sheet, records, first, usize::MAX, none)?;
    if told.is_end {
        Ok(told)
    } else {
        // More records than can be numbered.
        Err(NoMemory)
    }
}

// What is told of all records, from what is told of those in front and of those behind, in place of the findings before.
fn join_told(
    front: BillsTold,
    back: BillsTold,
    findings: &mut Vec<Finding>,
) -> Result<Vec<BillLine>, NoMemory>
    ensures findings { OnOk result (findings.new.items ≡ front.findings.items ++ unless front.is_end back.findings.items) }
    ensures lines { IfOk result (λ lines. lines.items ≡ front.lines.items ++ unless front.is_end back.lines.items) }
{
    let mut front = front;
    let mut back = back;
    if front.is_end {
        *findings = front.findings;
        return Ok(front.lines);
    }
    front.findings.append(&mut back.findings)?;
    front.lines.append(&mut back.lines)?;
    *findings = front.findings;
    Ok(front.lines)
}

// Tells what is wrong with the records below their header, of a table in which none has something to itself, in two threads if a
// second one can be started. Returns the bill lines among them that lead from item to item. The records are given twice.
pub(crate) fn tell_bill_lines(
    rt: &impl Threads,
    alloc: Global,
    form: Form,
    beside: &Beside,
    sheet: &Sheet<'_>,
    records: &mut Records<'_>,
    again: &mut Records<'_>,
    findings: &mut Vec<Finding>,
) -> Result<Vec<BillLine>, NoMemory>
    requires keyless { has_key form.table ≡ false }
    requires same { again.old ≡ records.old }
    ensures told { OnOk result (findings.new.items ≡ findings.old.items ++ told_from form beside.now sheet.now [] 1 records.old) }
    ensures lines { IfOk result (λ lines. lines.items ≡ bill_lines form beside.now.items sheet.now records.old) }
{
    let middle = sheet.middle();
    let before = &mut *findings;
    let read_front = move || -> Result<BillsTold, NoMemory>
        requires keyless { has_key form.table ≡ false }
        requires ahead { 1 ≤ middle }
        ensures { IfOk result (TellsFront form beside.entry.now sheet.entry.now before.entry.now.items records.entry.now middle) }
    { tell_front(alloc, form, beside, sheet, records, middle, before) };
    let read_back = move || -> Result<BillsTold, NoMemory>
        requires keyless { has_key form.table ≡ false }
        requires ahead { 1 ≤ middle }
        ensures { IfOk result (TellsBack form beside.entry.now sheet.entry.now again.entry.now middle) }
    { tell_back(alloc, form, beside, sheet, again, middle) };
    let (front, back) = thread::join(rt, read_front, read_back);
    let front = front?;
    let back = back?;
    join_told(front, back, findings)
}
