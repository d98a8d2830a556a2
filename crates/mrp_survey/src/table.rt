//! What is told of a table's records.

ghost use Rattle.std.specs.Prelude.{◌≡◌, ◌++◌, [], IfOk, None, OnOk, Some, if◌then◌else◌};
ghost use Rattle.mrp_tables.specs.Reading.{is_past};
ghost use Rattle.mrp_survey.specs.Tables.{class_in, empty_told, header_told, names_after, names_in, told_from};

use crate::finding::{Finding, Place, What, tell};
use crate::form::{Form, cell_in};
use crate::header::{columns, is_header, most_records};
use crate::known::{Known, known_name};
use crate::record::Record;
use crate::rule::{Beside, look_up};
use crate::seen::Seen;
use crate::sheet::Sheet;
use crate::tell::{add_key, tell_record};
use mrp_qty::NoMemory;
use mrp_rows::Records;
use mrp_tables::Class;
use std::alloc::Global;

pub(crate) fn is_past(limit: Option<usize>, number: usize) -> bool
    ensures { result ≡ is_past limit number }
{
    match limit {
        Some(limit) => limit < number,
        None => false,
    }
}

// Tells that there is no header.
fn tell_empty(
    alloc: Global,
    form: Form,
    sheet: &Sheet<'_>,
    findings: &mut Vec<Finding>,
) -> Result<(), NoMemory>
    ensures { OnOk result (findings.new.items ≡ findings.old.items ++ empty_told form sheet.now) }
{
    let place = Place {
        file: sheet.file(),
        table: form.table,
        number: 0,
        line: 1,
    };
    tell(
        place,
        &mrp_rows::Record::new(alloc),
        0,
        What::Header {
            front: sheet.front(),
        },
        findings,
    )
}

// Tells of a header that is wrong or is not there.
pub(crate) fn tell_header(
    alloc: Global,
    form: Form,
    sheet: &Sheet<'_>,
    findings: &mut Vec<Finding>,
) -> Result<(), NoMemory>
    ensures { OnOk result (findings.new.items ≡ findings.old.items ++ header_told form sheet.now) }
{
    match sheet.header(alloc)? {
        Some(header) => {
            if is_header(form, &header) {
                Ok(())
            } else {
                let place = sheet.place(form.table, 0);
                tell(
                    place,
                    &header,
                    0,
                    What::Header {
                        front: sheet.front(),
                    },
                    findings,
                )
            }
        }
        None => tell_empty(alloc, form, sheet, findings),
    }
}

// Tells what is wrong with a table's records, each of which is read into the same row. No key was seen yet.
fn tell_each(
    form: Form,
    beside: &Beside,
    sheet: &Sheet<'_>,
    records: &mut Records<'_>,
    row: &mut mrp_rows::Record,
    seen: &mut Seen,
    findings: &mut Vec<Finding>,
) -> Result<(), NoMemory>
    requires { seen.old ≡ [] }
    ensures { OnOk result (findings.new.items ≡ findings.old.items ++ told_from form beside.now sheet.now [] 1 records.old) }
{
    let width = columns(form).len();
    let limit = most_records(form);
    for number in 1..usize::MAX {
        if !records.next(width, row)? {
            return Ok(());
        }
        let place = sheet.place(form.table, number);
        if is_past(limit, number) {
            return tell(place, row, 0, What::TooMany, findings);
        }
        let entry = Record::of(form, place, row);
        let named = look_up(&beside.items, &entry);
        tell_record(width, beside, &named, seen, &entry, findings)?;
        add_key(width, &entry, seen)?;
    }
    // More records than can be numbered.
    Err(NoMemory)
}

// Tells what is wrong with a table's records below its header.
pub(crate) fn tell_rows(
    alloc: Global,
    form: Form,
    beside: &Beside,
    sheet: &Sheet<'_>,
    records: &mut Records<'_>,
    findings: &mut Vec<Finding>,
) -> Result<(), NoMemory>
    ensures { OnOk result (findings.new.items ≡ findings.old.items ++ told_from form beside.now sheet.now [] 1 records.old) }
{
    let mut seen = Seen::new(alloc);
    let mut row = mrp_rows::Record::new(alloc);
    tell_each(form, beside, sheet, records, &mut row, &mut seen, findings)
}

// The class that an item's record gives it.
fn class_in(width: usize, entry: &Record<'_>) -> Option<Class>
    ensures { result ≡ class_in width entry.now }
{
    if entry.len() != width {
        return None;
    }
    match entry.word(1)? {
        0 => Some(Class::Master),
        _ => Some(Class::Part),
    }
}

// Adds the name that a record's first cell counts as.
fn add_name(width: usize, entry: &Record<'_>, names: &mut Known) -> Result<(), NoMemory>
    ensures { OnOk result (names.new ≡ names_after width names.old entry.now) }
{
    match known_name(cell_in(entry.row, 0)) {
        Some(name) => names.add(name, class_in(width, entry)),
        None => Ok(()),
    }
}

// Tells the same as `tell_each`, and adds the names of these records. Returns whether all were read: not if there are too many.
fn tell_each_named(
    form: Form,
    beside: &Beside,
    sheet: &Sheet<'_>,
    records: &mut Records<'_>,
    row: &mut mrp_rows::Record,
    seen: &mut Seen,
    names: &mut Known,
    findings: &mut Vec<Finding>,
) -> Result<bool, NoMemory>
    requires seen { seen.old ≡ [] }
    requires names { names.old ≡ [] }
    ensures told { OnOk result (findings.new.items ≡ findings.old.items ++ told_from form beside.now sheet.now [] 1 records.old) }
    ensures names { IfOk result (λ is_all. (if is_all then Some names.new else None) ≡ names_in form sheet.now records.old) }
{
    let width = columns(form).len();
    let limit = most_records(form);
    for number in 1..usize::MAX {
        if !records.next(width, row)? {
            return Ok(true);
        }
        let place = sheet.place(form.table, number);
        if is_past(limit, number) {
            tell(place, row, 0, What::TooMany, findings)?;
            return Ok(false);
        }
        let entry = Record::of(form, place, row);
        let named = look_up(&beside.items, &entry);
        tell_record(width, beside, &named, seen, &entry, findings)?;
        add_key(width, &entry, seen)?;
        add_name(width, &entry, names)?;
    }
    // More records than can be numbered.
    Err(NoMemory)
}

// Tells what is wrong with a table's records below its header, and returns their names; none if there are too many.
pub(crate) fn tell_named_rows(
    alloc: Global,
    form: Form,
    beside: &Beside,
    sheet: &Sheet<'_>,
    records: &mut Records<'_>,
    findings: &mut Vec<Finding>,
) -> Result<Option<Known>, NoMemory>
    ensures told { OnOk result (findings.new.items ≡ findings.old.items ++ told_from form beside.now sheet.now [] 1 records.old) }
    ensures names { IfOk result (λ names. names ≡ names_in form sheet.now records.old) }
{
    let mut seen = Seen::new(alloc);
    let mut names = Known::new(alloc);
    let mut row = mrp_rows::Record::new(alloc);
    let is_all = tell_each_named(
        form, beside, sheet, records, &mut row, &mut seen, &mut names, findings,
    )?;
    if is_all { Ok(Some(names)) } else { Ok(None) }
}
