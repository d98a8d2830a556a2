//! The line of a fault.

ghost use Rattle.std.specs.Prelude.{◌≡◌, ◌++◌, OnOk, map, option_map, string_bytes, unwrap_or};
ghost use Rattle.mrp_tables.specs.declared.version.Version.TheVariants.{One};
ghost use Rattle.mrp_advice.specs.Lines.{cell_of, column_words, columns_of, expected_words, fault_line, like_of, place_words, version_of, what_words};
ghost use Rattle.mrp_advice.specs.Listing.{listed_in, with_line};

use crate::cell::push_cell;
use crate::expected::push_kind;
use crate::header::{column_at, push_header};
use crate::listing::Listing;
use crate::record::{
    push_at_most, push_blank, push_columns, push_missing, push_too_many, push_wanted, row_words,
};
use crate::rule::{once_words, push_outside, push_repeated, push_unknown, push_within};
use crate::text::{push_listed, push_number, push_of};
use mrp_rows::Name;
use mrp_survey::{Finding, Survey, What};
use mrp_tables::Version;
use std::alloc::{AllocError, Global};

fn version_of(survey: &Survey) -> Version
    ensures { result ≡ version_of survey.now }
{
    survey.version().unwrap_or(Version::One)
}

// The first known item whose name differs from a cell's in capitals alone.
fn item_like<'a>(survey: &'a Survey, cell: &[u8]) -> Option<&'a Name>
    ensures { option_map (λ name. name.now) result ≡ like_of survey.now.items cell.now }
{
    let name = Name::new(cell)?;
    survey.item_like(&name)
}

// The same of the work centres.
fn centre_like<'a>(survey: &'a Survey, cell: &[u8]) -> Option<&'a Name>
    ensures { option_map (λ name. name.now) result ≡ like_of survey.now.centres cell.now }
{
    let name = Name::new(cell)?;
    survey.centre_like(&name)
}

// The column that a fault is told of, or what stands for it.
fn column_words(columns: &[&'static str], finding: &Finding) -> &'static str
    ensures { result.now ≡ column_words (map (λ c. c.now) columns.now) finding.now finding.now.what }
{
    match finding.what() {
        What::Header { .. } => "header",
        What::Blank | What::Columns { .. } | What::TooMany | What::Missing { .. } => "row",
        _ => column_at(columns, finding.column()),
    }
}

// Adds where a fault is: the file, the line and the column.
fn push_place(survey: &Survey, finding: &Finding, text: &mut String) -> Result<(), AllocError>
    ensures { OnOk result (string_bytes text.new ≡ string_bytes text.old ++ place_words survey.now finding.now) }
{
    text.push_str(finding.file().name())?;
    text.push_str(".csv:")?;
    push_number(finding.line(), text)?;
    text.push_str(": ")?;
    text.push_str(column_words(survey.columns(finding.table()), finding))?;
    text.push_str(": ")
}

// Adds what is wrong. The last record of a run of empty cells begins in this line.
fn push_what(
    survey: &Survey,
    finding: &Finding,
    last: u64,
    text: &mut String,
) -> Result<(), AllocError>
    ensures { OnOk result (string_bytes text.new ≡ string_bytes text.old ++ what_words survey.now finding.now last finding.now.what) }
{
    let table = finding.table();
    let columns = survey.columns(table);
    let row = finding.cells();
    let cell = finding.text();
    match finding.what() {
        What::Header { front } => push_header(table, row, columns, front, text),
        What::Blank => push_blank(finding.line(), last, text),
        What::Columns { .. } => push_columns(row, columns.len(), text),
        What::Cell { kind, code } => push_cell(kind, code, cell, text),
        What::Repeated { line } => push_repeated(table, row, finding.column(), line, text),
        What::UnknownItem => {
            push_unknown(cell, " is not in items.csv", item_like(survey, cell), text)
        }
        What::UnknownCentre => {
            push_unknown(
                cell,
                " is not in centres.csv",
                centre_like(survey, cell),
                text,
            )
        }
        What::DateOutside => push_outside(survey.calendar(), cell, text),
        What::NotMaster => push_of(cell, " is a part", text),
        What::MasterSafety => push_of(cell, " is safety stock of a master item", text),
        What::MasterReceipt | What::MasterComponent | What::ServiceMaster => {
            push_of(cell, " is a master item", text)
        }
        What::TooMany => push_too_many(finding.number(), text),
        What::Missing { key } => push_missing(key, text),
    }
}

// Adds what is expected.
fn push_expected(
    alloc: Global,
    survey: &Survey,
    finding: &Finding,
    text: &mut String,
) -> Result<(), AllocError>
    ensures { OnOk result (string_bytes text.new ≡ string_bytes text.old ++ expected_words survey.now finding.now finding.now.what) }
{
    let table = finding.table();
    let columns = survey.columns(table);
    let cell = finding.text();
    match finding.what() {
        What::Header { .. } => push_listed(",", columns, text),
        What::Blank => text.push_str("no such row"),
        What::Columns { .. } => push_wanted(columns.len(), text),
        What::Cell { kind, .. } => {
            let version = version_of(survey);
            push_kind(alloc, version, table, finding.column(), kind, cell, text)
        }
        What::Repeated { .. } => text.push_str(once_words(table)),
        What::UnknownItem => text.push_str("an item"),
        What::UnknownCentre => text.push_str("a centre"),
        What::DateOutside => push_within(alloc, table, survey.calendar(), cell, text),
        What::NotMaster => text.push_str("a master item"),
        What::MasterSafety => text.push_str("0"),
        What::MasterReceipt | What::MasterComponent | What::ServiceMaster => {
            text.push_str("a part")
        }
        What::TooMany => push_at_most(finding.number(), text),
        What::Missing { key } => text.push_str(row_words(key)),
    }
}

// Adds the words of a fault's line.
fn push_words(
    alloc: Global,
    survey: &Survey,
    finding: &Finding,
    last: u64,
    text: &mut String,
) -> Result<(), AllocError>
    ensures { OnOk result (string_bytes text.new ≡ string_bytes text.old ++ fault_line survey.now finding.now last) }
{
    push_place(survey, finding, text)?;
    push_what(survey, finding, last, text)?;
    text.push_str("; expected ")?;
    push_expected(alloc, survey, finding, text)
}

// Adds the line of a fault. The last record of a run of empty cells begins in this line of the file.
pub(crate) fn push_fault(
    alloc: Global,
    survey: &Survey,
    finding: &Finding,
    last: u64,
    lines: &mut Listing,
) -> Result<(), AllocError>
    ensures { OnOk result (listed_in lines.new ≡ with_line (listed_in lines.old) (fault_line survey.now finding.now last)) }
{
    push_words(alloc, survey, finding, last, &mut lines.text)?;
    lines.end()
}
