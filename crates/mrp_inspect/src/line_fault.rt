//! The fault that a line tells, as `mrp plan` would.

ghost use Rattle.std.specs.Prelude.{◌≡◌};
ghost use Rattle.mrp_inspect.specs.LineFaults.{blank_code, code_of, empty_code, finding_fault, first_place, missing_fault, row_at, stray_fault, table_fault, way_fault, width_of};

use crate::piece::same_table;
use crate::stray::Reason;
use mrp_rows::faults::{
    COLUMNS, DATE_OUTSIDE, HEADER, LOOP, MASTER_COMPONENT, MASTER_RECEIPT, MASTER_SAFETY,
    MISSING_SECTION, NAME, NOT_MASTER, NUMBER, REPEATED, SECTION_TWICE, SERVICE_MASTER, TOO_MANY,
    UNKNOWN_CENTRE, UNKNOWN_ITEM, UNKNOWN_SECTION, WORD,
};
use mrp_rows::{Fault, Table};
use mrp_survey::{Finding, FoundLoop, Survey, What};
use std::marker::Model;

// A fault's number, its table, and its record.
#[derive(Drop)]
pub(crate) struct LineFault {
    code: u8,
    table: Table,
    row: u128,
}

impl Model for LineFault {
    ghost use Rattle.mrp_rows.specs.declared.fault.Fault.{Fault};

    ghost Value = { Fault };

    ghost view = { λ f. record { code = f.code; table = f.table; row = f.row } };
}

impl LineFault {
    ghost use Rattle.std.specs.Prelude.{◌≡◌};
    ghost use Rattle.mrp_inspect.specs.LineFaults.{same_fault};

    // Whether this is the fault that `mrp plan` tells.
    pub(crate) fn is(&self, fault: &Fault) -> bool
        ensures { result ≡ same_fault self.now fault.now }
    {
        self.code == fault.code
            && same_table(self.table, fault.table)
            && self.row == u128::from(fault.row)
    }
}

// A fault of a table as a whole.
fn table_fault(code: u8, table: Table) -> LineFault
    ensures { result ≡ table_fault code table }
{
    LineFault {
        code,
        table,
        row: 0,
    }
}

// That of a line that begins with a bracket. Where it names no table, `mrp plan` counts section lines up to it.
pub(crate) fn stray_fault(reason: Reason) -> LineFault
    ensures { result ≡ stray_fault reason }
{
    match reason {
        Reason::NoTable { place } => LineFault {
            code: UNKNOWN_SECTION,
            table: Table::Bundle,
            row: place as u128 + 1,
        },
        Reason::OfFile(table) | Reason::Again { table, .. } => table_fault(SECTION_TWICE, table),
    }
}

// That of a table that is not there.
pub(crate) fn missing_fault(table: Table) -> LineFault
    ensures { result ≡ missing_fault table }
{
    table_fault(MISSING_SECTION, table)
}

// That of an empty cell in a table's first column.
fn empty_code(table: Table) -> u8
    ensures { result ≡ empty_code table }
{
    match table {
        Table::Calendar => WORD,
        Table::Script => NUMBER,
        _ => NAME,
    }
}

// That of a record of empty cells alone, in a table of so many columns.
fn blank_code(width: usize, finding: &Finding) -> u8
    ensures { result ≡ blank_code width finding.now }
{
    if finding.cells().count() == width {
        empty_code(finding.table())
    } else {
        COLUMNS
    }
}

fn code_of(width: usize, finding: &Finding) -> u8
    ensures { result ≡ code_of width finding.now finding.now.what }
{
    match finding.what() {
        What::Header { .. } => HEADER,
        What::Blank => blank_code(width, finding),
        What::Columns { .. } | What::Missing { .. } => COLUMNS,
        What::Cell { code, .. } => code,
        What::Repeated { .. } => REPEATED,
        What::UnknownItem => UNKNOWN_ITEM,
        What::UnknownCentre => UNKNOWN_CENTRE,
        What::DateOutside => DATE_OUTSIDE,
        What::NotMaster => NOT_MASTER,
        What::MasterSafety => MASTER_SAFETY,
        What::MasterReceipt => MASTER_RECEIPT,
        What::MasterComponent => MASTER_COMPONENT,
        What::ServiceMaster => SERVICE_MASTER,
        What::TooMany => TOO_MANY,
    }
}

fn width_of(survey: &Survey, table: Table) -> usize
    ensures { result ≡ width_of survey.now table }
{
    survey.columns(table).len()
}

// That of a record.
pub(crate) fn finding_fault(survey: &Survey, finding: &Finding) -> LineFault
    ensures { result ≡ finding_fault survey.now finding.now }
{
    LineFault {
        code: code_of(width_of(survey, finding.table()), finding),
        table: finding.table(),
        row: finding.number() as u128,
    }
}

// The number of the record at a place from 0.
fn row_at(place: Option<usize>) -> u128
    ensures { result ≡ row_at place }
{
    match place {
        Some(place) => place as u128 + 1,
        None => 0,
    }
}

// The place of the first of items that need one another, among the known ones.
fn first_place(survey: &Survey, found: &FoundLoop) -> Option<usize>
    ensures { result ≡ first_place survey.now found.now }
{
    let name = found.names().first()?;
    survey.item_place(name)
}

// That of items that need one another: that of the first of them.
pub(crate) fn way_fault(survey: &Survey, found: &FoundLoop) -> LineFault
    ensures { result ≡ way_fault survey.now found.now }
{
    LineFault {
        code: LOOP,
        table: Table::Items,
        row: row_at(first_place(survey, found)),
    }
}
