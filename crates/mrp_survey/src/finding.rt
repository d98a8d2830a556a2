//! One fault, and where it is.

ghost use Rattle.std.specs.Prelude.{◌≡◌, ◌++◌, ◌∷◌, [], OnOk};
ghost use Rattle.mrp_survey.specs.Told.{told};

use crate::form::cell_in;
use crate::front::Front;
use crate::kind::{Kind, Words};
use mrp_qty::NoMemory;
use mrp_rows::{Record, Table};
use std::marker::Model;

/// What is wrong.
#[derive(Clone, Copy)]
pub enum What {
    /// The table's first record is not its header, or there is none; with what the text begins as.
    Header { front: Front },
    /// All cells of the record are empty.
    Blank,
    /// The record has this many cells, another count than the table has columns.
    Columns { count: usize },
    /// The cell is not of its kind; with the fault's number, `NAME` to `RANGE`.
    Cell { kind: Kind, code: u8 },
    /// What each record has to itself is that of an earlier record, in this line.
    Repeated { line: u64 },
    /// No item has the name.
    UnknownItem,
    /// No work centre has the name.
    UnknownCentre,
    /// The date is outside the horizon.
    DateOutside,
    /// The item is a part, and has to be a master item.
    NotMaster,
    /// A master item has safety stock.
    MasterSafety,
    /// An open receipt is of a master item.
    MasterReceipt,
    /// A bill line's component is a master item.
    MasterComponent,
    /// A service row is of a master item.
    ServiceMaster,
    /// The record is past its table's limit, which is one less than its number; no later one is read.
    TooMany,
    /// The calendar's record with this key is missing.
    Missing { key: Words },
}

// A record, and its line in its file.
#[derive(Clone, Copy)]
pub(crate) struct Place {
    pub(crate) file: Table,
    pub(crate) table: Table,
    pub(crate) number: usize,
    pub(crate) line: u64,
}

// What a finding tells.
#[derive(Drop)]
struct Held {
    file: Table,
    table: Table,
    number: usize,
    line: u64,
    column: usize,
    what: What,
    row: Record,
}

/// One fault.
#[derive(Drop)]
pub struct Finding {
    // In memory of its own, so that many findings are soon put behind others.
    held: Box<Held>,
}

impl Model for Finding {
    ghost use Rattle.mrp_survey.specs.Finding.{Told};

    ghost Value = { Told };

    ghost view = { λ f. record {
      file = f.held.value.file;
      table = f.held.value.table;
      number = f.held.value.number;
      line = f.held.value.line;
      column = f.held.value.column;
      what = f.held.value.what;
      cells = f.held.value.row;
    } };
}

impl Finding {
    ghost use Rattle.std.specs.Prelude.{◌≡◌};
    ghost use Rattle.mrp_survey.specs.Forms.{cell_in};

    /// The table whose file it is in.
    pub fn file(&self) -> Table
        ensures { result ≡ self.now.file }
    {
        self.held.file
    }

    /// The table that it is of.
    pub fn table(&self) -> Table
        ensures { result ≡ self.now.table }
    {
        self.held.table
    }

    /// The record's number, from 1; 0 for the header.
    pub fn number(&self) -> usize
        ensures { result ≡ self.now.number }
    {
        self.held.number
    }

    /// The line of the file in which the record begins, from 1: 1 of a table without a header, 0 of a record that is missing.
    pub fn line(&self) -> u64
        ensures { result ≡ self.now.line }
    {
        self.held.line
    }

    /// The column, from 0. Of a wrong count of cells, that of the last cell.
    pub fn column(&self) -> usize
        ensures { result ≡ self.now.column }
    {
        self.held.column
    }

    /// What is wrong.
    pub fn what(&self) -> What
        ensures { result ≡ self.now.what }
    {
        self.held.what
    }

    /// The record's cells: of a header the first `HEADER_CELLS`, of another record as many as its table has columns; none of a
    /// record that is missing.
    pub fn cells(&self) -> &Record
        ensures { result.now ≡ self.now.cells }
    {
        &self.held.row
    }

    /// The cell in that column.
    pub fn text(&self) -> &[u8]
        ensures { result.now ≡ cell_in self.now.cells self.now.column }
    {
        cell_in(&self.held.row, self.held.column)
    }
}

// Appends a fault of a record's cell.
pub(crate) fn tell(
    place: Place,
    row: &Record,
    column: usize,
    what: What,
    findings: &mut Vec<Finding>,
) -> Result<(), NoMemory>
    ensures { OnOk result (findings.new.items ≡ findings.old.items ++ told place row.now column what ∷ []) }
{
    let alloc = *findings.allocator();
    let row = row.clone()?;
    let held = Box::new(
        alloc,
        Held {
            file: place.file,
            table: place.table,
            number: place.number,
            line: place.line,
            column,
            what,
            row,
        },
    )?;
    findings.push(Finding { held })?;
    Ok(())
}
