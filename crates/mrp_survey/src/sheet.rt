//! A table's text as its records, with their lines.

use crate::finding::Place;
use crate::form::Form;
use crate::front::{Front, front_of};
use crate::header::{HEADER_CELLS, can_be_read, columns};
use crate::lines::record_lines;
use crate::rows::all_rows;
use mrp_qty::NoMemory;
use mrp_rows::{Record, Records, Table};
use std::alloc::Global;
use std::marker::Model;

// A table's text, what it begins as, and the line of each of its records in the file that it is in, the header's first. Contracts
// see its records.
#[derive(Drop)]
pub(crate) struct Sheet<'a> {
    file: Table,
    front: Front,
    text: &'a [u8],
    lines: Vec<u64>,
}

impl<'a> Model for Sheet<'a> {
    ghost use Rattle.mrp_rows.specs.Records.{records_of};
    ghost use Rattle.mrp_survey.specs.Records.{Records};

    ghost Value = { Records };

    ghost view = { λ s. record { file = s.file; front = s.front; rows = records_of s.text.now; lines = s.lines.items } };
}

impl<'a> Sheet<'a> {
    ghost use Rattle.std.specs.Prelude.{◌≡◌, ◌≤◌, ◌^◌, IfOk, map, option_map, slice_index};
    ghost use Rattle.mrp_survey.specs.Records.{place_of, records_from, rows_below};
    ghost use Rattle.mrp_survey.specs.Headers.{header_of, header_shown};
    ghost use Rattle.mrp_survey.specs.Tables.{row_shown};

    // The records of a text that begins in this line of a file.
    pub(crate) fn of(
        alloc: Global,
        file: Table,
        line: u64,
        text: &'a [u8],
    ) -> Result<Sheet<'a>, NoMemory>
        requires { line ≤ 2 ^ 63 }
        ensures { IfOk result (λ sheet. sheet ≡ records_from file line text.now) }
    {
        let lines = record_lines(alloc, text, line)?;
        Ok(Sheet {
            file,
            front: front_of(text),
            text,
            lines,
        })
    }

    // The table whose file they are in.
    pub(crate) fn file(&self) -> Table
        ensures { result ≡ self.now.file }
    {
        self.file
    }

    // What their text begins as.
    pub(crate) fn front(&self) -> Front
        ensures { result ≡ self.now.front }
    {
        self.front
    }

    // The first record.
    pub(crate) fn header(&self, alloc: Global) -> Result<Option<Record>, NoMemory>
        ensures { IfOk result (λ header. header ≡ option_map header_shown (header_of self.now.rows)) }
    {
        let mut records = Records::of(self.text);
        let mut row = Record::new(alloc);
        if records.next(HEADER_CELLS, &mut row)? {
            Ok(Some(row))
        } else {
            Ok(None)
        }
    }

    // The records below the header, if that can be read.
    pub(crate) fn rows_below(
        &self,
        alloc: Global,
        form: Form,
    ) -> Result<Option<Records<'a>>, NoMemory>
        ensures { IfOk result (λ below. below ≡ rows_below form self.now) }
    {
        let mut records = Records::of(self.text);
        let mut header = Record::new(alloc);
        if records.next(HEADER_CELLS, &mut header)? && can_be_read(form, &header) {
            Ok(Some(records))
        } else {
            Ok(None)
        }
    }

    // The records below the header, if that can be read.
    pub(crate) fn all_below(
        &self,
        alloc: Global,
        form: Form,
    ) -> Result<Option<Vec<Record>>, NoMemory>
        ensures { IfOk result (λ below. option_map (λ rows. rows.items) below ≡ option_map (map (row_shown form)) (rows_below form self.now)) }
    {
        let Some(mut records) = self.rows_below(alloc, form)? else {
            return Ok(None);
        };
        let rows = all_rows(alloc, columns(form).len(), &mut records)?;
        Ok(Some(rows))
    }

    // The line in which a record begins, by its number, the header's 0.
    pub(crate) fn line(&self, number: usize) -> u64
        ensures { result ≡ slice_index self.now.lines number }
    {
        self.lines.get(number).copied().unwrap_or(0)
    }

    // The number of a record behind the middle: to pass over the records in front takes about an eighth of what reading them takes.
    pub(crate) fn middle(&self) -> usize
        ensures { 1 ≤ result }
    {
        1 + self.lines.len() / 32 * 17
    }

    // Where a record is.
    pub(crate) fn place(&self, table: Table, number: usize) -> Place
        ensures { result ≡ place_of self.now table number }
    {
        Place {
            file: self.file,
            table,
            number,
            line: self.line(number),
        }
    }
}
