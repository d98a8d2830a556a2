//! The cells of a record.

ghost use Rattle.std.specs.Prelude.{◌≡◌, [], All, IfOk, List, false, true, length, slice_index_or, ℕ};
ghost use Rattle.std.specs.List.{list_any};
ghost use Rattle.csv.specs.Records.{fields_of};
ghost use Rattle.mrp_rows.specs.Bundle.{ends_line};
ghost use Rattle.mrp_lines.specs.Lines.{have_ends, is_line};

use crate::line::LONGEST_LINE;
use csv::ByteRecord;
use memchr::memchr2;
use mrp_qty::NoMemory;
use std::alloc::Global;

/// A record of csv.
pub trait Cells {
    // The bytes of its cells, in order.
    ghost cells: { Self → List (List ℕ) };

    /// How many cells it has.
    fn len(&self) -> usize
        ensures { result ≡ length (cells self.now) };

    /// The bytes of a cell, counted from 0; empty if the record has no such cell.
    fn cell(&self, column: usize) -> &[u8]
        ensures { result.now ≡ slice_index_or (cells self.now) column [] };

    /// Whether its cells stand in one line, of at most [`LONGEST_LINE`] bytes.
    fn is_line(&self) -> bool
        ensures { result ≡ is_line (cells self.now) };

    /// A copy of its cells.
    ///
    /// Errors: `NoMemory` if an allocation fails.
    fn to_record(&self, alloc: Global) -> Result<ByteRecord, NoMemory>
        ensures { IfOk result (λ copy. fields_of copy ≡ cells self.now) };
}

// Whether a cell has the end of a line.
fn has_end(cell: &[u8]) -> bool
    ensures { result ≡ list_any ends_line cell.now }
{
    cell.iter().any(|byte| *byte == b'\n' || *byte == b'\r')
}

// Whether no byte ends a line.
fn are_unended(bytes: &[u8]) -> bool
    ensures { result ≡ true → All (λ byte. ends_line byte ≡ false) bytes.now }
{
    memchr2(b'\n', b'\r', bytes).is_none()
}

// Whether some cell of a record may have the end of a line: whether its whole text has one.
fn may_have_ends(row: &ByteRecord) -> bool
    ensures { result ≡ false → have_ends (fields_of row.now) ≡ false }
{
    !are_unended(row.as_slice())
}

// Whether a cell has the end of a line, if some cell may have one.
fn has_end_if(may: bool, cell: &[u8]) -> bool
    requires { may ≡ false → list_any ends_line cell.now ≡ false }
    ensures { result ≡ list_any ends_line cell.now }
{
    may && has_end(cell)
}

// Whether the cells of a record stand in one line, which is not too long.
fn is_row_line(row: &ByteRecord) -> bool
    ensures { result ≡ is_line (fields_of row.now) }
{
    let may = may_have_ends(row);
    let mut room = LONGEST_LINE;
    for column in 0..row.len() {
        let cell = Cells::cell(row, column);
        if has_end_if(may, cell) || room <= cell.len() {
            return false;
        }
        room -= cell.len() + 1;
    }
    true
}

impl Cells for ByteRecord {
    ghost use Rattle.csv.specs.Records.{fields_of};

    ghost cells = { λ row. fields_of row };

    fn len(&self) -> usize {
        ByteRecord::len(self)
    }

    fn cell(&self, column: usize) -> &[u8] {
        self.get(column).unwrap_or(b"")
    }

    fn is_line(&self) -> bool {
        is_row_line(self)
    }

    fn to_record(&self, _alloc: Global) -> Result<ByteRecord, NoMemory> {
        let copy = self.clone()?;
        Ok(copy)
    }
}
