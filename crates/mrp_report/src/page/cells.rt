//! Cells of a row, each but the first with the comma before it.

ghost use Rattle.std.specs.Prelude.{◌+◌, ◌*◌, ◌≤◌, decimal, length};
ghost use Rattle.mrp_report.specs.page.CellOf.{cell_of};
ghost use Rattle.mrp_report.specs.page.CsvCells.{cell_text, next_cell};
ghost use Rattle.mrp_report.specs.page.Put.{IsPut};

use crate::page::csv_name::CsvName;
use crate::page::number::put_number;
use crate::page::put::{put_all, put_byte};
use crate::page::quoting::{is_quoted_text, put_quoted};
use itoa::Buffer;

// A cell that may be empty, a number or a name, depending on the row.
#[derive(Clone, Copy)]
pub(crate) enum Cell<'a> {
    Empty,
    Number(u64),
    Name(&'a CsvName),
}

impl Cell<'_> {
    // Puts the cell after others.
    #[inline(always)]
    pub(crate) fn put(self, text: &mut [u8], at: usize) -> usize
        requires { at + 67 ≤ length text.old }
        ensures put { IsPut text.old text.new at (next_cell (cell_of self.entry)) result }
        ensures near { result ≤ at + 67 }
    {
        match self {
            Cell::Empty => put_byte(text, at, b','),
            Cell::Number(number) => put_number(text, at, number),
            Cell::Name(name) => name.put_next(text, at),
        }
    }
}

// Puts a cell of any text.
pub(crate) fn put_text(text: &mut [u8], at: usize, cell: &[u8]) -> usize
    requires { at + (3 + 2 * length cell.now) ≤ length text.old }
    ensures put { IsPut text.old text.new at (next_cell cell.now) result }
    ensures near { result ≤ at + (3 + 2 * length cell.now) }
{
    let next = put_byte(text, at, b',');
    if is_quoted_text(cell) {
        put_quoted(text, next, cell)
    } else {
        put_all(text, next, cell)
    }
}

// Puts a number as the first cell of a row.
pub(crate) fn put_first_number(text: &mut [u8], at: usize, number: u64) -> usize
    requires { at + 20 ≤ length text.old }
    ensures put { IsPut text.old text.new at (cell_text (decimal number)) result }
    ensures near { result ≤ at + 20 }
{
    let mut buffer = Buffer::new();
    put_all(text, at, buffer.format(number).as_bytes())
}
