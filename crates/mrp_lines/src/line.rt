//! Lines without quotes.

ghost use Rattle.std.specs.Prelude.{◌≡◌, [], IfOk, map, slice_index_or, take};
ghost use Rattle.mrp_lines.specs.Lines.{IsLineAt, cells_of};

use crate::cells::Cells;
use crate::commas::count_commas;
use csv::ByteRecord;
use mrp_qty::NoMemory;
use std::alloc::{AllocError, Global};
use std::marker::Model;

/// The most bytes of a line of a day, its line feed included and quotes left out. No plan has a longer one: its
/// cells are names of at most 32 bytes, words and numbers.
pub const LONGEST_LINE: usize = 1_000;

/// A line without its line feed, whose cells are cut only when asked for; contracts see it as its bytes.
#[derive(Drop)]
pub struct Line<'a> {
    // The line, and what follows it.
    text: &'a [u8],
    len: usize,
}

impl<'a> Model for Line<'a> {
    ghost use Rattle.std.specs.Prelude.{List, take, ℕ};
    ghost use Rattle.mrp_lines.specs.Lines.{IsLineAt};

    ghost Value = { List ℕ };

    ghost view = { λ line. take line.len line.text.now };

    ghost invariant = { λ line. IsLineAt line.len line.text.now };
}

impl<'a> Line<'a> {
    // The line of this many bytes that a text begins with.
    pub(crate) fn of(text: &'a [u8], len: usize) -> Line<'a>
        requires { IsLineAt len text.now }
        ensures { result ≡ take len text.now }
    {
        Line { text, len }
    }

    // Its bytes.
    fn bytes(&self) -> &'a [u8]
        ensures { result.now ≡ self.now }
    {
        &self.text[..self.len]
    }
}

// A cell of a line, counted from 0; empty if the line has no such cell.
fn nth_cell(line: &[u8], column: usize) -> &[u8]
    ensures { result.now ≡ slice_index_or (cells_of line.now) column [] }
{
    match line.split(|byte| *byte == b',').nth(column) {
        Some(cell) => cell,
        None => b"",
    }
}

// All cells of a line.
fn all_cells(alloc: Global, line: &[u8]) -> Result<Vec<&[u8]>, AllocError>
    ensures { IfOk result (λ cells. map (λ cell. cell.now) cells.items ≡ cells_of line.now) }
{
    line.split(|byte| *byte == b',').collect(alloc)
}

impl<'a> Cells for Line<'a> {
    ghost use Rattle.mrp_lines.specs.Lines.{cells_of};

    ghost cells = { λ line. cells_of line };

    fn len(&self) -> usize {
        count_commas(self.text, self.len) + 1
    }

    fn cell(&self, column: usize) -> &[u8] {
        let bytes = self.bytes();
        nth_cell(bytes, column)
    }

    fn is_line(&self) -> bool {
        self.len < LONGEST_LINE
    }

    fn to_record(&self, alloc: Global) -> Result<ByteRecord, NoMemory> {
        let bytes = self.bytes();
        let cells = all_cells(alloc, bytes)?;
        let copy = ByteRecord::from_fields(alloc, cells.as_slice())?;
        Ok(copy)
    }
}
