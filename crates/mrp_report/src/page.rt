//! Pages: rows of csv text in memory, and the cells, words and numbers that rows consist of.

ghost use Rattle.std.specs.Prelude.{◌≡◌, ◌+◌, ◌≤◌, [], ◌∷◌, ◌++◌, OnOk, length, map, take, vec_len};
ghost use Rattle.csv.specs.Writing.{default_writer, escaped, quoted};
ghost use Rattle.mrp_day.specs.Sections.{head_of};
ghost use Rattle.mrp_report.specs.page.CsvCells.{cell_text, next_cell};
ghost use Rattle.mrp_report.specs.page.Rows.{row};
ghost use Rattle.mrp_report.specs.Written.{Passes, Writes};

mod cells;
mod csv_name;
mod line;
mod minutes;
mod number;
mod put;
mod quoting;
mod ready;
mod word;

use crate::fault::ReportFault;
pub(crate) use cells::{Cell, put_first_number, put_text};
pub(crate) use csv_name::CsvName;
pub(crate) use line::{Line, ROOM};
pub(crate) use minutes::TimeBuffer;
use mrp_day::Section;
use mrp_qty::NoMemory;
use mrp_rows::{Told, Tries, write_text};
pub(crate) use number::put_number;
pub(crate) use put::put_byte;
pub use quoting::is_quoted_text;
pub(crate) use ready::ReadyCells;
use std::alloc::{AllocError, Global};
use std::io::Write;
use std::marker::Model;
pub(crate) use word::{Word, put_word};

// A page with at least this many bytes is handed to the writer.
const FULL: usize = 65_536;

/// Rows of csv text; contracts see it as the text.
///
/// The memory of a page is used again once its text was handed over: what is after the end is no
/// part of the text.
#[derive(Drop)]
pub struct Page {
    bytes: Vec<u8>,
    end: usize,
}

impl Model for Page {
    ghost use Rattle.std.specs.Prelude.{List, ℕ, ◌≤◌, take, vec_len};

    ghost Value = { List ℕ };

    ghost view = { λ p. take p.end p.bytes.items };

    ghost invariant = { λ p. p.end ≤ vec_len p.bytes };
}

// Makes room for a line after the end.
#[inline(always)]
fn make_room(bytes: &mut Vec<u8>, end: usize) -> Result<(), AllocError>
    requires { end ≤ vec_len bytes.old }
    ensures same { take end bytes.new.items ≡ take end bytes.old.items }
    ensures within { end ≤ vec_len bytes.new }
    ensures room { OnOk result (end + ROOM ≤ vec_len bytes.new) }
{
    if bytes.len() - end < ROOM {
        grow(bytes)?;
    }
    Ok(())
}

#[inline(never)]
fn grow(bytes: &mut Vec<u8>) -> Result<(), AllocError>
    ensures same { take (vec_len bytes.old) bytes.new.items ≡ bytes.old.items }
    ensures within { vec_len bytes.old ≤ vec_len bytes.new }
    ensures room { OnOk result (vec_len bytes.new ≡ vec_len bytes.old + ROOM) }
{
    bytes.extend_from_slice(&[0; ROOM])
}

impl Page {
    /// A page without text.
    pub fn new(alloc: Global) -> Page
        ensures { result ≡ [] }
    {
        Page {
            bytes: Vec::new(alloc),
            end: 0,
        }
    }

    // Adds a text.
    fn add(&mut self, text: &[u8]) -> Result<(), NoMemory>
        ensures { OnOk result (self.new ≡ self.old ++ text.now) }
    {
        self.bytes.truncate(self.end);
        self.bytes.extend_from_slice(text)?;
        self.end = self.bytes.len();
        Ok(())
    }

    // Adds a byte that stands between quotes.
    fn add_escaped(&mut self, byte: u8) -> Result<(), NoMemory>
        ensures { OnOk result (self.new ≡ self.old ++ escaped default_writer (byte ∷ [])) }
    {
        if byte == b'"' {
            self.add(&[byte, byte])
        } else {
            self.add(&[byte])
        }
    }

    // Adds a text between quotes.
    fn add_quoted(&mut self, cell: &[u8]) -> Result<(), NoMemory>
        ensures { OnOk result (self.new ≡ self.old ++ quoted default_writer cell.now) }
    {
        self.add(b"\"")?;
        for byte in cell {
            self.add_escaped(*byte)?;
        }
        self.add(b"\"")
    }

    // Adds the first cell of a row.
    fn add_cell(&mut self, cell: &[u8]) -> Result<(), NoMemory>
        ensures { OnOk result (self.new ≡ self.old ++ cell_text cell.now) }
    {
        if is_quoted_text(cell) {
            self.add_quoted(cell)
        } else {
            self.add(cell)
        }
    }

    // Adds a cell after others.
    fn add_next(&mut self, cell: &[u8]) -> Result<(), NoMemory>
        ensures { OnOk result (self.new ≡ self.old ++ next_cell cell.now) }
    {
        self.add(b",")?;
        self.add_cell(cell)
    }

    /// Adds a line.
    ///
    /// Errors: `NoMemory` if an allocation fails.
    pub(crate) fn line<L: Line>(&mut self, line: &L) -> Result<(), NoMemory>
        ensures { OnOk result (self.new ≡ self.old ++ L.csv line.now) }
    {
        make_room(&mut self.bytes, self.end)?;
        self.end = line.put(self.bytes.as_mut_slice(), self.end);
        Ok(())
    }

    /// Adds a row of at least two cells: csv writes a row of one empty cell differently.
    ///
    /// Errors: `NoMemory` if an allocation fails.
    pub fn row(&mut self, cells: &[&[u8]]) -> Result<(), NoMemory>
        requires { 2 ≤ length cells.now }
        ensures { OnOk result (self.new ≡ self.old ++ row (map (λ cell. cell.now) cells.now)) }
    {
        self.add_cell(cells[0])?;
        for place in 1..cells.len() {
            self.add_next(cells[place])?;
        }
        self.add(b"\n")
    }

    /// Adds what a section of a day begins with: its line and its header.
    ///
    /// Errors: `NoMemory` if an allocation fails.
    pub(crate) fn begin(&mut self, section: Section) -> Result<(), NoMemory>
        ensures { OnOk result (self.new ≡ self.old ++ head_of section) }
    {
        self.add(section.head().as_bytes())
    }

    /// Whether the page has enough text for a call of the writer. It may be handed over at any
    /// time.
    pub(crate) fn is_full(&self) -> bool {
        self.end >= FULL
    }

    /// The text.
    pub fn text(&self) -> &[u8]
        ensures { result.now ≡ self.now }
    {
        &self.bytes[..self.end]
    }

    /// Removes the text, and keeps the memory.
    pub fn clear(&mut self)
        ensures { self.new ≡ [] }
    {
        self.end = 0;
    }

    // Makes room for so many bytes, if there is less.
    pub(crate) fn reserve(&mut self, bytes: usize) -> Result<(), NoMemory>
        ensures { self.new ≡ self.old }
    {
        self.bytes.reserve(bytes.saturating_sub(self.bytes.len()))?;
        Ok(())
    }

    /// Writes the text, and leaves it on the page.
    ///
    /// Errors: `Write` if a write failed in this call, or was interrupted with no try left. A
    /// prefix of the text has been written then.
    pub(crate) fn write<W: Write>(
        &self,
        writer: &mut Told<W>,
        tries: &mut Tries,
    ) -> Result<(), ReportFault>
        ensures { Writes W.contents writer.old writer.new self.now tries.old tries.new result }
    {
        write_text(writer, self.text(), tries)?;
        Ok(())
    }

    /// Writes the text, and empties the page. Its memory is kept.
    ///
    /// Errors: `Write` if a write failed in this call, or was interrupted with no try left. A
    /// prefix of the text has been written then.
    pub(crate) fn hand_over<W: Write>(
        &mut self,
        writer: &mut Told<W>,
        tries: &mut Tries,
    ) -> Result<(), ReportFault>
        ensures written { Writes W.contents writer.old writer.new self.old tries.old tries.new result }
        ensures empty { OnOk result (self.new ≡ []) }
    {
        self.write(writer, tries)?;
        self.clear();
        Ok(())
    }

    // Hands the page over if it is full.
    pub(crate) fn pass_on<W: Write>(
        &mut self,
        writer: &mut Told<W>,
        tries: &mut Tries,
    ) -> Result<(), ReportFault>
        ensures { Passes W.contents writer.old writer.new self.old self.new tries.old tries.new result }
    {
        if self.is_full() {
            self.hand_over(writer, tries)
        } else {
            Ok(())
        }
    }
}
