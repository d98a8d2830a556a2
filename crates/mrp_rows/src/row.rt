//! A table's records and their cells.

ghost use Rattle.std.specs.Prelude.{◌≡◌, ◌<◌, length, map, nat_eq, position, IfOk, true};
ghost use Rattle.mrp_cal.specs.DateText.{IsPlanningYear};
ghost use Rattle.std.specs.Cmp.Lexicographic.{pointwise};
ghost use Rattle.std.specs.Int.{IsInRange};
ghost use Rattle.mrp_rows.specs.Cell.{blame, cell_at, date_cell, fault_at, name_of, number_cell, word_of};
ghost use Rattle.mrp_rows.specs.Name.{is_name};

use crate::cell_texts::CellTexts;
use crate::fault::{Fault, Table};
use crate::faults::{DATE, NAME, NUMBER, RANGE, WORD};
use crate::name::Name;
use jiff::civil::Date;
use mrp_cal::read_date;
use mrp_qty::{NumberFault, read_number};
use std::marker::Model;

/// A record of a table, with its number: records after the header are counted from 1.
///
/// Its cells are slices of the record's own text, so reading them does not allocate.
#[derive(Drop)]
pub struct Row {
    table: Table,
    number: u32,
    cells: CellTexts,
}

impl Model for Row {
    ghost use Rattle.mrp_rows.specs.Left.{Cells};

    ghost Value = { Cells };

    ghost view = { λ r. record { table = r.table; number = r.number; cells = r.cells.cells } };
}

impl Row {
    pub(crate) fn new(table: Table, number: u32, cells: CellTexts) -> Row
        ensures { result ≡ record { table = table; number = number; cells = cells.cells } }
    {
        Row {
            table,
            number,
            cells,
        }
    }

    // Its cells.
    pub(crate) fn into_cells(self) -> CellTexts
        ensures { result.cells ≡ self.cells }
    {
        self.cells
    }

    /// Its table.
    pub fn table(&self) -> Table
        ensures { result ≡ self.now.table }
    {
        self.table
    }

    /// Its number in the table.
    pub fn record(&self) -> u32
        ensures { result ≡ self.now.number }
    {
        self.number
    }

    /// A refusal of this record, with a fault's number.
    pub fn fault(&self, code: u8) -> Fault
        ensures { result ≡ fault_at self.now code }
    {
        Fault {
            code,
            table: self.table,
            row: self.number,
        }
    }

    /// How many cells it has.
    pub fn cell_count(&self) -> usize
        ensures { result ≡ length self.now.cells }
    {
        self.cells.len()
    }

    /// The bytes of a cell. Columns are counted from 0; the record must have the column.
    pub fn cell(&self, column: usize) -> &[u8]
        requires { column < length self.now.cells }
        ensures { result.now ≡ cell_at self.now column }
    {
        self.cells.get(column)
    }

    /// A cell as a name.
    ///
    /// Errors: `NAME` if it is not a name.
    pub fn name(&self, column: usize) -> Result<Name, Fault>
        requires { column < length self.now.cells }
        ensures cell { result ≡ blame self.now (name_of (cell_at self.now column)) }
        ensures name { IfOk result (λ name. is_name name ≡ true) }
    {
        match Name::new(self.cell(column)) {
            Some(name) => Ok(name),
            None => Err(self.fault(NAME)),
        }
    }

    /// A cell as a number from `least` to `most`; leading zeros are accepted.
    ///
    /// Errors: `NUMBER` if it is empty or has a byte that is not a digit; `RANGE` if the number is
    /// outside the limits.
    pub fn number(&self, column: usize, least: u64, most: u64) -> Result<u64, Fault>
        requires { column < length self.now.cells }
        ensures number { result
            ≡ blame self.now (number_cell least most (cell_at self.now column)) }
        ensures within { IfOk result (IsInRange least most) }
    {
        match read_number(self.cell(column), most) {
            Ok(value) => {
                if value >= least {
                    Ok(value)
                } else {
                    Err(self.fault(RANGE))
                }
            }
            Err(NumberFault::TooLarge) => Err(self.fault(RANGE)),
            Err(NumberFault::Empty) => Err(self.fault(NUMBER)),
            Err(NumberFault::NotDigits) => Err(self.fault(NUMBER)),
        }
    }

    /// A cell as a date, `YYYY-MM-DD` in the years 1900 to 2999.
    ///
    /// Errors: `DATE` if it is not a date.
    pub fn date(&self, column: usize) -> Result<Date, Fault>
        requires { column < length self.now.cells }
        ensures date { result ≡ blame self.now (date_cell (cell_at self.now column)) }
        ensures year { IfOk result (λ d. IsPlanningYear d.year) }
    {
        match read_date(self.cell(column)) {
            Some(date) => Ok(date),
            None => Err(self.fault(DATE)),
        }
    }

    /// A cell as one of these words: its place among them, from 0.
    ///
    /// Errors: `WORD` if it is not one of them.
    #[tactic(auto, using(crate::proofs::WordPlaces::position_map))]
    pub fn word(&self, column: usize, words: &[&str]) -> Result<usize, Fault>
        requires { column < length self.now.cells }
        ensures { result
            ≡ blame self.now (word_of (map (λ w. w.now) words.now) (cell_at self.now column)) }
    {
        match place_of(self.cell(column), words) {
            Some(place) => Ok(place),
            None => Err(self.fault(WORD)),
        }
    }
}

// The place of a text among words.
fn place_of(text: &[u8], words: &[&str]) -> Option<usize>
    ensures { result ≡ position (λ w. pointwise nat_eq text.now w.now) words.now }
{
    words.iter().position(|word| text == word.as_bytes())
}
