//! The records of any text, one by one.

ghost use Rattle.csv.specs.declared.parser.State.TheVariants as st;

use crate::bundle::{after_line_ends, after_mark};
use crate::cutting::cut_record;
use crate::record::Record;
use mrp_qty::NoMemory;
use std::marker::Model;

/// The records of a text that are not read yet. Contracts see their cells.
#[derive(Drop)]
pub struct Records<'a> {
    text: &'a [u8],
}

impl<'a> Model for Records<'a> {
    ghost use Rattle.std.specs.Prelude.{ℕ, List, []};
    ghost use Rattle.csv.specs.declared.parser.State.TheVariants as st;
    ghost use Rattle.mrp_rows.specs.Records.{records_in};

    ghost Value = { List (List (List ℕ)) };

    ghost view = { λ r. records_in st.StartRecord [] [] r.text.now };
}

impl<'a> Records<'a> {
    ghost use Rattle.std.specs.Prelude.{◌≡◌};
    ghost use Rattle.mrp_rows.specs.Records.{records_of};
    ghost use Rattle.mrp_rows.specs.Unread.{ReadsInto};

    /// The records of a text, the header first, as csv reads them, of any count of cells. A byte order mark
    /// in front is not part of them.
    pub fn of(text: &'a [u8]) -> Records<'a>
        ensures { result ≡ records_of text.now }
    {
        Records {
            text: after_mark(text),
        }
    }

    /// Reads the next record, with its first cells, so many at most, and returns whether there was one; if
    /// not, the record that was read into stays. Its memory is reused.
    ///
    /// Errors: `NoMemory` if an allocation fails. The record is then still to be read.
    pub fn next(&mut self, most: usize, row: &mut Record) -> Result<bool, NoMemory>
        ensures { ReadsInto self.old most row.old result row.new self.new }
    {
        let text = after_line_ends(self.text);
        if text.is_empty() {
            return Ok(false);
        }
        self.text = row.read(text, most)?;
        Ok(true)
    }
}
