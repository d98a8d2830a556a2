//! Names as cells, each with whether it is written between quotes.

ghost use Rattle.std.specs.Prelude.{◌≡◌, ◌+◌, ◌≤◌, length};
ghost use Rattle.mrp_report.specs.page.CsvCells.{cell_text, next_cell};
ghost use Rattle.mrp_report.specs.page.Put.{IsPut};

use crate::page::put::{put_all, put_byte, put_front};
use crate::page::quoting::{is_quoted_text, put_quoted};
use mrp_rows::Name;
use std::marker::Model;

// A name of at most 32 bytes; contracts see it as its text. Whether it needs quotes is determined
// once, when it is made, not for each row.
#[derive(Drop)]
pub(crate) struct CsvName {
    bytes: [u8; 32],
    len: u8,
    is_quoted: bool,
}

impl Model for CsvName {
    ghost use Rattle.std.specs.Prelude.{List, ℕ, ◌≡◌, ◌≤◌, take};
    ghost use Rattle.csv.specs.Writing.{default_writer, needs_quotes};

    ghost Value = { List ℕ };

    ghost view = { λ n. take n.len n.bytes };

    ghost invariant = { λ n. record {
      short : n.len ≤ 32;
      quoted : n.is_quoted ≡ needs_quotes default_writer (take n.len n.bytes);
    } };
}

impl CsvName {
    // A text of at most 32 bytes.
    pub(crate) fn new(text: &[u8]) -> CsvName
        requires { length text.now ≤ 32 }
        ensures { result ≡ text.now }
    {
        let mut bytes = [0; 32];
        let end = put_all(&mut bytes, 0, text);
        CsvName {
            bytes,
            len: end as u8,
            is_quoted: is_quoted_text(text),
        }
    }

    pub(crate) fn of(name: &Name) -> CsvName
        ensures { result ≡ name.now }
    {
        CsvName::new(name.as_bytes())
    }

    fn as_bytes(&self) -> &[u8]
        ensures text { result.now ≡ self.now }
        ensures short { length result.now ≤ 32 }
    {
        let (text, _) = self.bytes.split_at(usize::from(self.len));
        text
    }

    // Puts the name as the first cell of a row.
    #[inline(always)]
    pub(crate) fn put_first(&self, text: &mut [u8], at: usize) -> usize
        requires { at + 66 ≤ length text.old }
        ensures put { IsPut text.old text.new at (cell_text self.now) result }
        ensures near { result ≤ at + 66 }
    {
        if self.is_quoted {
            put_quoted(text, at, self.as_bytes())
        } else {
            put_front::<32>(text, at, &self.bytes, usize::from(self.len))
        }
    }

    // Puts the name after other cells.
    #[inline(always)]
    pub(crate) fn put_next(&self, text: &mut [u8], at: usize) -> usize
        requires { at + 67 ≤ length text.old }
        ensures put { IsPut text.old text.new at (next_cell self.now) result }
        ensures near { result ≤ at + 67 }
    {
        let next = put_byte(text, at, b',');
        self.put_first(text, next)
    }
}
