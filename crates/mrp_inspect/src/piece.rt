//! The pieces of a folder's files: what stands at a file's front, and behind each line that begins with `[`.

ghost use Rattle.std.specs.Prelude.{◌≡◌, option_map};
ghost use Rattle.std.specs.List.{prefix_len};
ghost use Rattle.mrp_rows.specs.Bundle.{ends_line, table_of};
ghost use Rattle.mrp_inspect.specs.Pieces.{same_table, table_begun};

use crate::lines::Counter;
use mrp_rows::{Table, is_line_end};
use mrp_survey::Source;
use std::marker::Model;

// A piece of a file.
#[derive(Drop)]
pub(crate) struct Piece<'a> {
    // The line that begins it, without its end; none at the file's front.
    pub(crate) head: Option<&'a [u8]>,
    // The number of that line.
    pub(crate) line: u64,
    // The table that it begins.
    pub(crate) begins: Option<Table>,
    // That table's text.
    pub(crate) source: Source<'a>,
}

impl<'a> Model for Piece<'a> {
    ghost use Rattle.std.specs.Prelude.{option_map};
    ghost use Rattle.mrp_inspect.specs.Pieces.{FilePiece};

    ghost Value = { FilePiece };

    ghost view = { λ p. record {
      file = p.source.file;
      head = option_map (λ line. line.now) p.head;
      line = p.line;
      begins = p.begins;
      text = p.source.text.now;
      text_line = p.source.line;
    } };
}

// The table that a line names.
fn table_named(line: &[u8]) -> Option<Table>
    ensures { result ≡ table_of line.now }
{
    if line == b"[calendar]".as_slice() {
        Some(Table::Calendar)
    } else if line == b"[items]".as_slice() {
        Some(Table::Items)
    } else if line == b"[centres]".as_slice() {
        Some(Table::Centres)
    } else if line == b"[stock]".as_slice() {
        Some(Table::Stock)
    } else if line == b"[receipts]".as_slice() {
        Some(Table::Receipts)
    } else if line == b"[bills]".as_slice() {
        Some(Table::Bills)
    } else if line == b"[routings]".as_slice() {
        Some(Table::Routings)
    } else if line == b"[master]".as_slice() {
        Some(Table::Master)
    } else if line == b"[script]".as_slice() {
        Some(Table::Script)
    } else {
        None
    }
}

// The table that is begun by a line, or by a file itself.
fn table_begun(file: Table, head: Option<&[u8]>) -> Option<Table>
    ensures { result ≡ table_begun file (option_map (λ line. line.now) head.entry) }
{
    match head {
        Some(line) => table_named(line),
        None => Some(file),
    }
}

// How many line ends a text begins with.
fn line_ends_len(text: &[u8]) -> usize
    ensures { result ≡ prefix_len ends_line text.now }
{
    text.iter().take_while(|byte| is_line_end(**byte)).count()
}

pub(crate) fn same_table(a: Table, b: Table) -> bool
    ensures { result ≡ same_table a b }
{
    a.index() == b.index()
}

impl<'a> Piece<'a> {
    ghost use Rattle.std.specs.Prelude.{◌≡◌, ◌+◌, ◌≤◌, ◌^◌, length, option_map};
    ghost use Rattle.mrp_inspect.specs.Pieces.{begins, is_own, piece_from};

    // The piece that begins here, by a line or as the file's front, with what follows below.
    pub(crate) fn from(
        file: Table,
        here: Counter,
        below: Counter,
        head: Option<&'a [u8]>,
        following: &'a [u8],
    ) -> Piece<'a>
        requires { below.line + length following.now ≤ 2 ^ 63 }
        ensures { result ≡ piece_from file here below (option_map (λ line. line.now) head.entry) following.now }
    {
        let (ends, _) = following.split_at(line_ends_len(following));
        let begins = table_begun(file, head);
        Piece {
            head,
            line: here.line,
            begins,
            source: Source {
                file,
                line: below.behind(ends).line,
                text: Source::of_file(file, following).text,
            },
        }
    }

    // Whether it begins a table.
    pub(crate) fn begins(&self, table: Table) -> bool
        ensures { result ≡ begins table self.now }
    {
        match self.begins {
            Some(own) => same_table(own, table),
            None => false,
        }
    }

    // Whether it is the front of a table's own file.
    pub(crate) fn is_own(&self, table: Table) -> bool
        ensures { result ≡ is_own table self.now }
    {
        self.head.is_none() && self.begins(table)
    }

    // The table in whose file it is.
    pub(crate) fn file(&self) -> Table
        ensures { result ≡ self.now.file }
    {
        self.source.file
    }
}
