//! The cells of a record.

ghost use Rattle.std.specs.Prelude.{◌≡◌, [], length, map, nat_eq, slice_index_or};
ghost use Rattle.std.specs.Cmp.Lexicographic.{pointwise};
ghost use Rattle.csv.specs.Records.{fields_of};

use csv::ByteRecord;
use mrp_lines::Cells;

// The bytes of a cell, counted from 0; empty if the record has no such cell.
pub(crate) fn cell_of(cells: &ByteRecord, column: usize) -> &[u8]
    ensures { result.now ≡ slice_index_or (fields_of cells.now) column [] }
{
    cells.get(column).unwrap_or(b"")
}

// Whether a record's cells are these texts, in order.
pub(crate) fn are_texts<C: Cells>(cells: &C, texts: &[&str]) -> bool
    ensures { result ≡ pointwise (pointwise nat_eq) (C.cells cells.now) (map (λ c. c.now) texts.now) }
{
    if cells.len() != texts.len() {
        return false;
    }
    for (column, text) in texts.iter().enumerate() {
        if cells.cell(column) != text.as_bytes() {
            return false;
        }
    }
    true
}
