//! Reading a table's records, in order.

ghost use Rattle.std.specs.Prelude.{◌≡◌, ◌==◌, ◌&&◌, ◌<◌, ◌≤◌, if◌then◌else◌, ℕ, List, [], length, IfOk, IfSome, Ok};
ghost use Rattle.mrp_rows.specs.Bundle.{text_in};
ghost use Rattle.mrp_rows.specs.Columns.{Layout, layout_of, width};
ghost use Rattle.mrp_rows.specs.Next.{opened};
ghost use Rattle.mrp_tables.specs.Reading.{Adds, Gives, IsRefusedBehind, IsRefusedIn, NextAdmitted, is_past, rows_from, rows_of};

use mrp_rows::faults::{COLUMNS, TOO_MANY};
use mrp_rows::{Cursor, Fault, Row, Sections, Table};
use std::alloc::Global;

fn is_past_limit(limit: Option<u32>, number: u32) -> bool
    ensures { result ≡ is_past limit number }
{
    match limit {
        Some(limit) => limit < number,
        None => false,
    }
}

/// A table's next record, or None at the end, where the table has so many records at most.
///
/// Errors, at the record's number: `TOO_MANY`, past the limit; then `COLUMNS`, another count
/// of cells than the table has columns; `NO_MEMORY`.
pub(crate) fn next_record(cursor: &mut Cursor<'_>, limit: Option<u32>) -> Result<Option<Row>, Fault>
    ensures next { NextAdmitted limit cursor.old result cursor.new }
    ensures wide { IfOk result (λ next. IfSome next (λ r. length r.cells ≡ width cursor.old.layout)) }
    ensures layout { cursor.new.layout ≡ cursor.old.layout }
{
    match cursor.next() {
        Ok(Some(row)) => {
            if is_past_limit(limit, row.record()) {
                Err(row.fault(TOO_MANY))
            } else {
                Ok(Some(row))
            }
        }
        Ok(None) => Ok(None),
        Err(fault) => Err(past_first(limit, fault)),
    }
}

// A record past its table's limit is refused for that, whatever its cells.
fn past_first(limit: Option<u32>, fault: Fault) -> Fault
    ensures { result ≡ (if (fault.code == COLUMNS) && is_past limit fault.row then record { code = TOO_MANY; table = fault.table; row = fault.row } else fault) }
{
    if fault.code == COLUMNS && is_past_limit(limit, fault.row) {
        Fault {
            code: TOO_MANY,
            table: fault.table,
            row: fault.row,
        }
    } else {
        fault
    }
}

/// What a table's records are gathered into.
pub(crate) trait TableRows: Drop {
    type Line;

    ghost use Rattle.std.specs.Prelude.{◌≡◌, ℕ, List, length};
    ghost use Rattle.mrp_tables.specs.Gathered.{Beside};
    ghost use Rattle.mrp_tables.specs.Reading.{Adds, Reads};

    // the counts of cells that it accepts, by what it refers to
    ghost takes: { Beside → ℕ → Type 0 };
    // the rows so far
    ghost rows: { Self → List Self.Line };
    // how its records are read
    ghost reads: { Self → Reads Self.Line };
    // what it refers to
    ghost beside: { Self → Beside };

    /// The most records that the table has, where it has a limit.
    fn most_records(&self) -> Option<u32>
        ensures { result ≡ (reads self.now).limit (rows self.now) };

    /// Adds the row of a record.
    fn add(&mut self, row: &Row) -> Result<(), Fault>
        requires { takes (beside self.old) (length row.now.cells) }
        ensures added { Adds (reads self.old) (rows self.old) row.now result (rows self.new) }
        ensures same { reads self.new ≡ reads self.old }
        ensures beside { beside self.new ≡ beside self.old };
}

/// The rows of a cursor's remaining records, after those that are already gathered.
pub(crate) fn gather<G: TableRows>(cursor: &mut Cursor<'_>, mut gathered: G) -> Result<G, Fault>
    requires { G.takes (G.beside gathered) (width cursor.old.layout) }
    ensures rows { Gives
        (IsRefusedBehind (G.reads gathered) cursor.old.layout (G.rows gathered)
        cursor.old.number cursor.old.left)
        (λ g. G.rows g) result
        (rows_from (G.reads gathered) cursor.old.layout (G.rows gathered)
        cursor.old.number cursor.old.left) }
    ensures beside { IfOk result (λ g. G.beside g ≡ G.beside gathered) }
{
    while let Some(row) = next_record(cursor, gathered.most_records())? {
        gathered.add(&row)?;
        cursor.reuse(row);
    }
    Ok(gathered)
}

/// A table's rows, or its first fault, unless it runs out of memory.
pub(crate) fn read_table<G: TableRows>(
    alloc: Global,
    sections: &Sections<'_>,
    table: Table,
    empty: G,
) -> Result<G, Fault>
    requires takes { G.takes (G.beside empty) (width (layout_of table)) }
    requires empty { G.rows empty ≡ [] }
    ensures rows { Gives (IsRefusedIn (G.reads empty) (layout_of table) (text_in sections.now table))
        (λ g. G.rows g) result (rows_of (G.reads empty) (layout_of table) (text_in sections.now table)) }
    ensures count { (limit : ℕ) → limit < 4294967294 → ((before : _) → (G.reads empty).limit before ≡ Some limit) → IfOk result (λ g. length (G.rows g) ≤ limit) }
    ensures beside { IfOk result (λ g. G.beside g ≡ G.beside empty) }
{
    let cursor = Cursor::new(alloc, sections, table)?;
    read_records(cursor, empty)
}

/// The rows of a text that was opened, or its first fault, unless it runs out of memory.
pub(crate) fn read_records<G: TableRows>(mut cursor: Cursor<'_>, empty: G) -> Result<G, Fault>
    requires takes { G.takes (G.beside empty) (width cursor.layout) }
    requires empty { G.rows empty ≡ [] }
    ensures rows { (own : Layout) (text : List ℕ) → opened own text ≡ Ok cursor.entry → Gives (IsRefusedIn (G.reads empty) own text)
        (λ g. G.rows g) result (rows_of (G.reads empty) own text) }
    ensures count { (own : Layout) (text : List ℕ) → opened own text ≡ Ok cursor.entry
        → (limit : ℕ) → limit < 4294967294 → ((before : _) → (G.reads empty).limit before ≡ Some limit) → IfOk result (λ g. length (G.rows g) ≤ limit) }
    ensures beside { IfOk result (λ g. G.beside g ≡ G.beside empty) }
{
    gather(&mut cursor, empty)
}
