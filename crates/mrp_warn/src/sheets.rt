//! Where the records of tables stand.

ghost use Rattle.std.specs.Prelude.{◌≡◌};
ghost use Rattle.std.specs.Option.{option_copied};
ghost use Rattle.mrp_warn.specs.Sheets.{file_of, line_of, sheet_of};

use mrp_rows::Table;

/// Where a table stands: in which file, and each record in which line of it.
#[derive(Drop)]
pub struct Sheet {
    /// The table whose file it is in: mostly its own.
    pub file: Table,
    /// The line of each record, in order: from 1, blank lines and line ends in cells counted.
    pub lines: Vec<u64>,
}

// The sheet of a table, where sheets are in the order of the tables.
fn sheet_of(sheets: &[Sheet], table: Table) -> Option<&Sheet>
    ensures { option_copied result ≡ sheet_of sheets.now table }
{
    sheets.get(table.index())
}

// The table in whose file a table stands.
pub(crate) fn file_of(sheets: &[Sheet], table: Table) -> Table
    ensures { result ≡ file_of sheets.now table }
{
    match sheet_of(sheets, table) {
        Some(sheet) => sheet.file,
        None => table,
    }
}

// The line of the record at a place of a table; 0 if it is not known.
pub(crate) fn line_of(sheets: &[Sheet], table: Table, place: usize) -> u64
    ensures { result ≡ line_of sheets.now table place }
{
    match sheet_of(sheets, table) {
        Some(sheet) => sheet.lines.get(place).copied().unwrap_or(0),
        None => 0,
    }
}
