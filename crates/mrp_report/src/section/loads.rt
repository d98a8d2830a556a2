//! The section `loads`.

ghost use Rattle.std.specs.Prelude.{◌≡◌, ◌++◌, OnOk};
ghost use Rattle.mrp_report.specs.section.LoadText.{load_text};

use crate::page::{CsvName, Line, Page, TimeBuffer, put_byte, put_number, put_text};
use mrp_qty::{Milli, NoMemory};

/// The load and the capacity of a work centre in a week.
#[derive(Clone, Copy)]
pub(crate) struct LoadRow {
    /// The week, from 1.
    pub week: u16,
    /// The sum of the standard times of the operations there (APICS Dictionary: load).
    pub load: Milli,
    /// The centre's capacity (APICS Dictionary: capacity available).
    pub capacity: Milli,
    /// By how much the load exceeds the capacity (APICS Dictionary: overload).
    pub over: Milli,
}

// The row of a week of the work centre with this name.
#[derive(Clone, Copy)]
struct LoadLine<'a> {
    name: &'a CsvName,
    row: &'a LoadRow,
}

impl Line for LoadLine<'_> {
    ghost csv = { λ line. load_text line.name.now line.row.now };

    fn put(&self, text: &mut [u8], at: usize) -> usize {
        let mut load = TimeBuffer::new();
        let mut capacity = TimeBuffer::new();
        let mut over = TimeBuffer::new();
        let end = self.name.put_first(text, at);
        let end = put_number(text, end, u64::from(self.row.week));
        let end = put_text(text, end, load.format(self.row.load));
        let end = put_text(text, end, capacity.format(self.row.capacity));
        let end = put_text(text, end, over.format(self.row.over));
        put_byte(text, end, b'\n')
    }
}

/// Adds the row of a week of a work centre, with its times in minutes.
///
/// Errors: `NoMemory` if an allocation fails.
pub(crate) fn load_row(page: &mut Page, name: &CsvName, row: &LoadRow) -> Result<(), NoMemory>
    ensures { OnOk result (page.new ≡ page.old ++ load_text name.now row.now) }
{
    page.line(&LoadLine { name, row })
}
