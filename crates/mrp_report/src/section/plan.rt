//! The section `plan`.

ghost use Rattle.std.specs.Prelude.{◌≡◌, ◌++◌, OnOk};
ghost use Rattle.mrp_report.specs.section.PlanText.{week_text};

use crate::page::{CsvName, Line, Page, put_byte, put_number};
use mrp_qty::NoMemory;

/// A week of an item's plan, in pieces.
#[derive(Clone, Copy, Debug, PartialEq, Eq)]
pub(crate) struct PlanRow {
    /// The week, from 1.
    pub week: u16,
    /// The gross requirements (Orlicky).
    pub gross: u64,
    /// The open receipts that are due.
    pub receipts: u64,
    /// The firm rows that are due.
    pub firm: u64,
    /// The planned order receipts (Orlicky).
    pub planned: u64,
    /// The pieces that start of the orders released in the week (Orlicky: planned order releases).
    pub start: u64,
    /// The projected available balance at the week's end (APICS Dictionary).
    pub balance: u64,
}

// The row of a week of the item with this name.
#[derive(Clone, Copy)]
struct WeekLine<'a> {
    name: &'a CsvName,
    row: &'a PlanRow,
}

impl Line for WeekLine<'_> {
    ghost csv = { λ line. week_text line.name.now line.row.now };

    #[inline(always)]
    fn put(&self, text: &mut [u8], at: usize) -> usize {
        let end = self.name.put_first(text, at);
        let end = put_number(text, end, u64::from(self.row.week));
        let end = put_number(text, end, self.row.gross);
        let end = put_number(text, end, self.row.receipts);
        let end = put_number(text, end, self.row.firm);
        let end = put_number(text, end, self.row.planned);
        let end = put_number(text, end, self.row.start);
        let end = put_number(text, end, self.row.balance);
        put_byte(text, end, b'\n')
    }
}

/// Adds the row of a week of an item.
///
/// Errors: `NoMemory` if an allocation fails.
pub(crate) fn week_row(page: &mut Page, name: &CsvName, row: &PlanRow) -> Result<(), NoMemory>
    ensures { OnOk result (page.new ≡ page.old ++ week_text name.now row.now) }
{
    page.line(&WeekLine { name, row })
}
