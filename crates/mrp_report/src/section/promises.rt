//! The section `promises`.

ghost use Rattle.std.specs.Prelude.{◌≡◌, ◌++◌, OnOk};
ghost use Rattle.mrp_report.specs.section.PromiseText.{promise_text};

use crate::page::{CsvName, Line, Page, put_byte, put_number};
use mrp_qty::NoMemory;

/// What is available to promise of an item in a week, in pieces.
#[derive(Clone, Copy, Debug, PartialEq, Eq)]
pub(crate) struct PromiseRow {
    /// The week, from 1.
    pub week: u16,
    /// The firm quantity that is due.
    pub firm: u64,
    /// The pieces of the standing bookings that are due.
    pub booked: u64,
    /// The week's bucket (APICS Dictionary: discrete available-to-promise): what is left of what
    /// came in; 0 in a week that opens no bucket.
    pub bucket: u64,
    /// What is available to promise (APICS Dictionary: available-to-promise).
    pub available: u64,
}

// The row of a week of the item with this name.
#[derive(Clone, Copy)]
struct PromiseLine<'a> {
    name: &'a CsvName,
    row: &'a PromiseRow,
}

impl Line for PromiseLine<'_> {
    ghost csv = { λ line. promise_text line.name.now line.row.now };

    #[inline(always)]
    fn put(&self, text: &mut [u8], at: usize) -> usize {
        let end = self.name.put_first(text, at);
        let end = put_number(text, end, u64::from(self.row.week));
        let end = put_number(text, end, self.row.firm);
        let end = put_number(text, end, self.row.booked);
        let end = put_number(text, end, self.row.bucket);
        let end = put_number(text, end, self.row.available);
        put_byte(text, end, b'\n')
    }
}

/// Adds the row of a week of an item.
///
/// Errors: `NoMemory` if an allocation fails.
pub(crate) fn promise_row(page: &mut Page, name: &CsvName, row: &PromiseRow) -> Result<(), NoMemory>
    ensures { OnOk result (page.new ≡ page.old ++ promise_text name.now row.now) }
{
    page.line(&PromiseLine { name, row })
}
