//! The quantities of a master item week by week, from which its rows of promises are made.

ghost use Rattle.std.specs.Prelude.{◌≡◌, ◌<◌, ◌+◌, ◌++◌, OnOk, flat_map};
ghost use Rattle.mrp_phase.specs.Weeks.{row};
ghost use Rattle.mrp_report.specs.section.PromiseText.{promise_text};
ghost use Rattle.mrp_report.specs.section.PromiseSheet.{IsLeftTo, IsPromiseSheet, sheet_promise};

use crate::page::{CsvName, Page};
use crate::section::promises::{PromiseRow, promise_row};
use mrp_master::AtpRow;
use mrp_qty::{NoMemory, Qty};

// A master item's quantities for each week: firm, supplied and booked.
#[derive(Clone, Copy)]
pub(crate) struct PromiseSheet<'a> {
    pub weeks: u16,
    pub firm: &'a [Qty],
    pub row: &'a AtpRow,
}

impl PromiseSheet<'_> {
    // The row of the week after a place, from what is left in the buckets up to the place.
    fn row_at(&self, place: u16, before: u64) -> PromiseRow
        requires sheet { IsPromiseSheet self.now }
        requires within { place < self.now.weeks }
        requires before { IsLeftTo self.now place before }
        ensures value { result ≡ sheet_promise self.now (place + 1) }
        ensures left { IsLeftTo self.now (place + 1) result.available }
    {
        let week = place + 1;
        let bucket = self.row.bucket(week).value();
        PromiseRow {
            week,
            firm: self.firm[usize::from(place)].value(),
            booked: self.row.booked(week).value(),
            bucket,
            available: before + bucket,
        }
    }

    // Adds the item's rows of the section `promises`.
    pub(crate) fn write(&self, page: &mut Page, name: &CsvName) -> Result<(), NoMemory>
        requires { IsPromiseSheet self.now }
        ensures { OnOk result (page.new ≡ page.old ++ flat_map (promise_text name.now) (row self.now.weeks (sheet_promise self.now))) }
    {
        let mut available = 0;
        for place in 0..self.weeks {
            let row = self.row_at(place, available);
            available = row.available;
            promise_row(page, name, &row)?;
        }
        Ok(())
    }
}
