//! The quantities of an item week by week, from which its rows are made.

ghost use Rattle.std.specs.Prelude.{◌≡◌, ◌<◌, ◌≤◌, ◌+◌, ◌++◌, OnOk, flat_map};
ghost use Rattle.mrp_phase.specs.Weeks.{row};
ghost use Rattle.mrp_report.specs.section.PlanText.{week_text};
ghost use Rattle.mrp_report.specs.section.Sheet.{AreSums, IsSheet, sheet_row};

use crate::page::{CsvName, Page};
use crate::section::plan::{PlanRow, week_row};
use mrp_qty::{NoMemory, Qty};

// An item's quantities of each kind for each week.
#[derive(Clone, Copy)]
pub(crate) struct Sheet<'a> {
    pub weeks: u16,
    pub is_master: bool,
    pub on_hand: Qty,
    pub gross: &'a [Qty],
    // The firm rows of a master item, the open receipts of another item.
    pub scheduled: &'a [Qty],
    // The planned receipts up to each week.
    pub received: &'a [Qty],
    // The pieces that start in each week.
    pub started: &'a [Qty],
}

// The sums up to a week: on hand and scheduled receipts, gross requirements, and planned receipts.
#[derive(Clone, Copy)]
struct Sums {
    supplied: u64,
    required: u64,
    received: u64,
}

impl Sheet<'_> {
    // The row of the week after a place; the sums then include it.
    fn row_at(&self, place: u16, sums: &mut Sums) -> PlanRow
        requires sheet { IsSheet self.now }
        requires within { place < self.now.weeks }
        requires sums { AreSums self.now place sums.old }
        ensures row { result ≡ sheet_row self.now (place + 1) }
        ensures sums { AreSums self.now (place + 1) sums.new }
    {
        let at = usize::from(place);
        let gross = self.gross[at].value();
        let scheduled = self.scheduled[at].value();
        let received = self.received[at].value();
        let before = sums.received;
        sums.supplied += scheduled;
        sums.required += gross;
        sums.received = received;
        let (receipts, firm) = if self.is_master {
            (0, scheduled)
        } else {
            (scheduled, 0)
        };
        PlanRow {
            week: place + 1,
            gross,
            receipts,
            firm,
            planned: received.saturating_sub(before),
            start: self.started[at].value(),
            balance: (sums.supplied + received).saturating_sub(sums.required),
        }
    }

    // Adds the item's rows of the section `plan`.
    pub(crate) fn write(&self, page: &mut Page, name: &CsvName) -> Result<(), NoMemory>
        requires { IsSheet self.now }
        ensures { OnOk result (page.new ≡ page.old ++ flat_map (week_text name.now) (row self.now.weeks (sheet_row self.now))) }
    {
        let mut sums = Sums {
            supplied: self.on_hand.value(),
            required: 0,
            received: 0,
        };
        for place in 0..self.weeks {
            let row = self.row_at(place, &mut sums);
            week_row(page, name, &row)?;
        }
        Ok(())
    }
}
