//! The tables that the others refer to: the calendar, the items and the centres.

use crate::calendar::{CalendarTable, Entries};
use crate::centres::Centres;
use crate::items::Items;
use crate::version::Version;
use mrp_cal::Calendar;
use mrp_rows::{Fault, Sections};
use std::alloc::Global;

// The calendar, the items and the centres.
#[derive(Drop)]
pub(crate) struct FirstTables {
    pub(crate) version: Version,
    pub(crate) calendar: Calendar,
    pub(crate) items: Items,
    pub(crate) centres: Centres,
}

impl FirstTables {
    ghost use Rattle.mrp_tables.specs.Parts.{GivesFirst};

    // These tables, or the bundle's refusal.
    pub(crate) fn read(alloc: Global, sections: &Sections<'_>) -> Result<FirstTables, Fault>
        ensures { GivesFirst sections.now result }
    {
        let CalendarTable { version, calendar } = Entries::read(alloc, sections)?;
        let items = Items::read(alloc, sections, version)?;
        let centres = Centres::read(alloc, sections)?;
        Ok(FirstTables {
            version,
            calendar,
            items,
            centres,
        })
    }
}
