//! A warning, as a value.

use jiff::civil::Date;
use mrp_rows::Name;
use mrp_tables::LeadUnit;

/// What is odd about a record, or about a table. Other records are named by their places in their tables,
/// from 0.
#[derive(Clone, Copy)]
pub enum Oddity {
    /// A week that begins on this Monday has no shop day.
    ClosedWeek {
        week: u16,
        monday: Date,
    },
    /// Scrap of so many pieces per thousand, 1 to 9.
    SmallScrap(u64),
    /// The first scrap of 10 or more pieces per thousand, where no item has more than 30.
    LowScrap(u64),
    /// A lot size has no effect under lot for lot.
    IdleSize(u64),
    /// A minimum order quantity has no effect on fixed lots.
    IdleLeast(u64),
    /// An order multiple has no effect on fixed lots.
    IdleStep(u64),
    /// Each order is late by this lead time, in a horizon of so many weeks.
    LongLead {
        lead: u64,
        unit: LeadUnit,
        weeks: u16,
    },
    /// A name differs in capitals alone from the first such name before it.
    Twin {
        name: Name,
        other: Name,
        first: usize,
    },
    /// A part is in no bill, without stock, receipt, safety stock or service row.
    Unused(Name),
    /// An item has no record of stock.
    Unstocked(Name),
    /// No item has a record of stock.
    NoStock,
    /// A master item has no row in the master schedule.
    Unplanned(Name),
    /// A work centre without minutes has so many operations.
    NoMinutes {
        operations: usize,
    },
    /// A work centre has 1 to 16 minutes on a shop day.
    FewMinutes(u64),
    /// A work centre is in no routing.
    Idle(Name),
    /// An earlier bill line has the same parent and component.
    Doubled {
        component: Name,
        parent: Name,
        first: usize,
    },
    /// So many pieces of a component go into a piece of the parent, more than 10,000.
    LargePer {
        per: u64,
        component: Name,
        parent: Name,
    },
    /// A run time of 1 to 9 thousandths of a minute.
    SmallRun(u64),
    /// The first run time of 10 or more thousandths of a minute, where no operation has more than 99.
    LowRun(u64),
    /// A booking of so many pieces was answered short.
    Short {
        quantity: u64,
        available: u64,
    },
    /// No booking of this number stood to be cancelled.
    NotStanding(u64),
    /// The booking of this number is that of another desk.
    NotYours {
        number: u64,
        desk: u64,
    },
    /// A booking was made behind the last run, which is at this place.
    Unplaced {
        run: usize,
    },
}

/// A warning: what is odd, and where.
#[derive(Clone, Copy)]
pub struct Warning {
    /// The place of the record in its table, from 0; `None` for a table without records, which is told at
    /// the first line.
    pub place: Option<usize>,
    /// What is odd there.
    pub oddity: Oddity,
}

impl Warning {
    ghost use Rattle.std.specs.Prelude.{◌≡◌};
    ghost use Rattle.mrp_warn.specs.Rows.{at_place};

    // What is odd about the record at a place, if anything is.
    pub(crate) fn at(place: usize, odd: Option<Oddity>) -> Option<Warning>
        ensures { result ≡ at_place place odd }
    {
        match odd {
            Some(oddity) => Some(Warning {
                place: Some(place),
                oddity,
            }),
            None => None,
        }
    }
}
