//! The rows of the tables. Items and centres are named by their places in their tables, from 0,
//! dates by their weeks, from 1.

use crate::item::Class;
use mrp_qty::Qty;
use mrp_rows::Name;
use mrp_rows::faults::{NOT_MASTER, SERVICE_MASTER};

/// A work centre.
#[derive(Clone, Copy, Debug)]
pub struct Centre {
    /// The centre's name, unique among centres.
    pub name: Name,
    /// Its minutes on a shop day, up to `MOST_MINUTES`.
    pub minutes: u64,
}

/// The stock on hand of an item.
#[derive(Clone, Copy, Debug, PartialEq, Eq)]
pub struct StockRow {
    /// The item.
    pub item: usize,
    /// The pieces on hand.
    pub on_hand: Qty,
}

/// An open receipt: an order that was released before the horizon began.
#[derive(Clone, Copy, Debug)]
pub struct Receipt {
    /// The record's number in its table.
    pub number: u32,
    /// The item.
    pub item: usize,
    /// The order's name.
    pub order: Name,
    /// The week in which it is due.
    pub week: u16,
    /// The pieces, at least 1.
    pub quantity: Qty,
}

/// A line of a bill of material.
#[derive(Clone, Copy, Debug, PartialEq, Eq)]
pub struct BillLine {
    /// The item that is made.
    pub parent: usize,
    /// The item that goes into it.
    pub component: usize,
    /// The pieces of the component in a piece of the parent.
    pub per: u64,
}

/// An operation of an item's routing.
#[derive(Clone, Copy, Debug, PartialEq, Eq)]
pub struct Operation {
    /// The item that is made.
    pub item: usize,
    /// The operation's number, 1 to `GREATEST_OPERATION`, no other of the item's.
    pub operation: u64,
    /// The work centre, by its place.
    pub centre: usize,
    /// The minutes that an order takes to set up, up to `MOST_SETUP`.
    pub setup: u64,
    /// The thousandths of a minute that a piece takes, up to `MOST_RUN`.
    pub run: u64,
    /// The weeks from an order's release to the operation, up to `MOST_OFFSET`.
    pub offset: u64,
}

/// What a row of the master schedule says.
#[derive(Clone, Copy, Debug, PartialEq, Eq)]
pub enum MasterKind {
    /// An order of the master schedule, which planning may not change.
    Firm,
    /// A forecast of demand.
    Forecast,
    /// Demand for a part by itself, as a service part (APICS Dictionary: service parts demand), in
    /// version 3.
    Service,
}

impl MasterKind {
    ghost use Rattle.std.specs.Prelude.{◌≡◌};
    ghost use Rattle.mrp_tables.specs.Master.{class_fault, has_kind, is_firm, is_forecast, is_service};

    /// Whether it is an order.
    pub fn is_firm(self) -> bool
        ensures { result ≡ is_firm self }
    {
        match self {
            MasterKind::Firm => true,
            MasterKind::Forecast | MasterKind::Service => false,
        }
    }

    /// Whether it is a forecast.
    pub fn is_forecast(self) -> bool
        ensures { result ≡ is_forecast self }
    {
        match self {
            MasterKind::Firm | MasterKind::Service => false,
            MasterKind::Forecast => true,
        }
    }

    /// Whether it is demand for a service part.
    pub fn is_service(self) -> bool
        ensures { result ≡ is_service self }
    {
        match self {
            MasterKind::Firm | MasterKind::Forecast => false,
            MasterKind::Service => true,
        }
    }

    // Whether items of a class have rows of this kind.
    pub(crate) fn is_of(self, class: Class) -> bool
        ensures { result ≡ has_kind class self }
    {
        match self {
            MasterKind::Firm | MasterKind::Forecast => class.is_master(),
            MasterKind::Service => !class.is_master(),
        }
    }

    // The fault of a row of this kind whose item's class has none.
    pub(crate) fn class_fault(self) -> u8
        ensures { result ≡ class_fault self }
    {
        match self {
            MasterKind::Firm | MasterKind::Forecast => NOT_MASTER,
            MasterKind::Service => SERVICE_MASTER,
        }
    }
}

/// A row of the master schedule.
#[derive(Clone, Copy, Debug, PartialEq, Eq)]
pub struct MasterRow {
    /// The record's number in its table.
    pub number: u32,
    /// The item, of a class that has rows of this kind.
    pub item: usize,
    /// Whether it is an order, a forecast or demand for a service part.
    pub kind: MasterKind,
    /// The week.
    pub week: u16,
    /// The pieces, at least 1.
    pub quantity: Qty,
}

/// A call of a desk, as the script has it.
#[derive(Clone, Copy, Debug, PartialEq, Eq)]
pub enum ScriptCall {
    /// Book a quantity of a master item, due in a week.
    Book {
        /// The master item, by its place.
        item: usize,
        /// The week in which it is due.
        week: u16,
        /// The pieces, 1 to 10^9.
        quantity: Qty,
    },
    /// Cancel the booking of an entry.
    Cancel {
        /// The entry's number, 1 to 1,000,000.
        entry: u64,
    },
    /// Ask what is available to promise of a master item in a week.
    Ask {
        /// The master item, by its place.
        item: usize,
        /// The week.
        week: u16,
    },
    /// Ask for the first week in which a quantity of a master item is available to promise.
    When {
        /// The master item, by its place.
        item: usize,
        /// The pieces, 1 to 10^9.
        quantity: Qty,
    },
    /// Take a snapshot of the standing bookings, and plan it.
    Run,
}

/// A row of the script.
#[derive(Clone, Copy, Debug, PartialEq, Eq)]
pub struct ScriptRow {
    /// The desk, 1 to 64.
    pub desk: u64,
    /// What it calls.
    pub call: ScriptCall,
}
