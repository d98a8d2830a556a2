//! What is wrong with a bundle, and where.

ghost use Rattle.std.specs.Prelude.{◌≡◌, ◌<◌};

/// A table of the bundle, in the order in which faults are checked, or the bundle itself.
#[derive(Clone, Copy, Debug, PartialEq, Eq)]
pub enum Table {
    /// The start of the horizon, its weeks, and the shop's workdays and holidays.
    Calendar,
    /// Master items and parts, with lead time, scrap, lot rule and safety stock, and where the
    /// bundle's version has them a minimum order quantity and an order multiple.
    Items,
    /// The work centres.
    Centres,
    /// The stock on hand.
    Stock,
    /// The open receipts.
    Receipts,
    /// The bills of material, a line for each component.
    Bills,
    /// The routings, a line for each operation.
    Routings,
    /// The master schedule: firm, forecast and service rows.
    Master,
    /// The desks' calls.
    Script,
    /// The bundle as a whole.
    Bundle,
}

impl Table {
    ghost use Rattle.mrp_rows.specs.FaultText.{table_name};
    ghost use Rattle.mrp_rows.specs.Tables.{table_index};

    /// The table's place in the order of faults, from 0; 9 for the bundle.
    pub fn index(self) -> usize
        ensures place { result ≡ table_index self }
        ensures small { result < 10 }
    {
        self as usize
    }

    /// The table's name, as in its section line: `calendar`, `items` and so on.
    pub fn name(self) -> &'static str
        ensures { result.now ≡ table_name self }
    {
        match self {
            Table::Calendar => "calendar",
            Table::Items => "items",
            Table::Centres => "centres",
            Table::Stock => "stock",
            Table::Receipts => "receipts",
            Table::Bills => "bills",
            Table::Routings => "routings",
            Table::Master => "master",
            Table::Script => "script",
            Table::Bundle => "bundle",
        }
    }
}

/// What is wrong, in which table, and in which record of it.
#[derive(Clone, Copy, Debug, PartialEq, Eq)]
pub struct Fault {
    /// The fault's number, one of [`crate::faults`].
    pub code: u8,
    /// The table of the fault.
    pub table: Table,
    /// The record, counted from 1; 0 for the header, for a section as a whole and for the bundle.
    pub row: u32,
}
