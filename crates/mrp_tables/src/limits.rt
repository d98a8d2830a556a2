//! The limits of the program's input, each in one place.

ghost use Rattle.std.specs.Prelude.{◌≡◌, option_map};
ghost use Rattle.mrp_tables.specs.Limits.{record_limit};

use mrp_rows::Table;

/// The words for the lot rules, in the order of their places.
pub(crate) const LOT_WORDS: &[&str] = &["lfl", "fixed", "period"];

/// The words for the calls of a script, in the order of their places.
pub(crate) const CALL_WORDS: &[&str] = &["book", "cancel", "ask", "when", "run"];

/// The most records of the calendar: its start, its weeks, its workdays and 1,000 holidays; where a version
/// comes first, one more.
pub const MOST_CALENDAR_RECORDS: u32 = 1_003;

/// The most items.
pub const MOST_ITEMS: u32 = 20_000;

/// The most work centres.
pub const MOST_CENTRES: u32 = 1_000;

/// The most operations of all routings.
pub const MOST_OPERATIONS: u32 = 50_000;

/// The most records of the open receipts, of the bills, of the master schedule and of the script.
pub const MOST_ROWS: u32 = 100_000;

/// The longest lead time in weeks.
pub const MOST_LEAD_WEEKS: u64 = 104;

/// The longest lead time that a bundle of any version has, in shop days.
pub const MOST_LEAD: u64 = 728;

/// The longest period of a lot rule, in weeks.
pub const MOST_PERIOD: u64 = 104;

/// The greatest scrap, in pieces per thousand.
pub const MOST_SCRAP: u64 = mrp_qty::MOST_SCRAP;

/// The most pieces in a cell.
pub const MOST_PIECES: u64 = 1_000_000_000;

/// The greatest minimum order quantity, in pieces.
pub const MOST_LEAST: u64 = 1_000_000_000;

/// The greatest order multiple, in pieces.
pub const MOST_STEP: u64 = 1_000_000_000;

/// The greatest quantity per: pieces of a component in a piece of its parent.
pub const MOST_PER: u64 = 1_000_000;

/// The most minutes of a work centre on a shop day.
pub const MOST_MINUTES: u64 = 1_000_000_000;

/// The greatest number of an operation.
pub const GREATEST_OPERATION: u64 = 1_000_000_000;

/// The most minutes of an operation's setup.
pub const MOST_SETUP: u64 = 1_000_000;

/// The most thousandths of a minute of an operation for a piece.
pub const MOST_RUN: u64 = 1_000_000_000;

/// The most weeks from an order's release to an operation.
pub const MOST_OFFSET: u64 = 104;

/// The most desks.
pub const MOST_DESKS: u64 = 64;

/// The most entries of the order book.
pub const MOST_ENTRIES: u64 = 1_000_000;

/// The most records of a table, if it has a limit.
pub(crate) fn most_records(table: Table) -> Option<u32>
    ensures { result ≡ record_limit table }
{
    match table {
        Table::Calendar => Some(MOST_CALENDAR_RECORDS),
        Table::Items => Some(MOST_ITEMS),
        Table::Centres => Some(MOST_CENTRES),
        Table::Receipts | Table::Bills | Table::Master | Table::Script => Some(MOST_ROWS),
        Table::Routings => Some(MOST_OPERATIONS),
        Table::Stock | Table::Bundle => None,
    }
}
