//! How much of a day a page has room for. Each limit is defined once.

use mrp_cal::MOST_WEEKS;

/// The most items that a page shows. A page also keeps the rows of this many items, or work centres, in a
/// section that is full.
pub const MOST_ITEMS: u64 = 200;

/// The most entries of the history that a page keeps.
pub const MOST_ENTRIES: u64 = 1_000;

/// The most rows of a section that a page keeps, except for the history, the run and the pegs: a row for each
/// of [`MOST_ITEMS`] items in each of the most weeks of a plan. Of an item, or a work centre, a page keeps no more
/// rows than these weeks once its section is full.
pub const MOST_ROWS: u64 = MOST_ITEMS * MOST_WEEKS;

/// The most pegs that a page keeps: 300 for each of [`MOST_ITEMS`] items.
pub const MOST_PEGS: u64 = MOST_ITEMS * 300;

/// How many rows of a short list are not folded.
pub const FEW_ROWS: usize = 5;

/// How many rows of a longer list are not folded.
pub const SOME_ROWS: usize = 10;

/// The most rows of a list that a page shows, folded ones included.
pub const MOST_LINES: usize = 1_000;

/// Behind how many overloads stand the operations that load them.
pub const MOST_EXPLAINED: usize = 100;

/// How many of the most overloaded work centres stand first.
pub const MOST_OVERLOADED: usize = 3;

/// The unit in which the time over is divided by the capacity. Where capacities have fewer than eleven digits in
/// thousandths of a minute, different quotients are different numbers of this unit.
pub const RATE_UNIT: u128 = 1_000_000_000_000_000_000_000;

/// How many weeks stand in a table. The further ones are folded.
pub const TABLE_WEEKS: usize = 13;

/// From this number on numbers count as equal, among them times in thousandths of a minute.
pub const MOST_AMOUNT: u64 = 100_000_000_000_000_000;
