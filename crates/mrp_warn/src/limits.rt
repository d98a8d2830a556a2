//! Where what is accepted begins to be odd (profile).

/// Scrap below this, in pieces per thousand, may be meant in per cent.
pub const LIKELY_SCRAP: u64 = 10;

/// Where no item has more scrap than this, in pieces per thousand, all of it may be meant in per cent.
pub const LIKELY_MOST_SCRAP: u64 = 30;

/// A run time below this, in thousandths of a minute, may be meant in minutes.
pub const LIKELY_RUN: u64 = 10;

/// Where no operation has a longer run time than this, in thousandths of a minute, all of them may be
/// meant in minutes.
pub const LIKELY_MOST_RUN: u64 = 99;

/// Up to this many minutes on a shop day may be meant in hours.
pub const LIKELY_HOURS: u64 = 16;

/// The greatest quantity per that is not odd.
pub const LIKELY_PER: u64 = 10_000;

/// The most warnings of a kind that have a line each.
pub const MOST_OF_A_KIND: usize = 20;
