//! What the version of a bundle says: the one place that knows.

ghost use Rattle.std.specs.Prelude.{◌≡◌};

use crate::limits::{MOST_LEAD, MOST_LEAD_WEEKS};

/// The greatest version.
pub const MOST_VERSION: u64 = 3;

/// Which rules a bundle is written for (profile).
#[derive(Clone, Copy, Debug, PartialEq, Eq)]
pub enum Version {
    /// Lead times in weeks.
    One,
    /// Lead times in shop days.
    Two,
    /// The same, with a minimum order quantity and an order multiple of each item, and service rows in
    /// the master schedule.
    Three,
}

/// What lead times are counted in.
#[derive(Clone, Copy, Debug, PartialEq, Eq)]
pub enum LeadUnit {
    /// Weeks.
    Weeks,
    /// Days of the shop calendar on which the shop works.
    ShopDays,
}

impl Version {
    ghost use Rattle.std.specs.Prelude.{◌≡◌, ◌≤◌, map};
    ghost use Rattle.std.specs.Int.{IsInRange};
    ghost use Rattle.mrp_tables.specs.Versions as spec;
    ghost use Rattle.mrp_tables.specs.Versions.{has_steps, kind_words, version_number, version_of};

    // The version of a number.
    pub(crate) fn of(number: u64) -> Version
        requires { IsInRange 1 MOST_VERSION number }
        ensures { result ≡ version_of number }
    {
        match number {
            1 => Version::One,
            2 => Version::Two,
            _ => Version::Three,
        }
    }

    /// Its number, from 1.
    pub fn number(self) -> u8
        ensures { result ≡ version_number self }
    {
        match self {
            Version::One => 1,
            Version::Two => 2,
            Version::Three => 3,
        }
    }

    /// What lead times are counted in.
    pub fn lead_unit(self) -> LeadUnit
        ensures { result ≡ spec.lead_unit self }
    {
        match self {
            Version::One => LeadUnit::Weeks,
            Version::Two | Version::Three => LeadUnit::ShopDays,
        }
    }

    /// The longest lead time, in that unit.
    pub fn most_lead(self) -> u64
        ensures value { result ≡ spec.most_lead self }
        ensures bound { result ≤ MOST_LEAD }
    {
        match self {
            Version::One => MOST_LEAD_WEEKS,
            Version::Two | Version::Three => MOST_LEAD,
        }
    }

    // Whether its items have a minimum order quantity and an order multiple.
    pub(crate) fn has_steps(self) -> bool
        ensures { result ≡ has_steps self }
    {
        match self {
            Version::One | Version::Two => false,
            Version::Three => true,
        }
    }

    // The words for the kinds of rows of the master schedule, in the order of their places.
    pub(crate) fn kind_words(self) -> &'static [&'static str]
        ensures { map (λ word. word.now) result.now ≡ kind_words self }
    {
        match self {
            Version::One | Version::Two => &["firm", "forecast"],
            Version::Three => &["firm", "forecast", "service"],
        }
    }
}
