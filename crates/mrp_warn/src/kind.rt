//! The kinds of warnings.

ghost use Rattle.std.specs.Prelude.{◌≡◌};
ghost use Rattle.mrp_warn.specs.Kinds as spec;

use mrp_rows::Table;

/// What a warning is about.
#[derive(Clone, Copy)]
pub enum Kind {
    /// Weeks without a shop day.
    ClosedWeek,
    /// Scrap that may be meant in per cent.
    Scrap,
    /// Lot sizes without effect.
    Size,
    /// Minimum order quantities without effect.
    Least,
    /// Order multiples without effect.
    Step,
    /// Lead times with which each order is late.
    Lead,
    /// Items whose names differ in capitals alone.
    Twin,
    /// Parts that nothing needs and nothing is known of.
    Unused,
    /// Items without a record of stock.
    Unstocked,
    /// Master items that the master schedule asks nothing of.
    Unplanned,
    /// Minutes of work centres that have operations but no time, or that may be meant in hours.
    Minutes,
    /// Work centres without an operation.
    Idle,
    /// Bill lines of the same parent and component.
    Doubled,
    /// Large quantities per.
    Per,
    /// Run times that may be meant in minutes.
    Run,
    /// Bookings and cancellations that were answered with nothing.
    Denied,
    /// Bookings behind the last run.
    Unplaced,
}

/// All kinds, in the order in which they are told.
pub fn kinds() -> &'static [Kind]
    ensures { result.now ≡ spec.kinds }
{
    &[
        Kind::ClosedWeek,
        Kind::Scrap,
        Kind::Size,
        Kind::Least,
        Kind::Step,
        Kind::Lead,
        Kind::Twin,
        Kind::Unused,
        Kind::Unstocked,
        Kind::Unplanned,
        Kind::Minutes,
        Kind::Idle,
        Kind::Doubled,
        Kind::Per,
        Kind::Run,
        Kind::Denied,
        Kind::Unplaced,
    ]
}

impl Kind {
    ghost use Rattle.std.specs.Prelude.{◌≡◌};
    ghost use Rattle.mrp_warn.specs.Kinds.{column_of, table_of};

    /// The table of the records that a warning of this kind is about.
    pub fn table(self) -> Table
        ensures { result ≡ table_of self }
    {
        match self {
            Kind::ClosedWeek => Table::Calendar,
            Kind::Scrap
            | Kind::Size
            | Kind::Least
            | Kind::Step
            | Kind::Lead
            | Kind::Twin
            | Kind::Unused
            | Kind::Unstocked
            | Kind::Unplanned => Table::Items,
            Kind::Minutes | Kind::Idle => Table::Centres,
            Kind::Doubled | Kind::Per => Table::Bills,
            Kind::Run => Table::Routings,
            Kind::Denied | Kind::Unplaced => Table::Script,
        }
    }

    /// The column that it is about, or for the calendar the key.
    pub fn column(self) -> &'static str
        ensures { result.now ≡ column_of self }
    {
        match self {
            Kind::ClosedWeek => "workdays",
            Kind::Scrap => "scrap",
            Kind::Size => "size",
            Kind::Least => "least",
            Kind::Step => "step",
            Kind::Lead => "lead",
            Kind::Twin | Kind::Unused | Kind::Unstocked | Kind::Unplanned => "item",
            Kind::Minutes => "minutes",
            Kind::Idle => "centre",
            Kind::Doubled => "component",
            Kind::Per => "per",
            Kind::Run => "run",
            Kind::Denied | Kind::Unplaced => "call",
        }
    }
}
