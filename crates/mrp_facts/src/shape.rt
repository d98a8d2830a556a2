//! What a day shows of its tables.

ghost use Rattle.std.specs.Prelude.{◌≡◌};
ghost use Rattle.mrp_facts.specs.Shape.{agrees};

/// What is known of the tables of a day by the day itself; `None` where it is not known.
#[derive(Clone, Copy, Debug)]
pub struct DayShape {
    /// How many items the plan has.
    pub items: Option<u64>,
    /// How many weeks the horizon has.
    pub weeks: Option<u64>,
    /// How many firm rows the master schedule has.
    pub firm_rows: Option<u64>,
    /// How many open receipts there are.
    pub receipts: Option<u64>,
    /// How many service rows the master schedule has.
    pub service_rows: Option<u64>,
}

// Whether a count is this one, if it is known.
pub(crate) fn agrees(known: Option<u64>, count: u64) -> bool
    ensures { result ≡ agrees known count }
{
    match known {
        Some(known) => known == count,
        None => true,
    }
}
