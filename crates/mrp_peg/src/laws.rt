//! What follows from the definitions alone, each law the contract of a function that does nothing.

ghost use Rattle.mrp_peg.specs.Laws.{EachOnce, MatchesAreUnits, NeedIsPegged, NeedsDiffer, OneTrace, RequirementsAddUp, RequirementsAreCovered, RequirementsArePegged, SuppliesArePegged, SuppliesDiffer, SupplyIsPegged};

/// Pegging matches piece by piece. Between some requirements and some supplies, as many pieces are
/// matched as there are numbers k for which the k-th piece required belongs to those requirements
/// and the k-th piece supplied to those supplies. Of any requirements, exactly the pieces that are
/// supplied are matched.
pub fn pieces()
    ensures matches { MatchesAreUnits }
    ensures requirements { RequirementsAddUp }
{}

/// The pegs of an item add up: those of its requirements to what is required, if its supplies cover
/// that, and those of its supplies, with their surplus, to what is supplied.
pub fn sums()
    ensures requirements { RequirementsArePegged }
    ensures supplies { SuppliesArePegged }
{}

/// The supplies of a planned item cover its requirements, so the pegs of each requirement add up to
/// it.
pub fn cover()
    ensures { RequirementsAreCovered }
{}

/// No two requirements of an item have the same need, if the numbers of the bookings and of the master
/// schedule's rows rise: a booking is known by its number, a service row by that of its record, a parent's
/// order by the bill line and the order's number. So the pegs of one requirement add up to it, if the item's
/// supplies cover what is required.
pub fn needs()
    ensures differ { NeedsDiffer }
    ensures pegged { NeedIsPegged }
{}

/// No two supplies of an item have the same source, if the numbers of the open receipts rise: what is on hand
/// is one supply, an open receipt is known by its record's number, and an order by its number among the
/// item's orders. So the pegs of one supply, with its surplus, add up to it.
pub fn supplies()
    ensures differ { SuppliesDiffer }
    ensures pegged { SupplyIsPegged }
{}

/// A requirement has exactly one trace: any two lists of its causes, each in order of item and peg, are
/// equal. Each cause is in it once.
pub fn traces()
    ensures one { OneTrace }
    ensures once { EachOnce }
{}
