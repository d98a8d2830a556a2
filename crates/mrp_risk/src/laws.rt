//! Laws of the definitions, each the contract of a function that does nothing.

ghost use Rattle.std.specs.Prelude.{◌≡◌, ◌≤◌, ◌<◌, ◌↔◌, ℕ, List, IsTrue, Some, is_some, sum_by};
ghost use Rattle.mrp_risk.specs.Chains.{HangsOn, LeadsTo, weeks_late};
ghost use Rattle.mrp_risk.specs.Risks.{IsAnswer, pieces_of};

/// A booking is at risk exactly if a chain of pegs leads from it down to a late order. Nothing is
/// supposed of the pegs, so this holds where chains lead back to where they began, too.
pub fn chains()
    ensures { (lateness : List ℕ) (pegs : List _) (booking : ℕ) (answer : _) → IsAnswer lateness pegs booking answer
        → (IsTrue (is_some answer) ↔ ((order : ℕ) × HangsOn pegs booking order × (0 < weeks_late lateness order))) }
{}

/// The order that is told is late, the booking waits for it, and it waits for none that is later.
pub fn orders()
    ensures waits { (lateness : List ℕ) (pegs : List _) (booking : ℕ) (risk : _) → IsAnswer lateness pegs booking (Some risk)
        → HangsOn pegs booking risk.order × (0 < weeks_late lateness risk.order) }
    ensures latest { (lateness : List ℕ) (pegs : List _) (booking other : ℕ) (risk : _) → IsAnswer lateness pegs booking (Some risk)
        → HangsOn pegs booking other → weeks_late lateness other ≤ weeks_late lateness risk.order }
{}

/// The pieces at risk are at most those that all pegs have for the booking.
pub fn pieces()
    ensures { (lateness : List ℕ) (pegs : List _) (booking : ℕ) (risk : _) → IsAnswer lateness pegs booking (Some risk)
        → risk.pieces ≤ sum_by (pieces_of booking) pegs }
{}

/// There is one answer for a booking.
pub fn answers()
    ensures { (lateness : List ℕ) (pegs : List _) (booking : ℕ) (a b : _) → IsAnswer lateness pegs booking a → IsAnswer lateness pegs booking b → a ≡ b }
{}
