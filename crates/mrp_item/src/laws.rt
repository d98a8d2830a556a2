//! What follows from the definitions alone, each law the contract of a function that does nothing.

ghost use Rattle.std.specs.Prelude.{◌≡◌, ◌≢◌, ◌<◌, ◌≤◌, ◌+◌, ◌*◌, sum_by, ◌↔◌, ℕ, List, IsTrue, None, Ok, Err};
ghost use Rattle.mrp_bill.specs.Bill.{IsAbove, IsParent};
ghost use Rattle.std.specs.Int.{IsInRange};
ghost use Rattle.mrp_tables.specs.Tables.{Tables};
ghost use Rattle.mrp_phase.specs.Weeks.{in_week, row, sum_to, weeks};
ghost use Rattle.mrp_item.specs.Inputs.{Inputs, count, horizon, item_at};
ghost use Rattle.mrp_item.specs.Rows.{firm_rows, stock_of};
ghost use Rattle.mrp_item.specs.Limits.{IsSized};
ghost use Rattle.mrp_item.specs.NetChange.{IsUntouched};
ghost use Rattle.mrp_item.specs.Releases.{release_of};
ghost use Rattle.mrp_item.specs.Orders.{orders_of, started_in};
ghost use Rattle.mrp_item.specs.Plan.{line_demand, plan_in, HasParents, IsRanked, IsSolution, Planned, Over, Blocked, first_over, gross_in, is_too_large, item_plan, outcome_of, outcome_step, plan_of, receipts_of};

/// An item's orders add up to its firm rows and its planned receipts.
pub fn orders()
    ensures { (s : Inputs) (i : ℕ) (receipts : List ℕ) → ((t : ℕ) → t + 1 ≤ horizon s → in_week receipts t ≤ in_week receipts (t + 1)) → sum_by (λ o. o.quantity) (orders_of s i receipts) ≡ sum_by (λ week. sum_by (λ r. r.quantity) (firm_rows s i week)) (weeks (horizon s)) + in_week receipts (horizon s) }
{}

/// An order is released by the week in which it is due, from week 1 on, and no earlier than an order
/// that is due before it.
pub fn releases()
    ensures within { (tables : Tables) (lead due : ℕ) → 1 ≤ due → IsInRange 1 due (release_of tables due lead).week }
    ensures rises { (tables : Tables) (lead due later : ℕ) → due ≤ later → (release_of tables due lead).week ≤ (release_of tables later lead).week }
{}

/// A bill line requires the starts of its parent, times the quantity per (Orlicky: explosion).
pub fn explosion()
    ensures { (above : ℕ → _) (week : ℕ) (line : _) → line_demand above week line ≡ started_in (plan_in (above line.parent)).orders week * line.per }
{}

/// Supplies up to each week cover requirements and safety stock.
pub fn service()
    ensures { (s : Inputs) (i : ℕ) (gross : List ℕ) (t : ℕ) → IsSized (item_at s i) → 0 < t → t ≤ horizon s → sum_to gross t + (stock_of s i).safety ≤ (stock_of s i).on_hand + sum_to (stock_of s i).scheduled t + in_week (receipts_of s i gross) t }
{}

/// An item's outcome follows from its parents' outcomes, and is the only one that does; items may be
/// planned in any order that has parents first.
pub fn recursion()
    ensures unfolds { (s : Inputs) (code : ℕ → ℕ) → IsRanked s code → (i : ℕ) → outcome_of s i ≡ outcome_step s i (outcome_of s) }
    ensures only { (s : Inputs) (code : ℕ → ℕ) → IsRanked s code → (f : ℕ → _) → IsSolution s f → (i : ℕ) → f i ≡ outcome_of s i }
    // The step depends on the parents alone.
    ensures parents_alone { (s : Inputs) (i : ℕ) (f g : ℕ → _) → ((p : ℕ) → IsParent s.tables.bills p i → f p ≡ g p) → outcome_step s i f ≡ outcome_step s i g }
    ensures any_order { (s : Inputs) (code : ℕ → ℕ) → IsRanked s code → (f : ℕ → _) (i : ℕ) → ((p : ℕ) → IsParent s.tables.bills p i → f p ≡ outcome_of s p) → outcome_step s i f ≡ outcome_of s i }
{}

/// An item's outcome is unchanged if the tables, its own bookings and its parents' orders are (Orlicky:
/// net change).
pub fn net_change()
    ensures step { (old new : Inputs) (i : ℕ) (f g : ℕ → _) → IsUntouched old new i f g → outcome_step old i f ≡ outcome_step new i g }
    ensures outcome { (old new : Inputs) (code : ℕ → ℕ) → IsRanked old code → (i : ℕ) → IsUntouched old new i (outcome_of old) (outcome_of new) → outcome_of old i ≡ outcome_of new i }
{}

/// An item is blocked exactly if one above it is over, and over exactly if it is too large and none
/// above it is over.
pub fn too_large()
    ensures blocked { (s : Inputs) (code : ℕ → ℕ) → IsRanked s code → HasParents s → (i : ℕ) → (outcome_of s i ≡ Blocked) ↔ ((a : ℕ) × IsAbove s.tables.bills a i × (outcome_of s a ≡ Over)) }
    ensures over { (s : Inputs) (code : ℕ → ℕ) → IsRanked s code → HasParents s → (i : ℕ) → (outcome_of s i ≡ Over) ↔ (((a : ℕ) → IsAbove s.tables.bills a i → outcome_of s a ≢ Over) × IsTrue (is_too_large s i (item_plan s i (row (horizon s) (gross_in s i (outcome_of s)))))) }
    // If no item is over, every item is planned.
    ensures planned { (s : Inputs) (code : ℕ → ℕ) → IsRanked s code → HasParents s → first_over s ≡ None → (i : ℕ) → i < count s → outcome_of s i ≡ Planned (plan_in (outcome_of s i)) }
    // The plan is refused by the first item that is over.
    ensures first { (s : Inputs) (i : ℕ) → plan_of s ≡ Err i → (outcome_of s i ≡ Over) × ((j : ℕ) → j < i → outcome_of s j ≢ Over) }
{}
