//! What follows from the definitions alone, each law the contract of a function that does nothing.

ghost use Rattle.std.specs.Prelude.{◌≡◌, ◌<◌, ◌≤◌, ◌+◌, ◌*◌, ℕ};
ghost use Rattle.mrp_net.specs.Need.{IsNeed};
ghost use Rattle.mrp_lots.specs.Lots.{IsLotRule, Rule, fixed, last_of, lot_for_lot, period, receipts, stepped};

/// Lot for lot, fixed order quantity, and fixed period requirements with or without a minimum order
/// quantity and an order multiple, cover the net requirements, and order nothing where they are
/// covered.
pub fn rules()
    ensures lot_for_lot { IsLotRule lot_for_lot }
    ensures fixed { (size : ℕ) → 0 < size → IsLotRule (fixed size) }
    ensures period { (n : ℕ) → 0 < n → IsLotRule (period n) }
    ensures stepped { (n least step : ℕ) → 0 < n → 0 < step → IsLotRule (stepped n least step) }
{}

/// Lots cover the net requirements, order nothing where they are covered, and never take a receipt
/// back.
pub fn lots()
    ensures covers { (rule : Rule) → IsLotRule rule → (horizon : ℕ) (need : ℕ → ℕ) → IsNeed horizon need → (t : ℕ) → 0 < t → t ≤ horizon → need t ≤ receipts rule horizon need t }
    ensures idle { (rule : Rule) → IsLotRule rule → (horizon : ℕ) (need : ℕ → ℕ) → IsNeed horizon need → (t : ℕ) → t + 1 ≤ horizon → need (t + 1) ≤ receipts rule horizon need t → receipts rule horizon need (t + 1) ≡ receipts rule horizon need t }
    ensures rises { (rule : Rule) → IsLotRule rule → (horizon : ℕ) (need : ℕ → ℕ) → IsNeed horizon need → (s t : ℕ) → s ≤ t → t ≤ horizon → receipts rule horizon need s ≤ receipts rule horizon need t }
{}

/// Fixed lots are whole multiples of their size, and the least that cover the net requirements.
pub fn fixed_lots()
    ensures covers { (size horizon : ℕ) (need : ℕ → ℕ) (t : ℕ) → 0 < size → 0 < t → need t ≤ receipts (fixed size) horizon need t }
    ensures least { (size horizon : ℕ) (need : ℕ → ℕ) (t k : ℕ) → 0 < size → 0 < t → need t ≤ size * k → receipts (fixed size) horizon need t ≤ size * k }
{}

/// Lots for a period of one week are lot for lot.
pub fn one_week()
    ensures { (horizon : ℕ) (need : ℕ → ℕ) (t : ℕ) → IsNeed horizon need → t ≤ horizon → receipts (period 1) horizon need t ≡ receipts lot_for_lot horizon need t }
{}

/// With a minimum order quantity and an order multiple, each order is a whole multiple, at least the
/// minimum, and the least such order that covers the net requirements of its period.
pub fn stepped_orders()
    ensures multiple { (n least step horizon : ℕ) (need : ℕ → ℕ) (t : ℕ) → (k : ℕ) × (receipts (stepped n least step) horizon need (t + 1) ≡ receipts (stepped n least step) horizon need t + step * k) }
    ensures minimum { (n least step horizon : ℕ) (need : ℕ → ℕ) (t : ℕ) → 0 < step → receipts (stepped n least step) horizon need t < receipts (stepped n least step) horizon need (t + 1) → receipts (stepped n least step) horizon need t + least ≤ receipts (stepped n least step) horizon need (t + 1) }
    ensures smallest { (n least step horizon : ℕ) (need : ℕ → ℕ) (t k : ℕ) → 0 < step → need (last_of horizon n (t + 1)) ≤ receipts (stepped n least step) horizon need t + step * k → least ≤ step * k → receipts (stepped n least step) horizon need (t + 1) ≤ receipts (stepped n least step) horizon need t + step * k }
{}

/// With a minimum order quantity of 0 pieces and an order multiple of 1, lots are fixed period
/// requirements, and those for a period of one week are lot for lot.
pub fn single_pieces()
    ensures period { (n horizon : ℕ) (need : ℕ → ℕ) (t : ℕ) → 0 < n → IsNeed horizon need → t ≤ horizon → receipts (stepped n 0 1) horizon need t ≡ receipts (period n) horizon need t }
    ensures lot_for_lot { (horizon : ℕ) (need : ℕ → ℕ) (t : ℕ) → IsNeed horizon need → t ≤ horizon → receipts (stepped 1 0 1) horizon need t ≡ receipts lot_for_lot horizon need t }
{}
