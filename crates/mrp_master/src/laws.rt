//! What follows from the definitions alone, each law the contract of a function that does nothing.

ghost use Rattle.std.specs.Prelude.{◌≡◌, ◌≢◌, ◌↔◌, ◌+◌, ◌-◌, ◌++◌, ◌∷◌, [], List, Option, ℕ, length};
ghost use Rattle.mrp_phase.specs.Weeks.{in_week, sum_to};
ghost use Rattle.mrp_master.specs.AtpRow.{AtpRow, FromFirst, IsAtpRow, IsAvailableIn, IsCoveredRow, IsEarliestIn, IsNextOpening, IsWeekOf, atp_row, booked_until, bucket, buckets_to, lacking_from, with_booking, without_booking};
ghost use Rattle.mrp_master.specs.Supply.{CanPromise, IsAvailable, IsCovered, IsEarliest, IsLeastFrom, IsMaster, IsSupply, IsWeek, Supply, available, due_by, line, supply, uncommitted};

/// What is available to promise.
pub fn promising()
    // It is the least of cumulative supply less bookings, over the weeks from this one on.
    ensures least { (s : Supply) (lines : List _) (item week quantity : ℕ) → IsMaster s item → IsWeek s week → IsCovered s lines → IsLeastFrom (uncommitted s lines item) week s.weeks quantity → IsAvailable s lines item week quantity }
    ensures is_least { (s : Supply) (lines : List _) (item week quantity : ℕ) → IsMaster s item → IsWeek s week → IsAvailable s lines item week quantity → IsLeastFrom (uncommitted s lines item) week s.weeks quantity }
    // There is exactly one such quantity.
    ensures some { (s : Supply) (lines : List _) (item week : ℕ) → IsMaster s item → IsWeek s week → IsCovered s lines → IsAvailable s lines item week (available s lines item week) }
    ensures one { (s : Supply) (lines : List _) (item week p q : ℕ) → IsAvailable s lines item week p → IsAvailable s lines item week q → p ≡ q }
    // A quantity can be promised exactly if one more line of that quantity leaves all covered.
    ensures fits { (s : Supply) (lines : List _) (item week quantity : ℕ) → IsMaster s item → IsWeek s week → IsCovered s lines
        → CanPromise s lines item quantity week ↔ IsCovered s (lines ++ line item week quantity ∷ []) }
{}

/// The first week in which a quantity can be promised.
pub fn earliest()
    // There is exactly one such week, or there is none.
    ensures some { (s : Supply) (lines : List _) (item quantity : ℕ) → IsMaster s item → IsCovered s lines → (found : Option ℕ) × IsEarliest s lines item quantity found }
    ensures one { (s : Supply) (lines : List _) (item quantity : ℕ) (v w : Option ℕ) → IsEarliest s lines item quantity v → IsEarliest s lines item quantity w → v ≡ w }
{}

/// The row of an item: its supply, and the bookings due.
pub fn rows()
    // Up to each week of the horizon it has the item's supply, and the quantity due by the lines.
    ensures supply { (s : Supply) (lines : List _) (item week : ℕ) → IsSupply s → IsWeek s week → sum_to (atp_row s item lines).supply week ≡ supply s item week }
    ensures booked { (s : Supply) (lines : List _) (item week : ℕ) → FromFirst lines → IsWeek s week → sum_to (atp_row s item lines).booked week ≡ due_by item week lines }
    // A master item's row is covered if the lines are.
    ensures covered { (s : Supply) (lines : List _) (item : ℕ) → IsSupply s → IsMaster s item → FromFirst lines → IsCovered s lines → IsAtpRow (atp_row s item lines) }
    // The same quantities fit the row and the lines, the same is available, and from the same week on.
    ensures fits { (s : Supply) (lines : List _) (item week quantity : ℕ) → IsSupply s → IsMaster s item → FromFirst lines → IsCovered s lines → IsWeek s week
        → IsCoveredRow (with_booking (atp_row s item lines) week quantity) ↔ IsCovered s (lines ++ line item week quantity ∷ []) }
    ensures available { (s : Supply) (lines : List _) (item week quantity : ℕ) → IsSupply s → IsMaster s item → FromFirst lines → IsCovered s lines → IsWeek s week
        → IsAvailableIn (atp_row s item lines) week quantity ↔ IsAvailable s lines item week quantity }
    ensures earliest { (s : Supply) (lines : List _) (item quantity : ℕ) (found : Option ℕ) → IsSupply s → IsMaster s item → FromFirst lines → IsCovered s lines
        → IsEarliestIn (atp_row s item lines) quantity found ↔ IsEarliest s lines item quantity found }
    // A line of the item is a booking of its row, and of no other.
    ensures more { (s : Supply) (lines : List _) (item week quantity : ℕ) → IsWeek s week → with_booking (atp_row s item lines) week quantity ≡ atp_row s item (lines ++ line item week quantity ∷ []) }
    ensures more_of_another { (s : Supply) (lines : List _) (item other week quantity : ℕ) → item ≢ other → atp_row s item (lines ++ line other week quantity ∷ []) ≡ atp_row s item lines }
    ensures less { (s : Supply) (before after : List _) (item week quantity : ℕ) → IsWeek s week
        → without_booking (atp_row s item (before ++ line item week quantity ∷ after)) week quantity ≡ atp_row s item (before ++ after) }
    ensures less_of_another { (s : Supply) (before after : List _) (item other week quantity : ℕ) → item ≢ other
        → atp_row s item (before ++ line other week quantity ∷ after) ≡ atp_row s item (before ++ after) }
{}

/// The buckets of a row.
pub fn buckets()
    // Up to a week they add up to what is available in it.
    ensures available { (r : AtpRow) (week : ℕ) → IsAtpRow r → IsWeekOf r week → IsAvailableIn r week (buckets_to r week) }
    ensures promised { (s : Supply) (lines : List _) (item week : ℕ) → IsSupply s → IsMaster s item → FromFirst lines → IsCovered s lines → IsWeek s week
        → IsAvailable s lines item week (buckets_to (atp_row s item lines) week) }
    // A week without supply has an empty one.
    ensures empty { (r : AtpRow) (week : ℕ) → in_week r.supply week ≡ 0 → bucket r week ≡ 0 }
    // A week with supply opens one: it holds the supply, less what is due before the next one opens and what that one lacks.
    ensures opening { (r : AtpRow) (week next : ℕ) → IsWeekOf r week → IsNextOpening r week next → bucket r week ≡ in_week r.supply week - (booked_until r week next + lacking_from r next) }
    // It lacks the excess of these over the supply, and so on back from the last one, after which nothing is lacking.
    ensures overdrawn { (r : AtpRow) (week next : ℕ) → IsWeekOf r week → IsNextOpening r week next → lacking_from r week ≡ (booked_until r week next + lacking_from r next) - in_week r.supply week }
    ensures last { (r : AtpRow) → lacking_from r (length r.supply + 1) ≡ 0 }
{}
