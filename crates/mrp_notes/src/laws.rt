//! What follows from the definitions alone, each law the contract of a function that does nothing.

ghost use Rattle.std.specs.Prelude.{◌≡◌, ◌<◌, ◌≤◌, ◌+◌, ℕ, All, Contains, List, count_by, length, map, false, Some, None};
ghost use Rattle.mrp_phase.specs.Weeks.{sum_to};
ghost use Rattle.mrp_net.specs.declared.stock.Stock.{Stock};
ghost use Rattle.mrp_item.specs.Inputs.{Inputs};
ghost use Rattle.mrp_item.specs.Plan.{ItemPlan};
ghost use Rattle.mrp_notes.specs.Messages.{messages_of};
ghost use Rattle.mrp_notes.specs.Needs.{is_rescheduling, need_week, rescheduling};
ghost use Rattle.mrp_notes.specs.Release.{is_fixed};
ghost use Rattle.mrp_notes.specs.Told.{advice_on};
ghost use Rattle.mrp_item.specs.declared.supplies.Supply.{Supply};
ghost use Rattle.mrp_item.specs.Supplies.{supplies_to_come};

/// A supply is needed in the first week whose requirements, summed up to it, and safety stock
/// exceed what is supplied before it.
pub fn need_weeks()
    ensures within { (gross : List ℕ) (safety supplied week : ℕ) → need_week gross safety supplied ≡ Some week → (0 < week) × (week ≤ length gross) }
    ensures short { (gross : List ℕ) (safety supplied week : ℕ) → need_week gross safety supplied ≡ Some week → supplied < sum_to gross week + safety }
    ensures first { (gross : List ℕ) (safety supplied week : ℕ) → need_week gross safety supplied ≡ Some week → (before : ℕ) → 0 < before → before < week → sum_to gross before + safety ≤ supplied }
    // There is none exactly if all weeks are covered, which the last week decides.
    ensures none { (gross : List ℕ) (safety supplied : ℕ) → need_week gross safety supplied ≡ None → (week : ℕ) → 0 < week → week ≤ length gross → sum_to gross week + safety ≤ supplied }
    // With more supplied before it, a supply is needed no earlier.
    ensures rises { (gross : List ℕ) (safety supplied more week : ℕ) → supplied ≤ more → need_week gross safety more ≡ Some week → (earlier : ℕ) × (need_week gross safety supplied ≡ Some earlier) × (earlier ≤ week) }
{}

/// No message moves a supply that is needed in the week in which it is due, nor a planned order.
pub fn stays()
    ensures needed { (gross : List ℕ) (safety supplied : ℕ) (x : Supply) → need_week gross safety supplied ≡ Some x.week → rescheduling gross safety supplied x ≡ None }
    ensures planned { (gross : List ℕ) (safety supplied : ℕ) (x : Supply) → is_fixed x ≡ false → rescheduling gross safety supplied x ≡ None }
{}

/// Each message of an item's plan names that item and one of its supplies.
pub fn supplies()
    ensures item { (s : Inputs) (i : ℕ) (plan : ItemPlan) → All (λ m. m.item ≡ i) (messages_of s i plan) }
    ensures supply { (s : Inputs) (i : ℕ) (plan : ItemPlan) → All (λ m. Contains (map (λ x. x.source) (supplies_to_come s i plan.orders)) m.supply) (messages_of s i plan) }
{}

/// At most one message reschedules or cancels a supply.
pub fn once()
    ensures { (supplies : List Supply) (gross : List ℕ) (stock : Stock) (place : ℕ) (x : Supply) → count_by is_rescheduling (advice_on gross stock supplies place x) ≤ 1 }
{}
