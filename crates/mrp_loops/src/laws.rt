//! Laws of the definitions, each the contract of a function that does nothing.

ghost use Rattle.std.specs.Prelude.{◌≡◌, ◌<◌, ◌↔◌, ℕ, suc, List, All, length, slice_index};
ghost use Rattle.mrp_loops.specs.Loops.{AreRising, IsTold, IsWayBack};
ghost use Rattle.mrp_loops.specs.Needs.{IsFirst, IsWay, NeedEachOther, Needs, line_at};

/// Each set is told once: of two loops the items do not need each other.
pub fn sets()
    ensures { (lines : List _) (firsts : List ℕ) → All (IsFirst lines) firsts → AreRising firsts
        → (j k : ℕ) → j < length firsts → k < length firsts → NeedEachOther lines (slice_index firsts j) (slice_index firsts k) → j ≡ k }
{}

/// No loop is told exactly if no item needs itself.
pub fn none()
    ensures { (lines : List _) (firsts : List ℕ) → All (IsFirst lines) firsts → ((item : ℕ) → Needs lines item item → IsTold lines firsts item)
        → ((length firsts ≡ 0) ↔ ((item : ℕ) → Needs lines item item → ⊥)) }
{}

/// A way's first line leads from its top, each line's component is the next line's parent, and its last
/// line leads to its bottom.
pub fn ways()
    ensures first { (lines : List _) (top bottom : ℕ) (way : List ℕ) → IsWay lines top way bottom → 0 < length way → (line_at lines (slice_index way 0)).parent ≡ top }
    ensures next { (lines : List _) (top bottom k : ℕ) (way : List ℕ) → IsWay lines top way bottom → suc k < length way
        → (line_at lines (slice_index way k)).component ≡ (line_at lines (slice_index way (suc k))).parent }
    ensures last { (lines : List _) (top bottom k : ℕ) (way : List ℕ) → IsWay lines top way bottom → suc k ≡ length way → (line_at lines (slice_index way k)).component ≡ bottom }
{}

/// There is one list of first items, and one shortest way back from each.
pub fn answers()
    ensures firsts { (lines : List _) (a b : List ℕ) → All (IsFirst lines) a → All (IsFirst lines) b → AreRising a → AreRising b
        → ((item : ℕ) → Needs lines item item → IsTold lines a item) → ((item : ℕ) → Needs lines item item → IsTold lines b item) → a ≡ b }
    ensures ways { (lines : List _) (item : ℕ) (a b : List ℕ) → IsWayBack lines item a → IsWayBack lines item b → a ≡ b }
{}
