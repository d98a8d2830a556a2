//! Laws of the definitions, each the contract of a function that does nothing.

ghost use Rattle.std.specs.Prelude.{◌≡◌, ◌<◌, ◌==◌, ◌⊎◌, ◌↔◌, ℕ, List, length, map, filter, slice_index};
ghost use Rattle.mrp_bill.specs.Bill.{AreCodes, AreWithin, Chain, IsCode, IsFirstLoop, IsLoopPath, IsOrder, IsParent, IsPath, NeedsItself, line_at, lines_of};
ghost use Rattle.mrp_bill.specs.Shop.{IsShop, Shop};
ghost use Rattle.mrp_tables.specs.Tables.{Tables};

/// Codes that rise along each line, each above 0 one above a parent's, are the low-level codes, and an
/// item has only one; and then no item needs itself.
pub fn codes()
    ensures no_loop { (lines : List _) (code : ℕ → ℕ) → AreCodes lines code → (i : ℕ) → NeedsItself lines i → ⊥ }
    ensures greatest { (lines : List _) (code : ℕ → ℕ) → AreCodes lines code → (i : ℕ) → IsCode lines i (code i) }
    ensures one { (lines : List _) (i m n : ℕ) → IsCode lines i m → IsCode lines i n → m ≡ n }
{}

/// Shops of equal tables are equal.
pub fn shops()
    ensures { (a b : _) → IsShop a → IsShop b → a.tables ≡ b.tables → a ≡ b }
{}

/// A chain of lines is a path that visits an item with each line, and a loop's path is a chain that
/// leads from its item to itself.
pub fn paths()
    ensures chains { (lines : List _) (n a b : ℕ) → Chain lines n a b ↔ ((rest : List ℕ) × (length rest ≡ n) × IsPath lines a rest b) }
    ensures loops { (lines : List _) (path : List ℕ) → IsLoopPath lines path → NeedsItself lines (slice_index path 0) }
{}

/// A bill has a first item that needs itself, or no item needs itself and each has a low-level code;
/// and its tables have the path of a loop, or are a shop.
pub fn loops()
    ensures first { (count : ℕ) (lines : List _) → AreWithin count lines → ((i : ℕ) × IsFirstLoop lines i) ⊎ (((i : ℕ) → NeedsItself lines i → ⊥) × ((i : ℕ) → (n : ℕ) × IsCode lines i n)) }
    ensures shop { (tables : Tables) → AreWithin (length tables.items) tables.bills → ((path : List ℕ) × IsLoopPath tables.bills path) ⊎ ((shop : Shop) × IsShop shop × (shop.tables ≡ tables)) }
{}

/// The lines at an item's line places are those in which it is the component, in table order.
pub fn lines()
    ensures { (lines : List _) (i : ℕ) → map (line_at lines) (lines_of lines i) ≡ filter (λ line. line.component == i) lines }
{}

/// In an order of all items, each parent of an item has a place before the item's.
pub fn orders()
    ensures { (lines : List _) (count : ℕ) (order : List ℕ) → AreWithin count lines → IsOrder lines count order →
        (k p : ℕ) → k < length order → IsParent lines p (slice_index order k) →
        (j : ℕ) × (j < k) × (slice_index order j ≡ p) }
{}
