//! What follows from the definitions alone, each law the contract of a function that does nothing.

ghost use Rattle.std.specs.Prelude.{◌≡◌, ◌<◌, ℕ, Contains, List, Option, Some, length};
ghost use Rattle.std.specs.List.{slice_get};
ghost use Rattle.mrp_tables.specs.Items.{item_at};
ghost use Rattle.mrp_tables.specs.declared.item.Item.{Item};
ghost use Rattle.mrp_warn.specs.Names.{name_at};
ghost use Rattle.mrp_warn.specs.Rows.{told};
ghost use Rattle.mrp_warn.specs.declared.oddity.Oddity.{Oddity};
ghost use Rattle.mrp_warn.specs.declared.oddity.Warning.{Warning};

/// The warnings of a kind are of the records that have its condition.
pub fn warnings_are_of_their_records<T>()
    // Each record that has it has one, at its place.
    ensures each { (odd : ℕ → T → Option Oddity) (rows : List T) (place : ℕ) (row : T) (found : Oddity) → slice_get rows place ≡ Some row → odd place row ≡ Some found
        → Contains (told odd rows) (record { place = Some place; oddity = found }) }
    // Each is of such a record.
    ensures only { (odd : ℕ → T → Option Oddity) (rows : List T) (w : Warning) → Contains (told odd rows) w
        → (place : ℕ) × (row : T) × (found : Oddity) × (slice_get rows place ≡ Some row) × (odd place row ≡ Some found) × (w ≡ record { place = Some place; oddity = found }) }
{}

/// Each place of accepted items has a name, so none of their names is missing in a warning.
pub fn places_have_names()
    ensures { (items : List Item) (place : ℕ) → place < length items → name_at items place ≡ Some (item_at items place).name }
{}
