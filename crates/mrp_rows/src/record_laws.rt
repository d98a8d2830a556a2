//! Laws of records and of numbers in cells.

ghost use Rattle.std.specs.Prelude.{◌≡◌, ◌<◌, ◌≤◌, ◌^◌, ◌++◌, ◌∷◌, ℕ, List, Ok, decimal, length, replicate, true};
ghost use Rattle.std.specs.Char.{is_ascii_digit};
ghost use Rattle.std.specs.List.{list_all};
ghost use Rattle.csv.specs.Reading.{AreRecords, default_config, strip_bom};
ghost use Rattle.csv.specs.declared.parser.State.TheVariants as st;
ghost use Rattle.mrp_qty.specs.Digits.{value_of};
ghost use Rattle.mrp_rows.specs.Cell.{number_cell};
ghost use Rattle.mrp_rows.specs.Records.{records_of};

/// The records of a text are those that csv reads from it with its default dialect, up to its end,
/// and no others are.
pub fn records_are_csv()
    ensures all { (text : List ℕ)
        → AreRecords default_config st.StartRecord (strip_bom text) (records_of text) }
    ensures only { (text : List ℕ) (rows : List (List (List ℕ)))
        → AreRecords default_config st.StartRecord (strip_bom text) rows
        → rows ≡ records_of text }
{}

/// A number's decimal text reads as the number, if it is within the limits; leading zeros change
/// nothing; and what reads as a number is one or more digits, and its value is within the limits.
pub fn numbers_in_cells()
    ensures decimal_text { (n least most : ℕ) → n < 2 ^ 64 → least ≤ n → n ≤ most
        → number_cell least most (decimal n) ≡ Ok n }
    ensures leading_zeros { (zeros least most byte : ℕ) (bytes : List ℕ)
        → number_cell least most (replicate zeros 48 ++ (byte ∷ bytes))
        ≡ number_cell least most (byte ∷ bytes) }
    ensures digits_alone { (n least most : ℕ) (cell : List ℕ) → number_cell least most cell ≡ Ok n
        → (0 < length cell) × (list_all is_ascii_digit cell ≡ true) × (value_of cell ≡ n)
        × (least ≤ n) × (n ≤ most) }
{}
