//! Laws of the definitions, each the contract of a function that does nothing.

ghost use Rattle.std.specs.Prelude.{◌≡◌, ◌≢◌, ◌≤◌, ◌<◌, ◌^◌, ℕ, List, [], ◌∷◌, decimal, filter, Ok};
ghost use Rattle.std.specs.Char.{is_ascii_digit};
ghost use Rattle.mrp_qty.specs.Digits.{number_of, value_of};
ghost use Rattle.mrp_qty.specs.Minutes.{minutes_text_of};

/// A number's decimal text reads as the number, and a leading zero changes nothing.
pub fn numbers_read_back()
    ensures back { (max number : ℕ) → number ≤ max → number < 2 ^ 64
        → number_of max (decimal number) ≡ Ok number }
    ensures leading_zero { (max : ℕ) (text : List ℕ) → text ≢ []
        → number_of max (48 ∷ text) ≡ number_of max text }
{}

/// The digits of a time's text, without the point, read as its thousandths.
pub fn minutes_read_back()
    ensures { (time : ℕ) → time < 10 ^ 64
        → value_of (filter is_ascii_digit (minutes_text_of time)) ≡ time }
{}
