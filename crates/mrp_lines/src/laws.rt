//! What follows from the definitions alone, each law the contract of a function that does nothing.

ghost use Rattle.std.specs.Prelude.{◌≡◌, ◌⊎◌, ◌++◌, ◌∷◌, [], List, Some, true, ℕ};
ghost use Rattle.std.specs.List.{join_with_byte};
ghost use Rattle.csv.specs.Machine.{next_record};
ghost use Rattle.csv.specs.Reading.{default_config};
ghost use Rattle.csv.specs.declared.parser.State.TheVariants as st;
ghost use Rattle.mrp_lines.specs.Lines.{IsEndless, IsPlainLine, cells_of, ends};
ghost use Rattle.mrp_lines.specs.Taken.{AreRecordsOf, BeginsWith, HasBroken, HasLong, IsTaken};

/// A line without quotes, and its line feed, are one record of csv: what stands between its commas.
pub fn lines_are_records()
    ensures next { (line rest : List ℕ) → IsPlainLine line → next_record default_config st.StartRecord [] [] (line ++ (10 ∷ rest)) ≡ Some (cells_of line, st.StartRecord, rest) }
    ensures whole { (line : List ℕ) → join_with_byte 44 (cells_of line) ≡ line }
{}

/// The records of lines that were taken off a text, and then those that csv reads of the rest, are the records that
/// csv reads of the text.
pub fn the_rest_is_read_by_csv()
    ensures all { (text front rest : List ℕ) (taken more : List (List (List ℕ))) → IsTaken text taken front rest → AreRecordsOf (front ++ rest) more → AreRecordsOf text (taken ++ more) }
    ensures first { (text front rest : List ℕ) (taken more : List (List (List ℕ))) → IsTaken text taken front rest → BeginsWith (front ++ rest) more → BeginsWith text (taken ++ more) }
{}

/// csv may read a text of lines in pieces of whole lines, unless a cell has the end of a line: then a cell of the text has
/// one, too, in the same record or a longer one in its place. 65,536 bytes of one line make a record of no day.
pub fn lines_are_read_in_pieces()
    ensures taken { (text front xs more : List ℕ) (taken rows : List (List (List ℕ))) → IsTaken text taken front (xs ++ more) → ends xs ≡ true → AreRecordsOf (front ++ xs) rows → IsTaken text (taken ++ rows) (10 ∷ []) more ⊎ HasBroken text taken rows }
    ensures first { (text front xs more : List ℕ) (taken rows : List (List (List ℕ))) → IsTaken text taken front (xs ++ more) → ends xs ≡ true → BeginsWith (front ++ xs) rows → BeginsWith text (taken ++ rows) ⊎ HasBroken text taken rows }
    ensures long { (text front xs more : List ℕ) (taken : List (List (List ℕ))) → IsTaken text taken front (xs ++ more) → IsEndless xs → HasLong text taken }
{}
