//! What follows from the definitions, each law the contract of a function that does nothing.

ghost use Rattle.std.specs.Prelude.{◌≡◌, ◌≤◌, ◌++◌, ◌∷◌, [], ℕ, List, All, length, take};
ghost use Rattle.std.specs.List.{concat, flat_map};
ghost use Rattle.mrp_journal.specs.Held.{IsFront};
ghost use Rattle.mrp_journal.specs.Journal.{begun};
ghost use Rattle.mrp_journal.specs.Lines.{IsLine, whole_lines};
ghost use Rattle.mrp_journal.specs.Rows.{IsRecord, IsRow, IsTable, row};
ghost use Rattle.mrp_journal.specs.Table.{TakesRecords, header_for, script_header, script_names, table_records};

/// The whole lines of a text.
pub fn lines()
    // They are a front of it, and their own whole lines.
    ensures front { (text : List ℕ) → IsFront (whole_lines text) text }
    ensures own { (text : List ℕ) → whole_lines (whole_lines text) ≡ whole_lines text }
    // Those of a front are a front of those of the text.
    ensures fronts { (front text : List ℕ) → IsFront front text → IsFront (whole_lines front) (whole_lines text) }
{}

/// A journal of whole lines, with records behind it.
pub fn journals()
    // It has whole lines alone.
    ensures whole { (journal : List ℕ) (records : List (List ℕ)) → whole_lines journal ≡ journal → All IsLine records
        → whole_lines (journal ++ concat records) ≡ journal ++ concat records }
    // Where a crash leaves the journal and a front of the records, its whole lines are the journal and the first of the records.
    ensures left { (journal left : List ℕ) (records : List (List ℕ)) → whole_lines journal ≡ journal → All IsLine records
        → IsFront journal left → IsFront left (journal ++ concat records)
        → (count : ℕ) × (count ≤ length records) × (whole_lines left ≡ journal ++ concat (take count records)) }
{}

/// A journal that has begun.
pub fn beginnings()
    // It is a table, if more records can be appended to it.
    ensures { (bytes : List ℕ) → TakesRecords (begun bytes (header_for (whole_lines bytes))) → IsTable (begun bytes (header_for (whole_lines bytes))) }
{}

/// A journal with records, and a row of csv appended to it.
pub fn tables()
    // It takes more rows, and in a bundle has the records that it had, and the row's behind them.
    ensures takes { (journal x y : List ℕ) (ys : List (List ℕ)) → IsTable journal → IsRow (row (x ∷ y ∷ ys)) → IsTable (journal ++ row (x ∷ y ∷ ys)) }
    ensures records { (journal x y : List ℕ) (ys : List (List ℕ)) → IsTable journal → IsRow (row (x ∷ y ∷ ys))
        → table_records (journal ++ row (x ∷ y ∷ ys)) ≡ table_records journal ++ (x ∷ y ∷ ys) ∷ [] }
{}

/// A journal that begins in an empty file, and records appended to it as rows of csv.
pub fn new_journals()
    // It begins with the header.
    ensures header { begun [] (header_for (whole_lines [])) ≡ script_header }
    // It takes records, however many it has.
    ensures takes { (records : List (List (List ℕ))) → All IsRecord records → IsTable (script_header ++ flat_map row records) }
    // In a bundle it has the header and these records.
    ensures records { (records : List (List (List ℕ))) → All IsRecord records → table_records (script_header ++ flat_map row records) ≡ script_names ∷ records }
{}

/// A journal that a crash has left, begun again.
pub fn restarts()
    // It is the journal that had begun, with the first of the records behind it: no header is appended a second time.
    ensures { (bytes left : List ℕ) (records : List (List ℕ)) → TakesRecords (begun bytes (header_for (whole_lines bytes))) → All IsLine records
        → IsFront (begun bytes (header_for (whole_lines bytes))) left → IsFront left (begun bytes (header_for (whole_lines bytes)) ++ concat records)
        → (count : ℕ) × (count ≤ length records) × (begun left (header_for (whole_lines left)) ≡ begun bytes (header_for (whole_lines bytes)) ++ concat (take count records)) }
{}
