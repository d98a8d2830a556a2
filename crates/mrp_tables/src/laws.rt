//! What holds of every table's rows and of every bundle's tables, by the definitions alone.

ghost use Rattle.std.specs.Prelude.{◌≡◌, ℕ, List, Ok, Err};
ghost use Rattle.mrp_rows.specs.declared.fault.Fault.{Fault};
ghost use Rattle.mrp_rows.specs.Columns.{Layout};
ghost use Rattle.mrp_rows.specs.Left.{Cells};
ghost use Rattle.mrp_tables.specs.Laws.{AreOfTheirTexts, FaultsAtTheirRecords, HasOneReading, IsAdmittedFirst, IsFirstTablesFault, IsReadInTurn, IsReportedAtItsTable};
ghost use Rattle.mrp_tables.specs.Reading.{Reads};
ghost use Rattle.mrp_tables.specs.Tables.{AreTables, Tables, tables_in};

/// A table's rows are its records read one by one, each after the rows before it; a fault is the
/// header's, or that of the first record that cannot be read after the ones before it.
pub fn records_are_read_in_turn<T>()
    ensures { (read : Reads T) (own : Layout) (text : List ℕ) → IsReadInTurn read own text }
{}

/// The limit of records is checked before the count of cells, and this before the cells.
pub fn records_are_admitted_first<T>()
    ensures { (read : Reads T) (own : Layout) (before : List T) (r : Cells) → IsAdmittedFirst read own before r }
{}

/// A fault of a record names the record's table and number.
pub fn faults_stand_at_their_records()
    ensures { FaultsAtTheirRecords }
{}

/// A bundle's fault is reported at its table, and every table before that one is read whole.
pub fn faults_are_reported_at_their_tables()
    ensures { (texts : List (List ℕ)) (f : Fault) → tables_in texts ≡ Err f → IsReportedAtItsTable texts f }
{}

/// The tables are read in their order: the first one that is not read whole gives the fault.
pub fn tables_are_read_in_turn()
    ensures { (texts : List (List ℕ)) → IsFirstTablesFault texts }
{}

/// Each table of an accepted bundle is what its own text reads as: the calendar, the items and the
/// centres by themselves, and the others together with the tables that they refer to.
pub fn accepted_tables_are_of_their_texts()
    ensures { (texts : List (List ℕ)) (tables : Tables) → tables_in texts ≡ Ok tables
        → AreOfTheirTexts texts tables }
{}

/// What holds of accepted tables follows from their texts alone: rows within their limits, of items
/// that exist and weeks of the horizon.
pub fn accepted_tables_keep_their_limits()
    ensures { (texts : List (List ℕ)) (tables : Tables) → tables_in texts ≡ Ok tables → AreTables tables }
{}

/// Texts have tables, which keep their limits, or a fault, which is reported at its table: exactly one
/// of these.
pub fn texts_have_one_reading()
    ensures { (texts : List (List ℕ)) → HasOneReading texts }
{}
