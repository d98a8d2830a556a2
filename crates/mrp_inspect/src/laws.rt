//! What follows from the definitions alone, each law the contract of a function that does nothing.

ghost use Rattle.std.specs.Prelude.{◌≡◌, ◌+◌, ◌++◌, ℕ, List, false, flat_map, string_bytes, true};
ghost use Rattle.mrp_rows.specs.declared.fault.Fault.{Fault};
ghost use Rattle.mrp_tables.specs.Tables.{Tables};
ghost use Rattle.mrp_script.specs.Opened.{IsAccepted, IsRefused};
ghost use Rattle.mrp_survey.specs.LineLaws.{line_ends};
ghost use Rattle.mrp_inspect.specs.declared.found.Found.{Found};
ghost use Rattle.mrp_inspect.specs.declared.inspecting.Inspected.{Inspected};
ghost use Rattle.mrp_inspect.specs.Inspected.{Inspects, LeadsWith, bundle_in};
ghost use Rattle.mrp_inspect.specs.Lines.{at_front, counted_all};

/// Faults are told exactly where planning refuses the tables. The first line tells the fault that planning tells, by its number, its
/// table and its record, and has its text behind it.
pub fn faults_are_of_refused_tables()
    ensures accepted { (found : Found) (result : Inspected) (tables : Tables) → Inspects found result → IsAccepted (bundle_in found) tables → result.has_faults ≡ false }
    ensures refused { (found : Found) (result : Inspected) (fault : Fault) → Inspects found result → IsRefused (bundle_in found) fault → result.has_faults ≡ true }
    ensures first { (found : Found) (result : Inspected) (fault : Fault) → Inspects found result → IsRefused (bundle_in found) fault → LeadsWith found fault (flat_map string_bytes result.texts.items) }
{}

/// The line of a byte is one more than the line ends in front of it, also where bytes are counted piece by piece.
pub fn lines_are_behind_line_ends()
    ensures ends { (bytes : List ℕ) → (counted_all at_front bytes).line ≡ 1 + line_ends false bytes }
    ensures pieces { (first second : List ℕ) → counted_all (counted_all at_front first) second ≡ counted_all at_front (first ++ second) }
{}
