//! What follows from the definitions, each law the contract of a function that at most calls other laws.

ghost use Rattle.std.specs.Prelude.{◌≡◌, ◌+◌, ◌<◌, ◌≤◌, ◌++◌, ◌∷◌, [], ℕ, List, Ok, Err, codes, length};
ghost use Rattle.mrp_rows.specs.declared.fault.Fault.{Fault};
ghost use Rattle.mrp_rows.specs.Joined.{Part};
ghost use Rattle.mrp_rows.specs.Left.{Cells};
ghost use Rattle.mrp_tables.specs.declared.rows.ScriptRow.{ScriptRow};
ghost use Rattle.mrp_tables.specs.declared.limits.TheConstants.{MOST_ROWS};
ghost use Rattle.mrp_tables.specs.Tables.{Tables};
ghost use Rattle.mrp_book.specs.Standing.{History};
ghost use Rattle.mrp_script.specs.Script.{AnswersScript};
ghost use Rattle.mrp_journal.specs.Held.{IsFront};
ghost use Rattle.mrp_journal.specs.Rows.{IsTable};
ghost use Rattle.mrp_calls.specs.declared.texts.TheConstants.{LEAST_ROOM};
ghost use Rattle.mrp_calls.specs.Answers.{Answers};
ghost use Rattle.mrp_calls.specs.Batches.{AreAnswered};
ghost use Rattle.mrp_calls.specs.CallRecord.{IsRecordLine, ReadsBack, record_text};
ghost use Rattle.mrp_calls.specs.Desk.{Desk};
ghost use Rattle.mrp_calls.specs.Journals.{AnswersFolder, AnswersJournal, GoesOn, IsLeftOpen, IsOneRecord, journal_in, script_in, with_script};
ghost use Rattle.mrp_calls.specs.LineCall.{call_of_line};

use mrp_tables::laws::accepted_tables_are_of_their_texts;

/// What is journalled for a line that makes a call.
pub fn records()
    // It is one line, which begins with a digit.
    ensures line { (t : Tables) (number : ℕ) (line : List ℕ) (r : Cells) (given : ScriptRow) → call_of_line t number line ≡ Ok (r, given) → IsRecordLine (record_text given.call r) }
    // It fits the least room of a folder that takes records.
    ensures short { (t : Tables) (number : ℕ) (line : List ℕ) (r : Cells) (given : ScriptRow) → call_of_line t number line ≡ Ok (r, given) → length (record_text given.call r) ≤ LEAST_ROOM }
    // It is one record, which reads as the line's call.
    ensures back { (t : Tables) (number : ℕ) (line : List ℕ) (r : Cells) (given : ScriptRow) → call_of_line t number line ≡ Ok (r, given) → ReadsBack t r given }
{}

/// A line that is typed as it is journalled.
pub fn lines()
    // It is one record.
    ensures { IsOneRecord (codes "1,run,,,,\n") (codes "1" ∷ codes "run" ∷ [] ∷ [] ∷ [] ∷ [] ∷ []) }
{}

/// A journal that is read as the table `script` of a shop, and the record of a line's call behind it.
pub fn journals()
    // More records can be appended then.
    ensures takes { (t : Tables) (journal line : List ℕ) (script : List ScriptRow) (r : Cells) (given : ScriptRow) → IsTable journal → script_in t.calendar t.items journal ≡ Ok script → length script < MOST_ROWS
        → call_of_line t (length script + 1) line ≡ Ok (r, given) → IsTable (journal ++ record_text given.call r) }
    // It is read as the rows that it had, and behind them the line's call.
    ensures rows { (t : Tables) (journal line : List ℕ) (script : List ScriptRow) (r : Cells) (given : ScriptRow) → IsTable journal → script_in t.calendar t.items journal ≡ Ok script → length script < MOST_ROWS
        → call_of_line t (length script + 1) line ≡ Ok (r, given) → script_in t.calendar t.items (journal ++ record_text given.call r) ≡ Ok (script ++ given ∷ []) }
    // A line of one record that is refused is refused as the journal is that has it behind its records.
    ensures refused { (t : Tables) (journal line : List ℕ) (script : List ScriptRow) (cells : List (List ℕ)) (f : Fault) → IsTable journal → script_in t.calendar t.items journal ≡ Ok script → length script < MOST_ROWS
        → IsOneRecord line cells → call_of_line t (length script + 1) line ≡ Err f → script_in t.calendar t.items (journal ++ line) ≡ Err f }
{}

/// Lines that a desk answered one after the other.
pub fn batches()
    // Each has one answer of one line; what they ask makes entries behind those before, each with its row and its record.
    ensures answered { (lines : List (List ℕ)) (old new : Desk) (answers records : List ℕ) → Answers lines old answers records new → AreAnswered lines old answers records new }
    // Where the entries answer a journal's records, they answer them with these records behind it.
    ensures journal { (lines : List (List ℕ)) (journal : List ℕ) (old new : Desk) (answers records : List ℕ) → AnswersJournal journal old → Answers lines old answers records new → AnswersJournal (journal ++ records) new }
{}

/// A folder with an open desk.
pub fn folders()
    // Its bundle stays one that is accepted, with the records of answered lines behind its journal.
    ensures bundle { (lines : List (List ℕ)) (others : List Part) (journal : List ℕ) (old new : Desk) (answers records : List ℕ) → AnswersFolder others journal old → Answers lines old answers records new
        → AnswersFolder others (journal ++ records) new }
    // The history of its day begins with the desk's entries.
    ensures history { (others : List Part) (journal : List ℕ) (d : Desk) (on : AnswersFolder others journal d) (h : History) → AnswersScript (with_script d.tables on.script) h → GoesOn d on.script h }
{
    accepted_tables_are_of_their_texts();
}

/// A folder with an open desk that a crash has ended while it answered lines.
pub fn crashes()
    // What it leaves, the journal and any front of the lines' records, is begun again as the journal with the records of the first
    // lines, and opens with a desk that has answered these. Lines that were answered earlier have their records.
    ensures { (earlier lines : List (List ℕ)) (others : List Part) (bytes left : List ℕ) (first old new : Desk) (said written answers records : List ℕ)
        → AnswersFolder others (journal_in bytes) first → Answers earlier first said written old → Answers lines old answers records new
        → IsFront (journal_in bytes ++ written) left → IsFront left ((journal_in bytes ++ written) ++ records) → IsLeftOpen lines others (journal_in bytes ++ written) left old }
{
    accepted_tables_are_of_their_texts();
}
