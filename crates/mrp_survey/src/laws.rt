//! What follows from the definitions alone, each law the contract of a function that does nothing.

ghost use Rattle.std.specs.Prelude.{ℕ, ◌≡◌, ◌+◌, false, List, Option};
ghost use Rattle.std.specs.List.{take_while};
ghost use Rattle.mrp_rows.specs.Bundle.{ends_line};
ghost use Rattle.mrp_survey.specs.declared.bill_lines.BillLine.{BillLine};
ghost use Rattle.mrp_survey.specs.declared.form.Form.{Form};
ghost use Rattle.mrp_survey.specs.declared.rule.Beside.{Beside};
ghost use Rattle.mrp_survey.specs.CellLaws.{TellsEachCell, TellsEachRecord};
ghost use Rattle.mrp_survey.specs.Entry.{Entry};
ghost use Rattle.mrp_survey.specs.Forms.{AllCells};
ghost use Rattle.mrp_survey.specs.LineLaws.{AreLinesOf, line_ends};
ghost use Rattle.mrp_survey.specs.Lines.{at_start, line_behind};
ghost use Rattle.mrp_survey.specs.LoopLaws.{TellsEachItem};
ghost use Rattle.mrp_survey.specs.Loops.{AreFound};
ghost use Rattle.mrp_survey.specs.Names.{Names};
ghost use Rattle.mrp_survey.specs.Records.{Records};
ghost use Rattle.mrp_survey.specs.Surveyed.{LoopTold};

/// Each record of a text has a line, that of its first byte: one more than the line ends in front of it.
pub fn lines_are_of_first_bytes()
    ensures { (line : ℕ) (text : List ℕ) → AreLinesOf line text }
{}

/// The text of a table's own file begins as many lines behind the first as it has line ends in front of it.
pub fn files_begin_behind_line_ends()
    ensures { (bytes : List ℕ) → line_behind (at_start 1) bytes ≡ 1 + line_ends false (take_while ends_line bytes) }
{}

/// Of a record with a cell for each column, each cell that is not of its kind is told once, from the left, and no other is.
pub fn each_wrong_cell_is_told()
    ensures { (entry : Entry) → TellsEachCell entry }
{}

/// Of each record within its table's limit all that is wrong with it is told, and nothing else.
pub fn each_record_is_told()
    ensures { (form : Form) (beside : Beside) (records : Records) (rows : List AllCells) → TellsEachRecord form beside records rows }
{}

/// Each item that needs itself is in a set that is told, by bill lines that lead from an item to itself.
pub fn each_item_that_needs_itself_is_told()
    ensures { (items : Option Names) (records : Records) (lines : List BillLine) (found : List LoopTold) → AreFound items records lines found → TellsEachItem items records lines found }
{}
