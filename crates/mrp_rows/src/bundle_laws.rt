//! What holds of every bundle, by the definitions alone.

ghost use Rattle.std.specs.Prelude.{ℕ, List};
ghost use Rattle.mrp_rows.specs.declared.fault.Table.{Table};
ghost use Rattle.mrp_rows.specs.Joined.{ComeApart, Part};
ghost use Rattle.mrp_rows.specs.Together.{PartsAreTogether, HasNoOther, DropsOneMark, NamesItsTable, TextsAreSections};

/// The text before the first section line, and each section line with what follows it, make up the
/// bundle.
pub fn parts_are_together()
    ensures { (bytes : List ℕ) → PartsAreTogether bytes }
{}

/// There is no section line in the text of a section, nor before the first.
pub fn no_other_section_line()
    ensures { (bytes : List ℕ) → HasNoOther bytes }
{}

/// One leading byte order mark is dropped, and nothing else.
pub fn one_mark_is_dropped()
    ensures { (bytes : List ℕ) → DropsOneMark bytes }
{}

/// A table's name in brackets is its section line.
pub fn section_lines_name_tables()
    ensures { (table : Table) → NamesItsTable table }
{}

/// Each section of an accepted bundle names a table, and its text is that table's.
pub fn texts_are_sections()
    ensures { (bytes : List ℕ) → TextsAreSections bytes }
{}

/// The sections of joined tables are those tables' own, unless one contains a section line.
pub fn joined_tables_come_apart()
    ensures { (parts : List Part) → ComeApart parts }
{}
