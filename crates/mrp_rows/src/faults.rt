//! The numbers of the faults, with their names for texts.

ghost use Rattle.std.specs.Prelude.{◌≡◌};
ghost use Rattle.mrp_rows.specs.FaultText.{fault_name};

/// There is text before the first section line.
pub const TEXT_BEFORE_SECTION: u8 = 1;

/// A section line names no table.
pub const UNKNOWN_SECTION: u8 = 2;

/// A table has two sections.
pub const SECTION_TWICE: u8 = 3;

/// A table has no section.
pub const MISSING_SECTION: u8 = 4;

/// A table's first record is not its header.
pub const HEADER: u8 = 5;

/// The count of a record's cells is not that of its table's columns, or a record is missing.
pub const COLUMNS: u8 = 6;

/// A cell is not a name.
pub const NAME: u8 = 7;

/// A cell is not a number.
pub const NUMBER: u8 = 8;

/// A cell is not a date.
pub const DATE: u8 = 9;

/// A cell is not one of its column's words.
pub const WORD: u8 = 10;

/// A cell is outside its limits.
pub const RANGE: u8 = 11;

/// An item, or an item's order, is already in an earlier record.
pub const REPEATED: u8 = 12;

/// No item has the name.
pub const UNKNOWN_ITEM: u8 = 13;

/// No work centre has the name.
pub const UNKNOWN_CENTRE: u8 = 14;

/// A date is outside the horizon.
pub const DATE_OUTSIDE: u8 = 15;

/// An item that has to be a master item is a part.
pub const NOT_MASTER: u8 = 16;

/// A master item has safety stock.
pub const MASTER_SAFETY: u8 = 17;

/// An open receipt is of a master item.
pub const MASTER_RECEIPT: u8 = 18;

/// A bill line's component is a master item.
pub const MASTER_COMPONENT: u8 = 19;

/// A record is beyond its table's limit.
pub const TOO_MANY: u8 = 20;

/// An item's bills lead back to it.
pub const LOOP: u8 = 21;

/// Out of memory.
pub const NO_MEMORY: u8 = 22;

/// A service row of the master schedule is of a master item. It comes after the faults up to
/// `MASTER_COMPONENT`.
pub const SERVICE_MASTER: u8 = 23;

/// A fault's name by its number; `fault` for a number that no fault has.
pub(crate) fn fault_name(code: u8) -> &'static str
    ensures { result.now ≡ fault_name code }
{
    match code {
        TEXT_BEFORE_SECTION => "text-before-section",
        UNKNOWN_SECTION => "unknown-section",
        SECTION_TWICE => "section-twice",
        MISSING_SECTION => "missing-section",
        HEADER => "header",
        COLUMNS => "columns",
        NAME => "name",
        NUMBER => "number",
        DATE => "date",
        WORD => "word",
        RANGE => "range",
        REPEATED => "repeated",
        UNKNOWN_ITEM => "unknown-item",
        UNKNOWN_CENTRE => "unknown-centre",
        DATE_OUTSIDE => "date-outside",
        NOT_MASTER => "not-master",
        MASTER_SAFETY => "master-safety",
        MASTER_RECEIPT => "master-receipt",
        MASTER_COMPONENT => "master-component",
        TOO_MANY => "too-many",
        LOOP => "loop",
        NO_MEMORY => "no-memory",
        SERVICE_MASTER => "service-master",
        _ => "fault",
    }
}
