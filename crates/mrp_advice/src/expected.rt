//! What a cell has to be, in words.

ghost use Rattle.std.specs.Prelude.{◌≡◌, ◌++◌, OnOk, string_bytes};
ghost use Rattle.mrp_cal.specs.DateText.{date_of};
ghost use Rattle.mrp_advice.specs.Expected.{among_words, kind_words, monday_words};

use crate::date::{monday_before, push_date};
use crate::measure::{measure_of, push_limits};
use mrp_cal::read_date;
use mrp_rows::Table;
use mrp_survey::{Kind, Words};
use mrp_tables::Version;
use std::alloc::{AllocError, Global};

// Words of which a cell has to be one.
pub(crate) fn among_words(words: Words) -> &'static str
    ensures { result.now ≡ among_words words }
{
    match words {
        Words::Version => "version",
        Words::Start => "start",
        Words::Weeks => "weeks",
        Words::Workdays => "workdays",
        Words::Holiday => "holiday",
        Words::Classes => "master or part",
        Words::LotRules => "lfl, fixed or period",
        Words::RowKinds(Version::One | Version::Two) => "firm or forecast",
        Words::RowKinds(Version::Three) => "firm, forecast or service",
        Words::Calls => "book, cancel, ask, when or run",
    }
}

// A Monday: that of the week of a cell's date, or any.
fn push_monday(alloc: Global, cell: &[u8], text: &mut String) -> Result<(), AllocError>
    ensures { OnOk result (string_bytes text.new ≡ string_bytes text.old ++ monday_words (date_of cell.now)) }
{
    match read_date(cell) {
        Some(date) => {
            text.push_str("a Monday, as ")?;
            push_date(alloc, monday_before(date), text)
        }
        None => text.push_str("a Monday, as 2025-01-06"),
    }
}

// Adds what a cell of a kind has to be.
pub(crate) fn push_kind(
    alloc: Global,
    version: Version,
    table: Table,
    column: usize,
    kind: Kind,
    cell: &[u8],
    text: &mut String,
) -> Result<(), AllocError>
    ensures { OnOk result (string_bytes text.new ≡ string_bytes text.old ++ kind_words version table column kind cell.now) }
{
    match kind {
        Kind::Unread => text.push_str("any cell"),
        Kind::Name => text.push_str("a name of 1 to 32 printable ASCII characters"),
        Kind::Number { least, most } => {
            let measure = measure_of(version, table, column, least, most);
            push_limits(measure, least, most, text)
        }
        Kind::Date => text.push_str("a date as 2025-01-20"),
        Kind::Monday => push_monday(alloc, cell, text),
        Kind::Workdays => {
            text.push_str("seven of 0 and 1 from Monday, as 1111100, kept as text")
        }
        Kind::Word(words) => text.push_str(among_words(words)),
    }
}
