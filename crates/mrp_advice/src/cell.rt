//! What is said of a cell that is not of its kind.

ghost use Rattle.std.specs.Prelude.{◌≡◌, ◌++◌, OnOk, codes, nat_eq, string_bytes};
ghost use Rattle.std.specs.Char.{is_ascii_digit};
ghost use Rattle.std.specs.List.{list_all};
ghost use Rattle.mrp_advice.specs.Reasons.{are_digits, cell_words, date_reason, form_reason, has_dashes, has_date_digits, has_spaces, is_day_number, is_like_date, limit_reason, name_reason, not_among, range_reason, reason_of, reason_words};
ghost use Rattle.mrp_advice.specs.Shown as spec;

use crate::sign::{is_printable, push_shown};
use crate::text::{push_number, push_of};
use mrp_qty::read_number;
use mrp_rows::faults::RANGE;
use mrp_survey::{Kind, Words};
use std::alloc::AllocError;

// Why a cell is wrong.
#[derive(Clone, Copy)]
pub(crate) enum Reason {
    // It is empty.
    Empty,
    // A space is its first or last byte.
    Spaced,
    // A name would begin a section.
    Bracket,
    // A name has too many characters.
    Long,
    // A name has a character that is not printable ASCII.
    Unprintable,
    // A date is the number of a day, as spreadsheets keep it.
    DayNumber,
    // A date has the form of one, but the calendar or a plan has no such day.
    NoDay,
    // A date has another form.
    NotDate,
    // A date is no Monday.
    NotMonday,
    // Workdays are not seven flags.
    NotFlags,
    // No weekday is worked.
    NoWorkday,
    // A word is none of these.
    NotAmong(Words),
    // A number is not digits alone.
    NotDigits,
    // A number is above its limits.
    TooLarge,
    // A number is below its limits.
    TooSmall,
}

fn has_spaces(cell: &[u8]) -> bool
    ensures { result ≡ has_spaces cell.now }
{
    cell.starts_with(b" ") || cell.ends_with(b" ")
}

fn are_digits(cell: &[u8]) -> bool
    ensures { result ≡ are_digits cell.now }
{
    cell.iter().all(|byte| byte.is_ascii_digit())
}

fn are_printable(cell: &[u8]) -> bool
    ensures { result ≡ list_all spec.is_printable cell.now }
{
    cell.iter().all(|byte| is_printable(*byte))
}

fn is_day_number(cell: &[u8]) -> bool
    ensures { result ≡ is_day_number cell.now }
{
    cell.len() == 5 && are_digits(cell)
}

// Whether a cell has the form of a date: four digits, two and two, with dashes between.
fn is_like_date(cell: &[u8]) -> bool
    ensures { result ≡ is_like_date cell.now }
{
    if cell.len() != 10 || cell[4] != b'-' || cell[7] != b'-' {
        return false;
    }
    are_digits(&cell[..4]) && are_digits(&cell[5..7]) && are_digits(&cell[8..])
}

fn name_reason(cell: &[u8]) -> Reason
    ensures { result ≡ name_reason cell.now }
{
    if cell.starts_with(b"[") {
        Reason::Bracket
    } else if are_printable(cell) {
        Reason::Long
    } else {
        Reason::Unprintable
    }
}

fn date_reason(cell: &[u8]) -> Reason
    ensures { result ≡ date_reason cell.now }
{
    if is_day_number(cell) {
        Reason::DayNumber
    } else if is_like_date(cell) {
        Reason::NoDay
    } else {
        Reason::NotDate
    }
}

// Why a cell has another form than its kind's. One that is not read is never wrong.
fn form_reason(kind: Kind, cell: &[u8]) -> Reason
    ensures { result ≡ form_reason kind cell.now }
{
    match kind {
        Kind::Name => name_reason(cell),
        Kind::Date | Kind::Monday => date_reason(cell),
        Kind::Workdays => Reason::NotFlags,
        Kind::Word(words) => Reason::NotAmong(words),
        Kind::Number { .. } | Kind::Unread => Reason::NotDigits,
    }
}

fn limit_reason(most: u64, cell: &[u8]) -> Reason
    ensures { result ≡ limit_reason most cell.now }
{
    if read_number(cell, most).is_ok() {
        Reason::TooSmall
    } else {
        Reason::TooLarge
    }
}

// Why a cell with the form of its kind has another value.
fn range_reason(kind: Kind, cell: &[u8]) -> Reason
    ensures { result ≡ range_reason kind cell.now }
{
    match kind {
        Kind::Monday => Reason::NotMonday,
        Kind::Workdays => Reason::NoWorkday,
        Kind::Number { most, .. } => limit_reason(most, cell),
        Kind::Name | Kind::Date | Kind::Word(_) | Kind::Unread => form_reason(kind, cell),
    }
}

// Why a cell of a kind has the fault of this number.
fn reason_of(kind: Kind, code: u8, cell: &[u8]) -> Reason
    ensures { result ≡ reason_of kind code cell.now }
{
    if code == RANGE {
        range_reason(kind, cell)
    } else if cell.is_empty() {
        Reason::Empty
    } else if has_spaces(cell) {
        Reason::Spaced
    } else {
        form_reason(kind, cell)
    }
}

// What a cell is not that is none of these words.
fn not_among(words: Words) -> &'static str
    ensures { result.now ≡ not_among words }
{
    match words {
        Words::Version | Words::Start | Words::Weeks | Words::Workdays | Words::Holiday => {
            " is not the key of this row"
        }
        Words::Classes => " is not a class",
        Words::LotRules => " is not a lot rule",
        Words::RowKinds(_) => " is not a kind of row",
        Words::Calls => " is not a call",
    }
}

fn push_length(cell: &[u8], text: &mut String) -> Result<(), AllocError>
    ensures { OnOk result (string_bytes text.new ≡ string_bytes text.old ++ reason_words Reason.Long cell.now) }
{
    push_shown(cell, text)?;
    text.push_str(" has ")?;
    push_number(cell.len() as u64, text)?;
    text.push_str(" characters")
}

fn push_reason(reason: Reason, cell: &[u8], text: &mut String) -> Result<(), AllocError>
    ensures { OnOk result (string_bytes text.new ≡ string_bytes text.old ++ reason_words reason cell.now) }
{
    match reason {
        Reason::Empty => text.push_str("the cell is empty"),
        Reason::Spaced => push_of(cell, " has spaces round it", text),
        Reason::Bracket => push_of(cell, " begins with [", text),
        Reason::Long => push_length(cell, text),
        Reason::Unprintable => push_of(cell, " has a character that is not printable ASCII", text),
        Reason::DayNumber => push_of(cell, " is a spreadsheet's day number", text),
        Reason::NoDay => push_of(cell, " is no day from 1900-01-01 to 2999-12-31", text),
        Reason::NotDate => push_of(cell, " is not a date", text),
        Reason::NotMonday => push_of(cell, " is no Monday", text),
        Reason::NotFlags => push_of(cell, " is not seven of 0 and 1", text),
        Reason::NoWorkday => push_of(cell, " has no workday", text),
        Reason::NotAmong(words) => push_of(cell, not_among(words), text),
        Reason::NotDigits => push_of(cell, " is not digits alone", text),
        Reason::TooLarge => push_of(cell, " is too large", text),
        Reason::TooSmall => push_of(cell, " is too small", text),
    }
}

// Adds what is said of a cell of a kind that has the fault of this number.
pub(crate) fn push_cell(
    kind: Kind,
    code: u8,
    cell: &[u8],
    text: &mut String,
) -> Result<(), AllocError>
    ensures { OnOk result (string_bytes text.new ≡ string_bytes text.old ++ cell_words kind code cell.now) }
{
    push_reason(reason_of(kind, code, cell), cell, text)
}
