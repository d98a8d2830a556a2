//! What the cells of a column have to be, and what a cell is read as.

ghost use Rattle.std.specs.Prelude.{◌≡◌, ◌==◌, ◌||◌, IfOk, nat_eq, position};
ghost use Rattle.std.specs.Cmp.Lexicographic.{pointwise};
ghost use Rattle.std.specs.List.{list_all, list_any};
ghost use Rattle.std.specs.Result.{result_err};
ghost use Rattle.mrp_cal.specs.Calendar as shop;
ghost use Rattle.mrp_cal.specs.DateText.{IsPlanningYear};
ghost use Rattle.mrp_rows.specs.Cell.{date_cell, name_of, number_cell, word_of};
ghost use Rattle.mrp_tables.specs.Calendar.{are_flags};
ghost use Rattle.mrp_survey.specs.Kinds.{monday_cell, place_among, words_in, workdays_fault, wrong};

use jiff::civil::{Date, Weekday};
use mrp_cal::read_date;
use mrp_qty::{NumberFault, read_number};
use mrp_rows::Name;
use mrp_rows::faults::{DATE, NAME, NUMBER, RANGE, WORD};
use mrp_tables::Version;

/// Words of which a cell has to be one.
#[derive(Clone, Copy)]
pub enum Words {
    /// The key of a version.
    Version,
    /// The key of the calendar's start.
    Start,
    /// The key of its weeks.
    Weeks,
    /// The key of its workdays.
    Workdays,
    /// The key of a holiday.
    Holiday,
    /// The classes of items.
    Classes,
    /// The lot rules.
    LotRules,
    /// The kinds of rows of the master schedule, in a version.
    RowKinds(Version),
    /// The calls of a script.
    Calls,
}

impl Words {
    ghost use Rattle.std.specs.Prelude.{◌≡◌, map};
    ghost use Rattle.mrp_survey.specs.Kinds.{words_in};

    /// The words, in the order of their places.
    pub fn texts(self) -> &'static [&'static str]
        ensures { map (λ word. word.now) result.now ≡ words_in self }
    {
        match self {
            Words::Version => &["version"],
            Words::Start => &["start"],
            Words::Weeks => &["weeks"],
            Words::Workdays => &["workdays"],
            Words::Holiday => &["holiday"],
            Words::Classes => &["master", "part"],
            Words::LotRules => &["lfl", "fixed", "period"],
            Words::RowKinds(Version::One | Version::Two) => &["firm", "forecast"],
            Words::RowKinds(Version::Three) => &["firm", "forecast", "service"],
            Words::Calls => &["book", "cancel", "ask", "when", "run"],
        }
    }
}

/// What a cell has to be.
#[derive(Clone, Copy)]
pub enum Kind {
    /// Anything: the cell is not read.
    Unread,
    /// The name of an item, a work centre or an order.
    Name,
    /// A number within limits, as `least` and `most`.
    Number { least: u64, most: u64 },
    /// A date.
    Date,
    /// A date that is a Monday.
    Monday,
    /// Seven flags, one of them 1 at least.
    Workdays,
    /// One of some words.
    Word(Words),
}

// A cell as a name.
fn name_fault(cell: &[u8]) -> Option<u8>
    ensures { result ≡ result_err (name_of cell.now) }
{
    match Name::new(cell) {
        Some(_) => None,
        None => Some(NAME),
    }
}

// A cell as a number within limits, or the number of its fault.
pub(crate) fn read_within(cell: &[u8], least: u64, most: u64) -> Result<u64, u8>
    ensures { result ≡ number_cell least most cell.now }
{
    match read_number(cell, most) {
        Ok(value) => {
            if value >= least {
                Ok(value)
            } else {
                Err(RANGE)
            }
        }
        Err(NumberFault::TooLarge) => Err(RANGE),
        Err(NumberFault::Empty) => Err(NUMBER),
        Err(NumberFault::NotDigits) => Err(NUMBER),
    }
}

fn number_fault(cell: &[u8], least: u64, most: u64) -> Option<u8>
    ensures { result ≡ result_err (number_cell least most cell.now) }
{
    read_within(cell, least, most).err()
}

fn date_fault(cell: &[u8]) -> Option<u8>
    ensures { result ≡ result_err (date_cell cell.now) }
{
    match read_date(cell) {
        Some(_) => None,
        None => Some(DATE),
    }
}

fn is_monday(date: Date) -> bool
    ensures { result ≡ shop.is_monday date }
{
    date.weekday() == Weekday::Monday
}

// A cell as a Monday, or the number of its fault.
pub(crate) fn read_monday(cell: &[u8]) -> Result<Date, u8>
    ensures monday { result ≡ monday_cell cell.now }
    ensures year { IfOk result (λ start. IsPlanningYear start.year) }
{
    match read_date(cell) {
        Some(date) => {
            if is_monday(date) {
                Ok(date)
            } else {
                Err(RANGE)
            }
        }
        None => Err(DATE),
    }
}

fn monday_fault(cell: &[u8]) -> Option<u8>
    ensures { result ≡ result_err (monday_cell cell.now) }
{
    read_monday(cell).err()
}

fn are_flags(cell: &[u8]) -> bool
    ensures { result ≡ are_flags cell.now }
{
    cell.len() == 7 && are_flag_bytes(cell)
}

fn are_flag_bytes(cell: &[u8]) -> bool
    ensures { result ≡ list_all (λ byte. (byte == 48) || (byte == 49)) cell.now }
{
    cell.iter().all(|byte| *byte == b'0' || *byte == b'1')
}

fn has_one(cell: &[u8]) -> bool
    ensures { result ≡ list_any (λ byte. byte == 49) cell.now }
{
    cell.iter().any(|byte| *byte == b'1')
}

fn workdays_fault(cell: &[u8]) -> Option<u8>
    ensures { result ≡ workdays_fault cell.now }
{
    if !are_flags(cell) {
        return Some(WORD);
    }
    if has_one(cell) { None } else { Some(RANGE) }
}

// The place of a text among words.
fn place_of(text: &[u8], words: &[&str]) -> Option<usize>
    ensures { result ≡ position (λ w. pointwise nat_eq text.now w.now) words.now }
{
    words.iter().position(|word| text == word.as_bytes())
}

// The place of a cell among words.
#[tactic(auto, using(mrp_rows::proofs::WordPlaces::position_map))]
pub(crate) fn read_word(cell: &[u8], words: Words) -> Option<usize>
    ensures { result ≡ place_among words cell.now }
{
    place_of(cell, words.texts())
}

fn word_fault(cell: &[u8], words: Words) -> Option<u8>
    ensures { result ≡ result_err (word_of (words_in words) cell.now) }
{
    match read_word(cell, words) {
        Some(_) => None,
        None => Some(WORD),
    }
}

// The number of the fault of a cell that is not of its kind.
pub(crate) fn wrong(kind: Kind, cell: &[u8]) -> Option<u8>
    ensures { result ≡ wrong kind cell.now }
{
    match kind {
        Kind::Unread => None,
        Kind::Name => name_fault(cell),
        Kind::Number { least, most } => number_fault(cell, least, most),
        Kind::Date => date_fault(cell),
        Kind::Monday => monday_fault(cell),
        Kind::Workdays => workdays_fault(cell),
        Kind::Word(words) => word_fault(cell, words),
    }
}
