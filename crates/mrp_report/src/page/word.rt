//! The words of rows.

ghost use Rattle.std.specs.Prelude.{◌+◌, ◌≤◌, length};
ghost use Rattle.mrp_report.specs.page.CsvCells.{next_cell};
ghost use Rattle.mrp_report.specs.page.Put.{IsPut};
ghost use Rattle.mrp_report.specs.page.WordText.{word_text};

use crate::page::put::put_front;

// A word of a row.
#[derive(Clone, Copy)]
pub(crate) enum Word {
    // An empty cell.
    Nothing,
    Booking,
    Forecast,
    Service,
    Parent,
    Surplus,
    Stock,
    Open,
    Firm,
    Planned,
    Release,
    PastDue,
    In,
    Out,
    Cancel,
    Book,
    CancelBooking,
    Ask,
    When,
    Run,
    Front,
    Booked,
    Short,
    Cancelled,
    NotStanding,
    NotYours,
    Available,
    Week,
    NoWeek,
}

// Puts a word's cell, with the comma before it.
#[inline(always)]
pub(crate) fn put_word(text: &mut [u8], at: usize, word: Word) -> usize
    requires { at + 16 ≤ length text.old }
    ensures put { IsPut text.old text.new at (next_cell (word_text word)) result }
    ensures near { result ≤ at + 16 }
{
    match word {
        Word::Nothing => put_front::<16>(text, at, b",               ", 1),
        Word::Booking => put_front::<16>(text, at, b",booking        ", 8),
        Word::Forecast => put_front::<16>(text, at, b",forecast       ", 9),
        Word::Service => put_front::<16>(text, at, b",service        ", 8),
        Word::Parent => put_front::<16>(text, at, b",parent         ", 7),
        Word::Surplus => put_front::<16>(text, at, b",surplus        ", 8),
        Word::Stock => put_front::<16>(text, at, b",stock          ", 6),
        Word::Open => put_front::<16>(text, at, b",open           ", 5),
        Word::Firm => put_front::<16>(text, at, b",firm           ", 5),
        Word::Planned => put_front::<16>(text, at, b",planned        ", 8),
        Word::Release => put_front::<16>(text, at, b",RELEASE        ", 8),
        Word::PastDue => put_front::<16>(text, at, b",PAST-DUE       ", 9),
        Word::In => put_front::<16>(text, at, b",IN             ", 3),
        Word::Out => put_front::<16>(text, at, b",OUT            ", 4),
        Word::Cancel => put_front::<16>(text, at, b",CANCEL         ", 7),
        Word::Book => put_front::<16>(text, at, b",book           ", 5),
        Word::CancelBooking => put_front::<16>(text, at, b",cancel         ", 7),
        Word::Ask => put_front::<16>(text, at, b",ask            ", 4),
        Word::When => put_front::<16>(text, at, b",when           ", 5),
        Word::Run => put_front::<16>(text, at, b",run            ", 4),
        Word::Front => put_front::<16>(text, at, b",front          ", 6),
        Word::Booked => put_front::<16>(text, at, b",booked         ", 7),
        Word::Short => put_front::<16>(text, at, b",short          ", 6),
        Word::Cancelled => put_front::<16>(text, at, b",cancelled      ", 10),
        Word::NotStanding => put_front::<16>(text, at, b",not-standing   ", 13),
        Word::NotYours => put_front::<16>(text, at, b",not-yours      ", 10),
        Word::Available => put_front::<16>(text, at, b",available      ", 10),
        Word::Week => put_front::<16>(text, at, b",week           ", 5),
        Word::NoWeek => put_front::<16>(text, at, b",no-week        ", 8),
    }
}
