//! The history that a text begins with, found by replaying the script.
//!
//! Of each record only the desk is read. With the script it gives the call, and the book gives the reply.
//! The history made like this is written and compared with the text, so nothing depends on what was read.

ghost use Rattle.std.specs.Prelude.{◌≡◌, ◌<◌, All, IfOk, IfSome, length};
ghost use Rattle.mrp_tables.specs.declared.limits.TheConstants.{MOST_ENTRIES};
ghost use Rattle.mrp_master.specs.Supply.{supply_of};
ghost use Rattle.mrp_report.specs.section.HistoryText.{history_text};
ghost use Rattle.mrp_audit.specs.Parts.{ComparesFront};
ghost use Rattle.mrp_audit.specs.Replays.{FindsHistory, IsTaken};

use crate::comparing::{Comparing, front_by};
use crate::following::{NextPlaces, are_followed, next_places};
use crate::script::script_calls;
use crate::shape::is_end;
use memchr::memchr;
use mrp_bill::Shop;
use mrp_book::{Book, Call, History};
use mrp_qty::{NoMemory, read_number};
use mrp_report::write_history;
use mrp_rows::Told;
use mrp_script::answer;
use mrp_tables::limits::MOST_DESKS;
use std::alloc::Global;

// What follows the first line end of a text.
fn behind_line(text: &[u8]) -> &[u8] {
    match memchr(b'\n', text) {
        Some(end) => text.get(end + 1..).unwrap_or(b""),
        None => b"",
    }
}

// The desk of the record that a text begins with, or 0.
fn desk_of(text: &[u8]) -> u64 {
    let mut cells = text.split(|byte| *byte == b',').skip(1);
    let cell = cells.next().unwrap_or(b"");
    read_number(cell, MOST_DESKS).unwrap_or(0)
}

// Takes the next record of a desk, and returns its place; `None` if it has none.
fn take_place(next: &mut NextPlaces, desk: u64, end: usize) -> Option<usize>
    ensures { IfSome result (λ place. place < end) }
{
    let place = next.take(desk as usize)?;
    if place < end { Some(place) } else { None }
}

// The history of a shop whose desks make the calls of their records, in the order in which the text has the
// desks.
fn replayed(
    alloc: Global,
    shop: &Shop,
    script: &[(u64, Call)],
    text: &[u8],
) -> Result<History, NoMemory>
    requires taken { All (IsTaken (supply_of shop.now.tables)) script.now }
    requires few { length script.now < MOST_ENTRIES }
    ensures { IfOk result (λ h. h.supply ≡ supply_of shop.now.tables) }
{
    let mut book = Book::open(alloc, shop)?;
    let mut next = next_places(alloc, script)?;
    let mut left = behind_line(behind_line(text));
    for _ in 0..script.len() {
        let Some(place) = take_place(&mut next, desk_of(left), script.len()) else {
            return Ok(book.into_history());
        };
        let (desk, call) = script[place];
        answer(alloc, &mut book, desk, call)?;
        left = behind_line(left);
    }
    Ok(book.into_history())
}

// How many bytes the text of a history of a shop has, if the given text begins with it; otherwise `None`.
fn history_front(
    alloc: Global,
    shop: &Shop,
    history: &History,
    text: &[u8],
) -> Result<Option<usize>, NoMemory>
    requires { history.now.supply ≡ supply_of shop.now.tables }
    ensures { ComparesFront (history_text shop.now.tables history.now.entries) text.now result }
{
    let mut writer = Told::new(Comparing::new(text));
    let written = write_history(alloc, history, shop, &mut writer);
    front_by(writer.into_inner().agreement(), written)
}

/// The history that a text begins with, and how many bytes it has. Each desk's entries in it are its script
/// records in order. `None` says nothing about the text.
///
/// Errors: `NoMemory` if an allocation fails.
pub(crate) fn find_history(
    alloc: Global,
    shop: &Shop,
    text: &[u8],
) -> Result<Option<(History, usize)>, NoMemory>
    ensures { FindsHistory shop.now.tables text.now result }
{
    let tables = shop.tables();
    tables.keep_limits();
    let script = script_calls(alloc, shop)?;
    let history = replayed(alloc, shop, &script, text)?;
    if !are_followed(alloc, history.entries(), &script) {
        return Ok(None);
    }
    let Some(len) = history_front(alloc, shop, &history, text)? else {
        return Ok(None);
    };
    let (_, rest) = text.split_at(len);
    if is_end(rest) {
        Ok(Some((history, len)))
    } else {
        Ok(None)
    }
}
