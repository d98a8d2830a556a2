//! The summary of a page: counts that lead to their parts.

ghost use Rattle.std.specs.Prelude.{◌≡◌, ◌++◌, ◌≤◌, IfOk, OnOk, count_by, length, map};
ghost use Rattle.mrp_page.specs.Rows.{leader_rows};
ghost use Rattle.mrp_page.specs.Summary.{calls_tiles, centre_count, centres_tile, count_with, is_over, is_undone, kind_tile, kinds_tiles, over_tile, overloads, place_or, risk_tile, summary_html, tile, tile_html};

use crate::html::{Html, is_zero};
use crate::layout::head::{centre_tile, main_open, summary_open, summary_tile};
use crate::promises::Risks;
use crate::row::Row;
use crate::template::{has_word, put_row};
use csv::ByteRecord;
use itoa::Buffer;
use mrp_day::Section;
use mrp_qty::NoMemory;
use std::alloc::Global;

// A count, where it leads to, and what it counts: `none` marks a count of 0, and a second count may
// follow.
fn tile<'x>(
    alloc: Global,
    count: u64,
    mark: &'x [u8],
    place: &'x [u8],
    what: &'x [u8],
    all: u64,
) -> Result<Row, NoMemory>
    ensures { IfOk result (λ row. row ≡ tile count mark.now place.now what.now all) }
{
    let mut digits = Buffer::new();
    let mut whole = Buffer::new();
    let mark = if count == 0 { b"none".as_slice() } else { mark };
    let cells = ByteRecord::from_fields(
        alloc,
        &[
            digits.format(count).as_bytes(),
            mark,
            place,
            what,
            whole.format(all).as_bytes(),
        ],
    )?;
    Ok(Row::new(Section::Run, cells))
}

// Adds a count that leads to a part of the page.
#[tactic(auto, unfolding(crate::specs::Summary::tile_html))]
fn put_tile(
    alloc: Global,
    page: &mut Html,
    count: u64,
    mark: &[u8],
    place: &[u8],
    what: &[u8],
) -> Result<(), NoMemory>
    ensures { OnOk result (page.new ≡ page.old ++ tile_html count mark.now place.now what.now) }
{
    let row = tile(alloc, count, mark, place, what, count)?;
    put_row(page, summary_tile(), &row)
}

// How many rows have a word in a column.
pub(crate) fn count_with(column: usize, word: &[u8], rows: &[Row]) -> usize
    ensures { result ≡ count_with column word.now rows.now }
{
    rows.iter()
        .filter(|row| has_word(column, word, *row))
        .count()
}

// Whether a call is a cancellation that was not done.
fn is_undone(call: &Row) -> bool
    ensures { result ≡ is_undone call.now }
{
    has_word(7, b"not-standing", call) || has_word(7, b"not-yours", call)
}

// How many cancellations were not done.
fn count_undone(history: &[Row]) -> usize
    ensures { result ≡ count_by is_undone history.now }
{
    history.iter().filter(|call| is_undone(*call)).count()
}

// Adds how many calls were not answered as they asked.
#[tactic(auto, unfolding(crate::specs::Summary::calls_tiles))]
fn put_calls(alloc: Global, page: &mut Html, history: &[Row]) -> Result<(), NoMemory>
    ensures { OnOk result (page.new ≡ page.old ++ calls_tiles history.now) }
{
    let short = count_with(7, b"short", history) as u64;
    put_tile(alloc, page, short, b"late", b"unkept", b"not promised")?;
    let undone = count_undone(history) as u64;
    put_tile(alloc, page, undone, b"cancel", b"unkept", b"not cancelled")
}

// Adds how many bookings are at risk, if that is known.
#[tactic(auto, unfolding(crate::specs::Summary::risk_tile))]
fn put_at_risk(alloc: Global, page: &mut Html, risks: &Risks) -> Result<(), NoMemory>
    ensures { OnOk result (page.new ≡ page.old ++ risk_tile risks.now) }
{
    if !risks.is_known() {
        return Ok(());
    }
    let count = risks.rows().len() as u64;
    put_tile(alloc, page, count, b"late", b"risk", b"at risk")
}

// The place of a kind of messages, or of all of them if it has none.
fn place_or(count: u64, place: &[u8]) -> &[u8]
    ensures { result.now ≡ place_or count place.now }
{
    if count == 0 { b"todo" } else { place }
}

// Adds how many messages of a kind there are.
#[tactic(auto, unfolding(crate::specs::Summary::kind_tile))]
fn put_kind(
    alloc: Global,
    page: &mut Html,
    messages: &[Row],
    word: &[u8],
    mark: &[u8],
    what: &[u8],
) -> Result<(), NoMemory>
    ensures { OnOk result (page.new ≡ page.old ++ kind_tile messages.now word.now mark.now what.now) }
{
    let count = count_with(3, word, messages) as u64;
    put_tile(alloc, page, count, mark, place_or(count, mark), what)
}

// Adds how many messages of each kind there are.
#[tactic(auto, unfolding(crate::specs::Summary::kinds_tiles))]
fn put_kinds(alloc: Global, page: &mut Html, messages: &[Row]) -> Result<(), NoMemory>
    ensures { OnOk result (page.new ≡ page.old ++ kinds_tiles messages.now) }
{
    put_kind(alloc, page, messages, b"PAST-DUE", b"late", b"past due")?;
    put_kind(alloc, page, messages, b"RELEASE", b"release", b"release")?;
    put_kind(alloc, page, messages, b"IN", b"in", b"reschedule in")?;
    put_kind(alloc, page, messages, b"OUT", b"out", b"reschedule out")?;
    put_kind(alloc, page, messages, b"CANCEL", b"cancel", b"cancel")
}

// Whether a week of a work centre is over its capacity.
fn is_over(load: &Row) -> bool
    ensures { result ≡ is_over load.now }
{
    !is_zero(load.cell(4))
}

// How many weeks of work centres are over their capacity.
pub(crate) fn count_overloads(loads: &[Row]) -> usize
    ensures { result ≡ count_by is_over loads.now }
{
    loads.iter().filter(|load| is_over(*load)).count()
}

// The weeks of work centres that are over their capacity.
pub(crate) fn overloads<'a>(alloc: Global, loads: &'a [Row]) -> Result<Vec<&'a Row>, NoMemory>
    ensures { IfOk result (λ rows. map (λ r. r.now) rows.items ≡ overloads loads.now) }
{
    let mut rows = Vec::new(alloc);
    for load in loads {
        if is_over(load) {
            rows.push(load)?;
        }
    }
    Ok(rows)
}

// 1 for a row that is not of the same work centre as the one before it, and else 0.
fn leads(previous: &[u8], row: &Row) -> usize
    ensures leads { result ≡ length (leader_rows previous.now row.now) }
    ensures most { result ≤ 1 }
{
    if row.is_of(previous) { 0 } else { 1 }
}

// How many work centres these rows belong to.
#[tactic(auto, unfolding(crate::specs::Rows::leaders, crate::specs::Rows::last_name))]
fn count_all(rows: &[Row]) -> usize
    ensures { result ≡ centre_count rows.now }
{
    let mut count = 0;
    let mut previous: &[u8] = b"";
    for row in rows {
        count += leads(previous, row);
        previous = row.name();
    }
    count
}

// The same of rows that are picked.
#[tactic(auto, unfolding(crate::specs::Rows::leaders, crate::specs::Rows::last_name))]
fn count_centres(rows: &[&Row]) -> usize
    ensures { result ≡ centre_count (map (λ r. r.now) rows.now) }
{
    let mut count = 0;
    let mut previous: &[u8] = b"";
    for row in rows {
        count += leads(previous, *row);
        previous = row.name();
    }
    count
}

// How many work centres are over their capacity in some week.
fn count_over(alloc: Global, loads: &[Row]) -> Result<usize, NoMemory>
    ensures { IfOk result (λ count. count ≡ centre_count (overloads loads.now)) }
{
    let over = overloads(alloc, loads)?;
    Ok(count_centres(over.as_slice()))
}

// How many of all work centres are over their capacity.
fn over_tile(alloc: Global, loads: &[Row]) -> Result<Row, NoMemory>
    ensures { IfOk result (λ row. row ≡ over_tile loads.now) }
{
    let count = count_over(alloc, loads)? as u64;
    let all = count_all(loads) as u64;
    tile(alloc, count, b"late", b"centres", b"", all)
}

// Adds how many of all work centres are over their capacity.
#[tactic(auto, unfolding(crate::specs::Summary::centres_tile))]
fn put_centres(alloc: Global, page: &mut Html, loads: &[Row]) -> Result<(), NoMemory>
    ensures { OnOk result (page.new ≡ page.old ++ centres_tile loads.now) }
{
    let row = over_tile(alloc, loads)?;
    put_row(page, centre_tile(), &row)
}

// Adds the counts of a page, each with a link to its part.
#[tactic(auto, unfolding(crate::specs::Summary::summary_html))]
pub(crate) fn put_summary(
    alloc: Global,
    page: &mut Html,
    history: &[Row],
    messages: &[Row],
    loads: &[Row],
    risks: &Risks,
) -> Result<(), NoMemory>
    ensures { OnOk result (page.new ≡ page.old ++ summary_html history.now messages.now loads.now risks.now) }
{
    page.markup(summary_open())?;
    put_calls(alloc, page, history)?;
    put_at_risk(alloc, page, risks)?;
    put_kinds(alloc, page, messages)?;
    put_centres(alloc, page, loads)?;
    page.markup(main_open())
}
