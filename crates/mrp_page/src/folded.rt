//! Lists that show their first rows, and fold the others.

ghost use Rattle.std.specs.Prelude.{◌≡◌, ◌++◌, OnOk, drop, flat_map, map, take};
ghost use Rattle.mrp_page.specs.Folded.{Listing, capped_html, folded_html, hidden_html, listed_html};

use crate::draw::put_more;
use crate::frame::put_count_row;
use crate::html::Html;
use crate::layout::lists::{rest_end, rest_open};
use crate::limits::MOST_LINES;
use crate::row::Row;
use mrp_qty::NoMemory;
use std::alloc::Global;

// What a list draws its rows with.
pub(crate) trait Lines {
    ghost drawn: { Self → Listing };

    // Adds a row.
    fn put(&self, page: &mut Html, row: &Row) -> Result<(), NoMemory>
        ensures { OnOk result (page.new ≡ page.old ++ (drawn self.now).line row.now) };

    // What the rows begin with.
    fn front(&self) -> &'static [u8]
        ensures { result.now ≡ (drawn self.now).front };

    // What they end with.
    fn back(&self) -> &'static [u8]
        ensures { result.now ≡ (drawn self.now).back };
}

// Adds rows, one after another.
fn put_lines<L: Lines>(page: &mut Html, lines: &L, rows: &[&Row]) -> Result<(), NoMemory>
    ensures { OnOk result (page.new ≡ page.old ++ flat_map (L.drawn lines.now).line (map (λ r. r.now) rows.now)) }
{
    for row in rows {
        lines.put(page, *row)?;
    }
    Ok(())
}

// Adds rows of a list; nothing if there are none.
#[tactic(auto, unfolding(crate::specs::Folded::listed_html))]
fn put_listed<L: Lines>(page: &mut Html, lines: &L, rows: &[&Row]) -> Result<(), NoMemory>
    ensures { OnOk result (page.new ≡ page.old ++ listed_html (L.drawn lines.now) (map (λ r. r.now) rows.now)) }
{
    if rows.is_empty() {
        return Ok(());
    }
    page.markup(lines.front())?;
    put_lines(page, lines, rows)?;
    page.markup(lines.back())
}

// Adds rows, folded behind their number; nothing if there are none.
#[tactic(auto, unfolding(crate::specs::Folded::hidden_html))]
fn put_hidden<L: Lines>(
    alloc: Global,
    page: &mut Html,
    lines: &L,
    rows: &[&Row],
) -> Result<(), NoMemory>
    ensures { OnOk result (page.new ≡ page.old ++ hidden_html (L.drawn lines.now) (map (λ r. r.now) rows.now)) }
{
    if rows.is_empty() {
        return Ok(());
    }
    put_count_row(alloc, page, rest_open(), rows.len() as u64, b"", b"")?;
    put_listed(page, lines, rows)?;
    page.markup(rest_end())
}

// The first rows, and the others.
pub(crate) fn cut_rows<'a, 'b>(rows: &'b [&'a Row], most: usize) -> (&'b [&'a Row], &'b [&'a Row])
    ensures first { map (λ r. r.now) result.0.now ≡ take most (map (λ r. r.now) rows.now) }
    ensures rest { map (λ r. r.now) result.1.now ≡ drop most (map (λ r. r.now) rows.now) }
{
    rows.split_at(most.min(rows.len()))
}

// Adds the first rows of a list, and the others folded.
#[tactic(auto, unfolding(crate::specs::Folded::folded_html))]
pub(crate) fn put_folded<L: Lines>(
    alloc: Global,
    page: &mut Html,
    lines: &L,
    most: usize,
    rows: &[&Row],
) -> Result<(), NoMemory>
    ensures { OnOk result (page.new ≡ page.old ++ folded_html (L.drawn lines.now) most (map (λ r. r.now) rows.now)) }
{
    let (first, rest) = cut_rows(rows, most);
    put_listed(page, lines, first)?;
    put_hidden(alloc, page, lines, rest)
}

// Adds the first rows of a long list, and the others folded, up to a limit; the rest are counted.
#[tactic(auto, unfolding(crate::specs::Folded::capped_html))]
pub(crate) fn put_capped<L: Lines>(
    alloc: Global,
    page: &mut Html,
    lines: &L,
    most: usize,
    rows: &[&Row],
) -> Result<(), NoMemory>
    ensures { OnOk result (page.new ≡ page.old ++ capped_html (L.drawn lines.now) most (map (λ r. r.now) rows.now)) }
{
    let (kept, rest) = cut_rows(rows, MOST_LINES);
    put_folded(alloc, page, lines, most, kept)?;
    put_more(alloc, page, rest.len() as u64, b"is", b"are")
}
