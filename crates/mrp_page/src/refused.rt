//! The section *Not promised*: the calls that were not answered as they asked.

ghost use Rattle.std.specs.Prelude.{◌≡◌, ◌++◌, IfOk, OnOk, map, unwrap_or};
ghost use Rattle.std.specs.List.{find};
ghost use Rattle.mrp_page.specs.Refused.{answer_html, asked_of, call_html, caller_html, entry_link_html, is_booking, refusals, refused_back, refused_lines, refused_or_none, refused_rows, refused_section};

use crate::by_word::by_word;
use crate::draw::{put_item_name, put_more};
use crate::folded::{Lines, put_folded};
use crate::html::Html;
use crate::items::put_entry;
use crate::layout::lists::{link_end, link_middle, row_open, section_end, table_end};
use crate::layout::refused::{
    entry_link_open, none_refused, refused_answer, refused_asked, refused_desk, refused_end,
    refused_front, refused_open,
};
use crate::limits::FEW_ROWS;
use crate::row::Row;
use crate::scene::Scene;
use crate::template::{has_word, put_dated, put_row};
use mrp_qty::NoMemory;
use std::alloc::Global;

// The replies to calls that were not answered as they asked, in the order of the page.
fn refusals() -> &'static [&'static [u8]]
    ensures { map (λ w. w.now) result.now ≡ refusals }
{
    &[b"short", b"not-standing", b"not-yours"]
}

// Those calls.
fn refused_rows<'a>(alloc: Global, history: &'a [Row]) -> Result<Vec<&'a Row>, NoMemory>
    ensures { IfOk result (λ rows. map (λ r. r.now) rows.items ≡ refused_rows history.now) }
{
    by_word(alloc, 7, refusals(), history)
}

// Whether an entry is the booking of this number.
fn is_booking(number: &[u8], row: &Row) -> bool
    ensures { result ≡ is_booking number.now row.now }
{
    row.is_of(number) && has_word(2, b"book", row)
}

// The booking of this number, or this call if the history has none.
fn booking_or<'a>(history: &'a [Row], number: &[u8], call: &'a Row) -> &'a Row
    ensures { result.now ≡ unwrap_or (find (is_booking number.now) history.now) call.now }
{
    for row in history {
        if is_booking(number, row) {
            return row;
        }
    }
    call
}

// What a call is about: the booking that a cancellation names, if the history has it, and else the
// call itself.
#[tactic(auto, unfolding(crate::specs::Refused::asked_of))]
fn asked_of<'a>(history: &'a [Row], call: &'a Row) -> &'a Row
    ensures { result.now ≡ asked_of history.now call.now }
{
    if has_word(2, b"cancel", call) {
        booking_or(history, call.cell(6), call)
    } else {
        call
    }
}

// Adds a number that links to its entry on the same page.
#[tactic(auto, unfolding(crate::specs::Refused::entry_link_html))]
pub(crate) fn put_entry_link(page: &mut Html, number: &[u8]) -> Result<(), NoMemory>
    ensures { OnOk result (page.new ≡ page.old ++ entry_link_html number.now) }
{
    page.markup(entry_link_open())?;
    page.text(number)?;
    page.markup(link_middle())?;
    page.text(number)?;
    page.markup(link_end())
}

// Adds how a call was answered, with the entry that it names.
#[tactic(auto, unfolding(crate::specs::Refused::answer_html))]
fn put_answer(page: &mut Html, scene: &Scene<'_, '_>, call: &Row) -> Result<(), NoMemory>
    ensures { OnOk result (page.new ≡ page.old ++ answer_html scene.now.history call.now) }
{
    put_row(page, refused_answer(), call)?;
    put_entry(page, scene, call.cell(6))
}

// Adds the desk of a call, and its entry.
#[tactic(auto, unfolding(crate::specs::Refused::caller_html))]
fn put_caller(page: &mut Html, scene: &Scene<'_, '_>, call: &Row) -> Result<(), NoMemory>
    ensures { OnOk result (page.new ≡ page.old ++ caller_html scene.now.history call.now) }
{
    put_row(page, refused_desk(), call)?;
    put_entry(page, scene, call.name())?;
    page.markup(refused_end())
}

// Adds a call about an item, pieces and a week.
#[tactic(auto, unfolding(crate::specs::Refused::call_html))]
fn put_call(page: &mut Html, scene: &Scene<'_, '_>, asked: &Row, call: &Row) -> Result<(), NoMemory>
    ensures { OnOk result (page.new ≡ page.old ++ call_html scene.now asked.now call.now) }
{
    page.markup(row_open())?;
    put_item_name(page, scene.shown(), asked.cell(3))?;
    put_answer(page, scene, call)?;
    put_dated(page, scene.tables(), refused_asked(), asked)?;
    put_caller(page, scene, call)
}

// The list of the calls.
#[derive(Clone, Copy)]
struct Refused<'k, 's, 'a> {
    scene: &'k Scene<'s, 'a>,
}

impl Lines for Refused<'_, '_, '_> {
    ghost use Rattle.mrp_page.specs.Refused.{refused_listing};

    ghost drawn = { λ calls. refused_listing calls.scene.now };

    fn put(&self, page: &mut Html, call: &Row) -> Result<(), NoMemory> {
        let asked = asked_of(self.scene.history(), call);
        put_call(page, self.scene, asked, call)
    }

    fn front(&self) -> &'static [u8] {
        refused_front()
    }

    fn back(&self) -> &'static [u8] {
        table_end()
    }
}

// Adds calls, or that there are none if the whole history was kept.
#[tactic(auto, unfolding(crate::specs::Refused::refused_or_none))]
fn put_refused_or_none(
    alloc: Global,
    page: &mut Html,
    scene: &Scene<'_, '_>,
    missed: u64,
    rows: &[&Row],
) -> Result<(), NoMemory>
    ensures { OnOk result (page.new ≡ page.old ++ refused_or_none scene.now missed (map (λ r. r.now) rows.now)) }
{
    if rows.is_empty() && missed == 0 {
        page.markup(none_refused())
    } else {
        put_folded(alloc, page, &Refused { scene }, FEW_ROWS, rows)
    }
}

// Adds the calls that were not answered as they asked.
#[tactic(auto, unfolding(crate::specs::Refused::refused_lines))]
fn put_refused_lines(
    alloc: Global,
    page: &mut Html,
    scene: &Scene<'_, '_>,
    missed: u64,
) -> Result<(), NoMemory>
    ensures { OnOk result (page.new ≡ page.old ++ refused_lines scene.now missed) }
{
    let rows = refused_rows(alloc, scene.history())?;
    put_refused_or_none(alloc, page, scene, missed, rows.as_slice())
}

// Adds how many entries of the history were not kept.
#[tactic(auto, unfolding(crate::specs::Refused::refused_back))]
fn put_refused_back(alloc: Global, page: &mut Html, missed: u64) -> Result<(), NoMemory>
    ensures { OnOk result (page.new ≡ page.old ++ refused_back missed) }
{
    put_more(
        alloc,
        page,
        missed,
        b"entry of the history is",
        b"entries of the history are",
    )?;
    page.markup(section_end())
}

// Adds the section *Not promised*.
#[tactic(auto, unfolding(crate::specs::Refused::refused_section))]
pub(crate) fn put_refused(
    alloc: Global,
    page: &mut Html,
    scene: &Scene<'_, '_>,
    missed: u64,
) -> Result<(), NoMemory>
    ensures { OnOk result (page.new ≡ page.old ++ refused_section scene.now missed) }
{
    page.markup(refused_open())?;
    put_refused_lines(alloc, page, scene, missed)?;
    put_refused_back(alloc, page, missed)
}
