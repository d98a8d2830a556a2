//! Drawing the parts of a page.

ghost use Rattle.std.specs.Prelude.{◌≡◌, ◌++◌, OnOk, drop, map, take};
ghost use Rattle.mrp_page.specs.Draw.{dated_table, all_weeks, amounts_html, balance_html, booked_html, framed_record, has_firm, has_item, history_html, is_plain, is_scheduled, item_name_html, later_record, link_html, measure_html, more_html, more_items, more_lists, more_rows, more_weeks, named_note, named_record, planned_html, points_html, promised_html, promises_note, record_html, record_or_none, record_rows, record_table, supplies_html, table_html};
ghost use Rattle.std.specs.List.{list_any};
ghost use Rattle.std.specs.Option.{option_copied};
ghost use Rattle.mrp_page.specs.Row.{is_of};
ghost use Rattle.mrp_page.specs.Template.{drawn_of};

use crate::counts::Counts;
use crate::frame::{frame_of, put_count_row};
use crate::html::{Html, is_zero};
use crate::item_facts::{put_safety, put_scale};
use crate::item_rows::ItemRows;
use crate::layout::history::{entry, history_end, history_open};
use crate::layout::lists::{grid_end, link_end, link_middle, link_open, more, rest_end};
use crate::layout::records::{
    available_label, balance_chart, balance_label, balance_scale, booked_label, firm_label,
    gross_label, later_open, line_open, no_promises, no_record, planned_label, point, points_end,
    record_head, scheduled_label, starts_label,
};
use crate::limits::TABLE_WEEKS;
use crate::row::Row;
use crate::rows::greatest;
use crate::template::{Part, has_word, put_dated_rows, put_flows, put_numbers, put_row, put_rows};
use crate::weeks::put_weeks;
use mrp_facts::Facts;
use mrp_qty::NoMemory;
use std::alloc::Global;

// Adds rows between two pieces of markup.
#[tactic(auto, unfolding(crate::specs::Draw::table_html))]
pub(crate) fn put_table(
    page: &mut Html,
    front: &[u8],
    parts: &[Part],
    rows: &[Row],
    back: &[u8],
) -> Result<(), NoMemory>
    ensures { OnOk result (page.new ≡ page.old ++ table_html front.now (map drawn_of parts.now) rows.now back.now) }
{
    page.markup(front)?;
    put_rows(page, parts, rows)?;
    page.markup(back)
}

// Adds rows between two pieces of markup, with the dates of their weeks if the tables are given.
#[tactic(auto, unfolding(crate::specs::Draw::dated_table))]
pub(crate) fn put_dated_table(
    page: &mut Html,
    tables: Option<&Facts<'_>>,
    front: &[u8],
    parts: &[Part],
    rows: &[Row],
    back: &[u8],
) -> Result<(), NoMemory>
    ensures { OnOk result (page.new ≡ page.old ++ dated_table (option_copied tables.entry) front.now (map drawn_of parts.now) rows.now back.now) }
{
    page.markup(front)?;
    put_dated_rows(page, tables, parts, rows)?;
    page.markup(back)
}

// Adds a row of a table over the weeks.
#[tactic(auto, unfolding(crate::specs::Draw::measure_html))]
fn put_measure(page: &mut Html, label: &[u8], column: usize, rows: &[Row]) -> Result<(), NoMemory>
    ensures { OnOk result (page.new ≡ page.old ++ measure_html label.now column rows.now) }
{
    page.markup(label)?;
    put_numbers(page, column, rows)?;
    page.markup(b"</tr>\n")
}

// Adds a row of a table over the weeks, and leaves the numbers empty that are 0.
#[tactic(auto, unfolding(crate::specs::Draw::amounts_html))]
fn put_amounts(page: &mut Html, label: &[u8], column: usize, rows: &[Row]) -> Result<(), NoMemory>
    ensures { OnOk result (page.new ≡ page.old ++ amounts_html label.now column rows.now) }
{
    page.markup(label)?;
    put_flows(page, column, rows)?;
    page.markup(b"</tr>\n")
}

// Adds a name that links to its item on the same page.
#[tactic(auto, unfolding(crate::specs::Draw::link_html))]
pub(crate) fn put_link(page: &mut Html, name: &[u8]) -> Result<(), NoMemory>
    ensures { OnOk result (page.new ≡ page.old ++ link_html name.now) }
{
    page.markup(link_open())?;
    page.text(name)?;
    page.markup(link_middle())?;
    page.text(name)?;
    page.markup(link_end())
}

// Whether one of these rows is of this item.
fn is_one_of(shown: &[&Row], name: &[u8]) -> bool
    ensures { result ≡ list_any (λ r. is_of name.now r.now) shown.now }
{
    shown.iter().any(|row| row.is_of(name))
}

// Whether this item is among those of these rows.
pub(crate) fn has_item(shown: &[&Row], name: &[u8]) -> bool
    ensures { result ≡ has_item (map (λ r. r.now) shown.now) name.now }
{
    is_one_of(shown, name)
}

// Adds the name of an item, as a link if the item is among those that are shown.
#[tactic(auto, unfolding(crate::specs::Draw::item_name_html))]
pub(crate) fn put_item_name(page: &mut Html, shown: &[&Row], name: &[u8]) -> Result<(), NoMemory>
    ensures { OnOk result (page.new ≡ page.old ++ item_name_html (map (λ r. r.now) shown.now) name.now) }
{
    if has_item(shown, name) {
        put_link(page, name)
    } else {
        page.text(name)
    }
}

// Whether a message has one of the words that a page puts into plain ones.
pub(crate) fn is_plain(message: &Row) -> bool
    ensures { result ≡ is_plain message.now }
{
    has_word(3, b"PAST-DUE", message)
        || has_word(3, b"RELEASE", message)
        || has_word(3, b"IN", message)
        || has_word(3, b"OUT", message)
        || has_word(3, b"CANCEL", message)
}

// Adds how many are not shown; nothing if that is none.
#[tactic(auto, unfolding(crate::specs::Draw::more_html))]
pub(crate) fn put_more(
    alloc: Global,
    page: &mut Html,
    count: u64,
    one: &[u8],
    many: &[u8],
) -> Result<(), NoMemory>
    ensures { OnOk result (page.new ≡ page.old ++ more_html count one.now many.now) }
{
    if count == 0 {
        return Ok(());
    }
    put_count_row(alloc, page, more(), count, one, many)
}

// Whether a plan has a firm schedule.
fn has_firm(plan: &[Row]) -> bool
    ensures { result ≡ has_firm plan.now }
{
    !is_zero(greatest(plan, 4, b"0"))
}

// Whether what is due of an item are scheduled receipts, as of a part: it has no promises and no firm
// schedule.
fn is_scheduled(plan: &[Row], promises: &[Row]) -> bool
    ensures { result ≡ is_scheduled plan.now promises.now }
{
    promises.is_empty() && !has_firm(plan)
}

// Adds what is due: the firm schedule of a master item, the scheduled receipts of a part.
#[tactic(auto, unfolding(crate::specs::Draw::supplies_html))]
fn put_supplies(page: &mut Html, scheduled: bool, plan: &[Row]) -> Result<(), NoMemory>
    ensures { OnOk result (page.new ≡ page.old ++ supplies_html scheduled plan.now) }
{
    if scheduled {
        put_amounts(page, scheduled_label(), 3, plan)
    } else {
        put_amounts(page, firm_label(), 4, plan)
    }
}

// Adds what is booked of a master item, and what is available to promise.
#[tactic(auto, unfolding(crate::specs::Draw::booked_html))]
fn put_booked(page: &mut Html, promises: &[Row]) -> Result<(), NoMemory>
    ensures { OnOk result (page.new ≡ page.old ++ booked_html promises.now) }
{
    put_amounts(page, booked_label(), 3, promises)?;
    put_measure(page, available_label(), 5, promises)
}

// Adds what is promised of a master item; nothing for a part.
#[tactic(auto, unfolding(crate::specs::Draw::promised_html))]
fn put_promised(page: &mut Html, promises: &[Row]) -> Result<(), NoMemory>
    ensures { OnOk result (page.new ≡ page.old ++ promised_html promises.now) }
{
    if promises.is_empty() {
        Ok(())
    } else {
        put_booked(page, promises)
    }
}

// Adds the points of the picture of balances.
#[tactic(auto, unfolding(crate::specs::Draw::points_html))]
fn put_points(page: &mut Html, plan: &[Row]) -> Result<(), NoMemory>
    ensures { OnOk result (page.new ≡ page.old ++ points_html plan.now) }
{
    put_table(page, b"", point(), plan, points_end())
}

// Adds the picture of an item's balances, a line, with its safety stock if the tables are given.
#[tactic(auto, unfolding(crate::specs::Draw::balance_html))]
fn put_balance(
    alloc: Global,
    page: &mut Html,
    tables: Option<&Facts<'_>>,
    frame: &Row,
    plan: &[Row],
) -> Result<(), NoMemory>
    ensures { OnOk result (page.new ≡ page.old ++ balance_html (option_copied tables.entry) frame.now plan.now) }
{
    put_row(page, balance_scale(), frame)?;
    put_scale(alloc, page, tables, frame)?;
    put_row(page, balance_chart(), frame)?;
    put_safety(alloc, page, tables, frame)?;
    page.markup(line_open())?;
    put_points(page, plan)
}

// Adds what is planned of an item.
#[tactic(auto, unfolding(crate::specs::Draw::planned_html))]
fn put_planned(page: &mut Html, plan: &[Row]) -> Result<(), NoMemory>
    ensures { OnOk result (page.new ≡ page.old ++ planned_html plan.now) }
{
    put_amounts(page, planned_label(), 5, plan)?;
    put_amounts(page, starts_label(), 6, plan)?;
    put_measure(page, balance_label(), 7, plan)
}

// Adds the rows of an item's time-phased record.
#[tactic(auto, unfolding(crate::specs::Draw::record_rows))]
fn put_record_rows(
    page: &mut Html,
    scheduled: bool,
    plan: &[Row],
    promises: &[Row],
) -> Result<(), NoMemory>
    ensures { OnOk result (page.new ≡ page.old ++ record_rows scheduled plan.now promises.now) }
{
    put_amounts(page, gross_label(), 2, plan)?;
    put_supplies(page, scheduled, plan)?;
    put_planned(page, plan)?;
    put_promised(page, promises)
}

// Adds a table of some weeks of an item's time-phased record.
#[tactic(auto, unfolding(crate::specs::Draw::record_table))]
fn put_record_table(
    page: &mut Html,
    tables: Option<&Facts<'_>>,
    frame: &Row,
    scheduled: bool,
    plan: &[Row],
    promises: &[Row],
) -> Result<(), NoMemory>
    ensures { OnOk result (page.new ≡ page.old ++ record_table (option_copied tables.entry) frame.now scheduled plan.now promises.now) }
{
    put_row(page, record_head(), frame)?;
    put_weeks(page, tables, plan)?;
    put_record_rows(page, scheduled, plan, promises)?;
    page.markup(grid_end())
}

// Adds a table of its further weeks, folded.
#[tactic(auto, unfolding(crate::specs::Draw::later_record))]
fn put_later_record(
    page: &mut Html,
    tables: Option<&Facts<'_>>,
    frame: &Row,
    scheduled: bool,
    plan: &[Row],
    promises: &[Row],
) -> Result<(), NoMemory>
    ensures { OnOk result (page.new ≡ page.old ++ later_record (option_copied tables.entry) frame.now scheduled plan.now promises.now) }
{
    if plan.is_empty() {
        return Ok(());
    }
    page.markup(later_open())?;
    put_record_table(page, tables, frame, scheduled, plan, promises)?;
    page.markup(rest_end())
}

// The weeks of the first table, and the others.
pub(crate) fn cut_weeks(rows: &[Row]) -> (&[Row], &[Row])
    ensures first { result.0.now ≡ take TABLE_WEEKS rows.now }
    ensures rest { result.1.now ≡ drop TABLE_WEEKS rows.now }
{
    rows.split_at(TABLE_WEEKS.min(rows.len()))
}

// Adds the weeks of an item's time-phased record.
#[tactic(auto, unfolding(crate::specs::Draw::all_weeks))]
fn put_all_weeks(
    page: &mut Html,
    tables: Option<&Facts<'_>>,
    frame: &Row,
    scheduled: bool,
    plan: &[Row],
    promises: &[Row],
) -> Result<(), NoMemory>
    ensures { OnOk result (page.new ≡ page.old ++ all_weeks (option_copied tables.entry) frame.now scheduled plan.now promises.now) }
{
    let (first, later) = cut_weeks(plan);
    let (first_promises, later_promises) = cut_weeks(promises);
    put_record_table(page, tables, frame, scheduled, first, first_promises)?;
    put_later_record(page, tables, frame, scheduled, later, later_promises)
}

// Adds the time-phased record of an item, given its frame.
#[tactic(auto, unfolding(crate::specs::Draw::framed_record))]
fn put_framed_record(
    alloc: Global,
    page: &mut Html,
    tables: Option<&Facts<'_>>,
    frame: &Row,
    plan: &[Row],
    promises: &[Row],
) -> Result<(), NoMemory>
    ensures { OnOk result (page.new ≡ page.old ++ framed_record (option_copied tables.entry) frame.now plan.now promises.now) }
{
    let scheduled = is_scheduled(plan, promises);
    put_balance(alloc, page, tables, frame, plan)?;
    put_all_weeks(page, tables, frame, scheduled, plan, promises)
}

// Adds the time-phased record of an item.
#[tactic(auto, unfolding(crate::specs::Draw::record_html))]
fn put_record(
    alloc: Global,
    page: &mut Html,
    tables: Option<&Facts<'_>>,
    name: &[u8],
    plan: &[Row],
    promises: &[Row],
) -> Result<(), NoMemory>
    ensures { OnOk result (page.new ≡ page.old ++ record_html (option_copied tables.entry) name.now plan.now promises.now) }
{
    let frame = frame_of(alloc, name, plan, 7, 7, b"1")?;
    put_framed_record(alloc, page, tables, &frame, plan, promises)
}

// Adds the record of an item, or a note that it is not kept.
#[tactic(auto, unfolding(crate::specs::Draw::record_or_none))]
fn put_record_or_none(
    alloc: Global,
    page: &mut Html,
    tables: Option<&Facts<'_>>,
    name: &[u8],
    plan: &[Row],
    promises: &[Row],
) -> Result<(), NoMemory>
    ensures { OnOk result (page.new ≡ page.old ++ record_or_none (option_copied tables.entry) name.now plan.now promises.now) }
{
    if plan.is_empty() {
        page.markup(no_record())
    } else {
        put_record(alloc, page, tables, name, plan, promises)
    }
}

// Adds a note that an item with a record may have promises that are not kept, if any are not.
fn put_promises_note(
    page: &mut Html,
    plan: &[Row],
    promises: &[Row],
    missed: u64,
) -> Result<(), NoMemory>
    ensures { OnOk result (page.new ≡ page.old ++ promises_note plan.now promises.now missed) }
{
    if missed == 0 || plan.is_empty() || !promises.is_empty() {
        Ok(())
    } else {
        page.markup(no_promises())
    }
}

// Adds the record of an item, by its name, and the note on its promises.
#[tactic(auto, unfolding(crate::specs::Draw::named_note, crate::specs::Draw::named_record))]
pub(crate) fn put_named_record(
    alloc: Global,
    page: &mut Html,
    tables: Option<&Facts<'_>>,
    rows: &ItemRows<'_>,
    missed: u64,
    name: &[u8],
) -> Result<(), NoMemory>
    ensures { OnOk result (page.new ≡ page.old ++ (named_record (option_copied tables.entry) rows.now name.now ++ named_note rows.now missed name.now)) }
{
    let plan = rows.plan().named(name);
    let promises = rows.promises().named(name);
    put_record_or_none(alloc, page, tables, name, plan, promises)?;
    put_promises_note(page, plan, promises, missed)
}

// Adds for how many more weeks there are records and promises.
#[tactic(auto, unfolding(crate::specs::Draw::more_weeks))]
fn put_more_weeks(alloc: Global, page: &mut Html, counts: Counts) -> Result<(), NoMemory>
    ensures { OnOk result (page.new ≡ page.old ++ more_weeks counts) }
{
    put_more(
        alloc,
        page,
        counts.plan,
        b"week of a record is",
        b"weeks of records are",
    )?;
    put_more(
        alloc,
        page,
        counts.promises,
        b"week of promises is",
        b"weeks of promises are",
    )
}

// Adds how many more orders and pegs there are.
#[tactic(auto, unfolding(crate::specs::Draw::more_lists))]
fn put_more_lists(alloc: Global, page: &mut Html, counts: Counts) -> Result<(), NoMemory>
    ensures { OnOk result (page.new ≡ page.old ++ more_lists counts) }
{
    put_more(alloc, page, counts.orders, b"order is", b"orders are")?;
    put_more(alloc, page, counts.pegs, b"peg is", b"pegs are")
}

// Adds how many more rows of items are not kept.
#[tactic(auto, unfolding(crate::specs::Draw::more_rows))]
fn put_more_rows(alloc: Global, page: &mut Html, counts: Counts) -> Result<(), NoMemory>
    ensures { OnOk result (page.new ≡ page.old ++ more_rows counts) }
{
    put_more_weeks(alloc, page, counts)?;
    put_more_lists(alloc, page, counts)
}

// Adds how many more items there are than these, and how many rows of items are not kept.
#[tactic(auto, unfolding(crate::specs::Draw::more_items))]
pub(crate) fn put_more_items(
    alloc: Global,
    page: &mut Html,
    counts: Counts,
    shown: &[&Row],
) -> Result<(), NoMemory>
    ensures { OnOk result (page.new ≡ page.old ++ more_items counts (map (λ r. r.now) shown.now)) }
{
    let missed = counts.items.saturating_sub(shown.len() as u64);
    put_more(alloc, page, missed, b"item is", b"items are")?;
    put_more_rows(alloc, page, counts)
}

// Adds the history, folded away, and how many more entries it has.
#[tactic(auto, unfolding(crate::specs::Draw::history_html))]
pub(crate) fn put_history(
    alloc: Global,
    page: &mut Html,
    tables: Option<&Facts<'_>>,
    history: &[Row],
    missed: u64,
) -> Result<(), NoMemory>
    ensures { OnOk result (page.new ≡ page.old ++ history_html (option_copied tables.entry) history.now missed) }
{
    put_dated_table(page, tables, history_open(), entry(), history, grid_end())?;
    put_more(alloc, page, missed, b"entry is", b"entries are")?;
    page.markup(history_end())
}
