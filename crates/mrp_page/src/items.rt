//! The items of a page.

ghost use Rattle.std.specs.Prelude.{◌≡◌, ◌++◌, OnOk, flat_map, map};
ghost use Rattle.std.specs.Option.{option_copied};
ghost use Rattle.mrp_page.specs.Items.{count_html, index_html, index_line, item_html, item_lists_html, items_html, late_html, message_count, need_html, orders_html, parent_of, peg_html, pegs_html, supplier_of, supply_html, wait_html, waits_html};
ghost use Rattle.mrp_page.specs.Pegs.{waits_for};
ghost use Rattle.mrp_page.specs.Refused.{entry_name_html};

use crate::draw::{put_dated_table, put_item_name, put_link, put_named_record};
use crate::frame::put_count_row;
use crate::html::Html;
use crate::item_facts::put_item_facts;
use crate::item_rows::ItemRows;
use crate::layout::items::{
    index_count, item_head, items_end, items_open, lists_open, order, orders_open, peg_back,
    peg_booking, peg_middle, peg_need, peg_parent, peg_supply, pegs_open, wait_end, wait_late,
    wait_order, wait_supply, waits_open,
};
use crate::layout::lists::{bullet_end, bullet_open, grid_end, rest_end, row_open, section_end};
use crate::orders::{numbered, ordered, put_linked};
use crate::places::Places;
use crate::refused::put_entry_link;
use crate::row::Row;
use crate::said::put_item_messages;
use crate::scene::Scene;
use crate::template::{has_word, put_dated, put_row};
use mrp_facts::Facts;
use mrp_qty::NoMemory;
use std::alloc::Global;

// Adds the orders of an item.
#[tactic(auto, unfolding(crate::specs::Items::orders_html))]
fn put_orders(page: &mut Html, tables: Option<&Facts<'_>>, orders: &[Row]) -> Result<(), NoMemory>
    ensures { OnOk result (page.new ≡ page.old ++ orders_html (option_copied tables.entry) orders.now) }
{
    put_dated_table(page, tables, orders_open(), order(), orders, grid_end())
}

// The order of a parent that a peg is for, if it is kept.
fn parent_of<'a>(scene: &Scene<'_, 'a>, peg: &Row) -> Option<&'a Row>
    ensures { option_copied result ≡ parent_of scene.now peg.now }
{
    numbered(scene, peg.cell(4), peg.cell(3))
}

// The order that is the supply of a peg, if it is one and is kept.
fn supplier_of<'a>(scene: &Scene<'_, 'a>, peg: &Row) -> Option<&'a Row>
    ensures { option_copied result ≡ supplier_of scene.now peg.now }
{
    ordered(scene, peg.name(), peg.cell(6), peg.cell(7))
}

// Adds the number of an entry, as a link if the entry is on the page.
#[tactic(auto, unfolding(crate::specs::Refused::entry_name_html))]
pub(crate) fn put_entry(
    page: &mut Html,
    scene: &Scene<'_, '_>,
    number: &[u8],
) -> Result<(), NoMemory>
    ensures { OnOk result (page.new ≡ page.old ++ entry_name_html scene.now.history number.now) }
{
    if scene.has_entry(number) {
        put_entry_link(page, number)
    } else {
        page.text(number)
    }
}

// Adds what a peg is for: a booking, an order of a parent, or something else.
#[tactic(auto, unfolding(crate::specs::Items::need_html))]
fn put_need(page: &mut Html, scene: &Scene<'_, '_>, peg: &Row) -> Result<(), NoMemory>
    ensures { OnOk result (page.new ≡ page.old ++ need_html scene.now peg.now) }
{
    if has_word(2, b"booking", peg) {
        page.markup(peg_booking())?;
        put_entry(page, scene, peg.cell(3))
    } else if has_word(2, b"parent", peg) {
        let parent = parent_of(scene, peg);
        put_linked(page, scene, parent, peg_parent(), peg)
    } else {
        put_row(page, peg_need(), peg)
    }
}

// Adds the supply of a peg.
fn put_supply(page: &mut Html, scene: &Scene<'_, '_>, peg: &Row) -> Result<(), NoMemory>
    ensures { OnOk result (page.new ≡ page.old ++ supply_html scene.now peg.now) }
{
    let supplier = supplier_of(scene, peg);
    put_linked(page, scene, supplier, peg_supply(), peg)
}

// Adds a peg: where pieces of a supply go.
#[tactic(auto, unfolding(crate::specs::Items::peg_html))]
fn put_peg(page: &mut Html, scene: &Scene<'_, '_>, peg: &Row) -> Result<(), NoMemory>
    ensures { OnOk result (page.new ≡ page.old ++ peg_html scene.now peg.now) }
{
    page.markup(row_open())?;
    put_supply(page, scene, peg)?;
    put_row(page, peg_middle(), peg)?;
    put_need(page, scene, peg)?;
    put_dated(page, scene.tables(), peg_back(), peg)
}

// Adds pegs.
fn put_each_peg(page: &mut Html, scene: &Scene<'_, '_>, pegs: &[Row]) -> Result<(), NoMemory>
    ensures { OnOk result (page.new ≡ page.old ++ flat_map (peg_html scene.now) pegs.now) }
{
    for peg in pegs {
        put_peg(page, scene, peg)?;
    }
    Ok(())
}

// Adds the pegs of an item.
#[tactic(auto, unfolding(crate::specs::Items::pegs_html))]
fn put_pegs(page: &mut Html, scene: &Scene<'_, '_>, pegs: &[Row]) -> Result<(), NoMemory>
    ensures { OnOk result (page.new ≡ page.old ++ pegs_html scene.now pegs.now) }
{
    page.markup(pegs_open())?;
    put_each_peg(page, scene, pegs)?;
    page.markup(grid_end())
}

// Adds how late an order is.
fn put_late(page: &mut Html, order: Option<&Row>) -> Result<(), NoMemory>
    ensures { OnOk result (page.new ≡ page.old ++ late_html (option_copied order.entry)) }
{
    match order {
        Some(order) => put_row(page, wait_late(), order),
        None => page.markup(wait_end()),
    }
}

// Adds a component that an order waits for.
#[tactic(auto, unfolding(crate::specs::Items::wait_html))]
fn put_wait(page: &mut Html, scene: &Scene<'_, '_>, peg: &Row) -> Result<(), NoMemory>
    ensures { OnOk result (page.new ≡ page.old ++ wait_html scene.now peg.now) }
{
    let parent = parent_of(scene, peg);
    let supplier = supplier_of(scene, peg);
    page.markup(row_open())?;
    put_linked(page, scene, parent, wait_order(), peg)?;
    put_row(page, peg_middle(), peg)?;
    put_item_name(page, scene.shown(), peg.name())?;
    page.markup(wait_supply())?;
    put_supply(page, scene, peg)?;
    put_late(page, supplier)
}

// Adds components that orders wait for.
fn put_each_wait(page: &mut Html, scene: &Scene<'_, '_>, pegs: &[&Row]) -> Result<(), NoMemory>
    ensures { OnOk result (page.new ≡ page.old ++ flat_map (wait_html scene.now) (map (λ r. r.now) pegs.now)) }
{
    for peg in pegs {
        put_wait(page, scene, *peg)?;
    }
    Ok(())
}

// Adds what the orders of an item wait for; nothing if that is nothing.
#[tactic(auto, unfolding(crate::specs::Items::waits_html))]
fn put_waits(page: &mut Html, scene: &Scene<'_, '_>, pegs: &[&Row]) -> Result<(), NoMemory>
    ensures { OnOk result (page.new ≡ page.old ++ waits_html scene.now (map (λ r. r.now) pegs.now)) }
{
    if pegs.is_empty() {
        return Ok(());
    }
    page.markup(waits_open())?;
    put_each_wait(page, scene, pegs)?;
    page.markup(grid_end())
}

// Adds what the orders of an item wait for.
#[tactic(auto, unfolding(crate::specs::Items::waits_html))]
fn put_waits_for(page: &mut Html, scene: &Scene<'_, '_>, name: &[u8]) -> Result<(), NoMemory>
    ensures { OnOk result (page.new ≡ page.old ++ waits_html scene.now (waits_for scene.now.pegs name.now)) }
{
    match scene.waits_for(name) {
        Some(pegs) => put_waits(page, scene, pegs.as_slice()),
        None => Ok(()),
    }
}

// Adds the orders of an item, where they go, and what they wait for.
#[tactic(auto, unfolding(crate::specs::Items::item_lists_html))]
fn put_item_lists(page: &mut Html, scene: &Scene<'_, '_>, name: &[u8]) -> Result<(), NoMemory>
    ensures { OnOk result (page.new ≡ page.old ++ item_lists_html scene.now name.now) }
{
    page.markup(lists_open())?;
    put_orders(page, scene.tables(), scene.orders_of(name))?;
    put_pegs(page, scene, scene.pegs_of(name))?;
    put_waits_for(page, scene, name)?;
    page.markup(rest_end())?;
    page.markup(section_end())
}

// Adds an item, given how many rows of promises are not kept.
#[tactic(auto, unfolding(crate::specs::Items::item_html))]
fn put_item(
    alloc: Global,
    page: &mut Html,
    scene: &Scene<'_, '_>,
    rows: &ItemRows<'_>,
    missed: u64,
    leader: &Row,
) -> Result<(), NoMemory>
    ensures { OnOk result (page.new ≡ page.old ++ item_html scene.now rows.now missed leader.now) }
{
    let name = leader.name();
    put_row(page, item_head(), leader)?;
    put_item_facts(alloc, page, scene.tables(), name)?;
    put_item_messages(alloc, page, scene, rows, leader)?;
    put_named_record(alloc, page, scene.tables(), rows, missed, name)?;
    put_item_lists(page, scene, name)
}

// Adds items.
pub(crate) fn put_items(
    alloc: Global,
    page: &mut Html,
    scene: &Scene<'_, '_>,
    rows: &ItemRows<'_>,
    missed: u64,
    leaders: &[&Row],
) -> Result<(), NoMemory>
    ensures { OnOk result (page.new ≡ page.old ++ items_html scene.now rows.now missed (map (λ r. r.now) leaders.now)) }
{
    for leader in leaders {
        put_item(alloc, page, scene, rows, missed, *leader)?;
    }
    Ok(())
}

// How many messages an item has.
fn message_count(messages: &Places<'_>, leader: &Row) -> usize
    ensures { result ≡ message_count messages.now leader.now }
{
    messages.named(leader.name()).len()
}

// Adds a count behind a name; nothing if it is 0.
fn put_count(alloc: Global, page: &mut Html, count: u64) -> Result<(), NoMemory>
    ensures { OnOk result (page.new ≡ page.old ++ count_html count) }
{
    if count == 0 {
        return Ok(());
    }
    put_count_row(alloc, page, index_count(), count, b"", b"")
}

// Adds an item of the index.
#[tactic(auto, unfolding(crate::specs::Items::index_line))]
fn put_index_line(
    alloc: Global,
    page: &mut Html,
    messages: &Places<'_>,
    leader: &Row,
) -> Result<(), NoMemory>
    ensures { OnOk result (page.new ≡ page.old ++ index_line messages.now leader.now) }
{
    page.markup(bullet_open())?;
    put_link(page, leader.name())?;
    put_count(alloc, page, message_count(messages, leader) as u64)?;
    page.markup(bullet_end())
}

// Adds items of the index.
fn put_index_lines(
    alloc: Global,
    page: &mut Html,
    messages: &Places<'_>,
    leaders: &[&Row],
) -> Result<(), NoMemory>
    ensures { OnOk result (page.new ≡ page.old ++ flat_map (index_line messages.now) (map (λ r. r.now) leaders.now)) }
{
    for leader in leaders {
        put_index_line(alloc, page, messages, *leader)?;
    }
    Ok(())
}

// Adds the index of the items.
#[tactic(auto, unfolding(crate::specs::Items::index_html))]
pub(crate) fn put_index(
    alloc: Global,
    page: &mut Html,
    messages: &Places<'_>,
    leaders: &[&Row],
) -> Result<(), NoMemory>
    ensures { OnOk result (page.new ≡ page.old ++ index_html messages.now (map (λ r. r.now) leaders.now)) }
{
    page.markup(items_open())?;
    put_index_lines(alloc, page, messages, leaders)?;
    page.markup(items_end())
}
