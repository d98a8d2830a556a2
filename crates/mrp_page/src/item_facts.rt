//! What the tables say of an item: its master data, its stock on hand, and its safety stock in a picture.

ghost use Rattle.std.specs.Prelude.{◌≡◌, ◌++◌, IfOk, OnOk, Some};
ghost use Rattle.std.specs.Option.{option_copied};
ghost use Rattle.mrp_page.specs.ItemFacts.{class_word, facts_html, facts_row, item_facts_html, lot_word, own_facts, own_facts_html, own_safety_html, own_scale_html, safety_cell_html, safety_cell_or_none, safety_html, safety_line_html, safety_scale_html, scale_html, size_text, steps_html, unit_word};

use crate::html::Html;
use crate::layout::items::{facts_end, facts_open, facts_steps};
use crate::layout::records::{safety_line, safety_scale};
use crate::row::Row;
use crate::template::put_row;
use csv::ByteRecord;
use itoa::Buffer;
use mrp_day::Section;
use mrp_facts::{Facts, ItemFacts};
use mrp_qty::NoMemory;
use mrp_tables::{Class, Item, LeadUnit, LotRule};
use std::alloc::Global;

// The word for a class.
fn class_word(class: Class) -> &'static [u8]
    ensures { result.now ≡ class_word class }
{
    match class {
        Class::Master => b"master",
        Class::Part => b"part",
    }
}

// The word for what lead times are counted in.
fn unit_word(unit: LeadUnit) -> &'static [u8]
    ensures { result.now ≡ unit_word unit }
{
    match unit {
        LeadUnit::Weeks => b"weeks",
        LeadUnit::ShopDays => b"days",
    }
}

// The word for a lot rule.
fn lot_word(lot: LotRule) -> &'static [u8]
    ensures { result.now ≡ lot_word lot }
{
    match lot {
        LotRule::LotForLot => b"lfl",
        LotRule::Fixed(_) => b"fixed",
        LotRule::Period(_) => b"period",
    }
}

// The size of a lot rule, in pieces or weeks; empty if it has none.
fn size_text(digits: &mut Buffer, lot: LotRule) -> &[u8]
    ensures { result.now ≡ size_text lot }
{
    match lot {
        LotRule::LotForLot => b"",
        LotRule::Fixed(pieces) => digits.format(pieces).as_bytes(),
        LotRule::Period(weeks) => digits.format(weeks).as_bytes(),
    }
}

// An item's facts as a row.
#[tactic(auto, unfolding(crate::specs::ItemFacts::facts_row))]
fn facts_row(alloc: Global, unit: LeadUnit, own: &ItemFacts) -> Result<Row, NoMemory>
    ensures { IfOk result (λ row. row ≡ facts_row unit own.now) }
{
    let item = &own.item;
    let mut lead = Buffer::new();
    let mut size = Buffer::new();
    let mut least = Buffer::new();
    let mut step = Buffer::new();
    let mut percent = Buffer::new();
    let mut tenths = Buffer::new();
    let mut safety = Buffer::new();
    let mut on_hand = Buffer::new();
    let cells = ByteRecord::from_fields(
        alloc,
        &[
            class_word(item.class),
            lead.format(item.lead).as_bytes(),
            unit_word(unit),
            lot_word(item.lot),
            size_text(&mut size, item.lot),
            least.format(item.least).as_bytes(),
            step.format(item.step).as_bytes(),
            percent.format(item.scrap / 10).as_bytes(),
            tenths.format(item.scrap % 10).as_bytes(),
            safety.format(item.safety.value()).as_bytes(),
            on_hand.format(own.on_hand).as_bytes(),
        ],
    )?;
    Ok(Row::new(Section::Run, cells))
}

// Adds the minimum order quantity and the order multiple, if the item has one.
fn put_steps(page: &mut Html, item: &Item, row: &Row) -> Result<(), NoMemory>
    ensures { OnOk result (page.new ≡ page.old ++ steps_html item.now row.now) }
{
    if item.least > 0 || item.step > 1 {
        put_row(page, facts_steps(), row)
    } else {
        Ok(())
    }
}

// Adds the facts of an item.
#[tactic(auto, unfolding(crate::specs::ItemFacts::facts_html))]
fn put_facts(
    alloc: Global,
    page: &mut Html,
    unit: LeadUnit,
    own: &ItemFacts,
) -> Result<(), NoMemory>
    ensures { OnOk result (page.new ≡ page.old ++ facts_html unit own.now) }
{
    let row = facts_row(alloc, unit, own)?;
    put_row(page, facts_open(), &row)?;
    put_steps(page, &own.item, &row)?;
    put_row(page, facts_end(), &row)
}

// Adds the facts of an item, if the tables have it.
fn put_own_facts(
    alloc: Global,
    page: &mut Html,
    facts: &Facts<'_>,
    name: &[u8],
) -> Result<(), NoMemory>
    ensures { OnOk result (page.new ≡ page.old ++ own_facts_html facts.now name.now) }
{
    match facts.item(name) {
        Some(own) => put_facts(alloc, page, facts.lead_unit(), &own),
        None => Ok(()),
    }
}

// Adds what the tables say of an item; nothing without tables.
pub(crate) fn put_item_facts(
    alloc: Global,
    page: &mut Html,
    tables: Option<&Facts<'_>>,
    name: &[u8],
) -> Result<(), NoMemory>
    ensures { OnOk result (page.new ≡ page.old ++ item_facts_html (option_copied tables.entry) name.now) }
{
    match tables {
        Some(facts) => put_own_facts(alloc, page, facts, name),
        None => Ok(()),
    }
}

// The facts of an item, if the tables are given and have it.
fn own_facts(tables: Option<&Facts<'_>>, name: &[u8]) -> Option<ItemFacts>
    ensures { result ≡ own_facts (option_copied tables.entry) name.now }
{
    let facts = tables?;
    facts.item(name)
}

// Adds a dashed line at a safety stock, over the weeks of a frame.
fn put_safety_line(alloc: Global, page: &mut Html, pieces: u64, frame: &Row) -> Result<(), NoMemory>
    ensures { OnOk result (page.new ≡ page.old ++ safety_line_html pieces frame.now) }
{
    let mut digits = Buffer::new();
    let cells = ByteRecord::from_fields(alloc, &[digits.format(pieces).as_bytes(), frame.cell(1)])?;
    put_row(page, safety_line(), &Row::new(Section::Run, cells))
}

// Adds a line at the safety stock of an item, if it has one.
fn put_own_safety(
    alloc: Global,
    page: &mut Html,
    own: &ItemFacts,
    frame: &Row,
) -> Result<(), NoMemory>
    ensures { OnOk result (page.new ≡ page.old ++ own_safety_html own.now frame.now) }
{
    let pieces = own.item.safety.value();
    if pieces > 0 {
        put_safety_line(alloc, page, pieces, frame)
    } else {
        Ok(())
    }
}

// Adds a line at the safety stock of the item of a frame, if the tables have one.
pub(crate) fn put_safety(
    alloc: Global,
    page: &mut Html,
    tables: Option<&Facts<'_>>,
    frame: &Row,
) -> Result<(), NoMemory>
    ensures { OnOk result (page.new ≡ page.old ++ safety_html (option_copied tables.entry) frame.now) }
{
    match own_facts(tables, frame.name()) {
        Some(own) => put_own_safety(alloc, page, &own, frame),
        None => Ok(()),
    }
}

// Adds what the scale of a picture says of a safety stock.
fn put_safety_scale(alloc: Global, page: &mut Html, pieces: u64) -> Result<(), NoMemory>
    ensures { OnOk result (page.new ≡ page.old ++ safety_scale_html pieces) }
{
    let mut digits = Buffer::new();
    let cells = ByteRecord::from_fields(alloc, &[digits.format(pieces).as_bytes()])?;
    put_row(page, safety_scale(), &Row::new(Section::Run, cells))
}

// Adds what the scale of a picture says of an item's safety stock, if it has one.
fn put_own_scale(alloc: Global, page: &mut Html, own: &ItemFacts) -> Result<(), NoMemory>
    ensures { OnOk result (page.new ≡ page.old ++ own_scale_html own.now) }
{
    let pieces = own.item.safety.value();
    if pieces == 0 {
        return Ok(());
    }
    put_safety_scale(alloc, page, pieces)
}

// Adds what the scale of a picture says of the safety stock of the item of a frame, if the tables have one.
pub(crate) fn put_scale(
    alloc: Global,
    page: &mut Html,
    tables: Option<&Facts<'_>>,
    frame: &Row,
) -> Result<(), NoMemory>
    ensures { OnOk result (page.new ≡ page.old ++ scale_html (option_copied tables.entry) frame.now) }
{
    match own_facts(tables, frame.name()) {
        Some(own) => put_own_scale(alloc, page, &own),
        None => Ok(()),
    }
}

// Adds a cell with an item's safety stock.
fn put_safety_of(page: &mut Html, own: &ItemFacts) -> Result<(), NoMemory>
    ensures { OnOk result (page.new ≡ page.old ++ safety_cell_or_none (Some own.now)) }
{
    let mut digits = Buffer::new();
    page.number(digits.format(own.item.safety.value()).as_bytes())
}

// Adds a cell with the safety stock of an item of the tables.
fn put_own_safety_cell(page: &mut Html, facts: &Facts<'_>, name: &[u8]) -> Result<(), NoMemory>
    ensures { OnOk result (page.new ≡ page.old ++ safety_cell_html (Some facts.now) name.now) }
{
    match facts.item(name) {
        Some(own) => put_safety_of(page, &own),
        None => page.markup(b"<td></td>"),
    }
}

// Adds a cell with an item's safety stock if the tables are given.
pub(crate) fn put_safety_cell(
    page: &mut Html,
    tables: Option<&Facts<'_>>,
    name: &[u8],
) -> Result<(), NoMemory>
    ensures { OnOk result (page.new ≡ page.old ++ safety_cell_html (option_copied tables.entry) name.now) }
{
    match tables {
        Some(facts) => put_own_safety_cell(page, facts, name),
        None => Ok(()),
    }
}
