//! The items' table.

ghost use Rattle.std.specs.Prelude.{◌≡◌, ◌&&◌, nat_lt};
ghost use Rattle.mrp_rows.specs.Bundle.{text_in};
ghost use Rattle.mrp_rows.specs.Next.{GivesUnless, memory_fault, opened};
ghost use Rattle.mrp_tables.specs.Items.{is_master};
ghost use Rattle.mrp_tables.specs.Versions.{items_layout};

use crate::item::{Class, Item};
use crate::limits::most_records;
use crate::reading::{TableRows, read_records};
use crate::version::Version;
use indexmap::IndexSet;
use mrp_rows::faults::{MASTER_SAFETY, NO_MEMORY, REPEATED};
use mrp_rows::{Cursor, Fault, Name, Row, Sections, Table};
use std::alloc::Global;
use std::marker::Model;

/// The items in table order, with their names for look-ups.
#[derive(Drop)]
pub(crate) struct Items {
    items: Vec<Item>,
    names: IndexSet<Name>,
}

impl Model for Items {
    ghost use Rattle.std.specs.Prelude.{List, ◌≡◌, All};
    ghost use Rattle.mrp_tables.specs.declared.item.Item.{Item};
    ghost use Rattle.mrp_tables.specs.Facts.{AllDiffer, IsItem};
    ghost use Rattle.mrp_tables.specs.Items.{names_of};

    ghost Value = { List Item };

    ghost view = { λ t. t.items.items };

    ghost invariant = { λ t. record {
      keys : t.names.keys ≡ names_of t.items.items;
      within : All IsItem t.items.items;
      distinct : AllDiffer (names_of t.items.items);
    } };
}

/// The items so far, with the version of the bundle, which their records follow.
#[derive(Drop)]
struct ItemRows {
    version: Version,
    items: Items,
}

impl Model for ItemRows {
    ghost use Rattle.std.specs.Prelude.{◌≤◌, All};
    ghost use Rattle.mrp_tables.specs.Gathered.{GatheredItems};
    ghost use Rattle.mrp_tables.specs.Versions.{most_lead};

    ghost Value = { GatheredItems };

    ghost view = { λ t. record { version = t.version; rows = t.items } };

    ghost invariant = { λ t. All (λ item. item.lead ≤ most_lead t.version) t.items };
}

impl TableRows for ItemRows {
    type Line = Item;

    ghost use Rattle.std.specs.Prelude.{◌≡◌, []};
    ghost use Rattle.mrp_tables.specs.Items.{AreItemCells, item_row};
    ghost use Rattle.mrp_rows.specs.declared.fault.Table.TheVariants as own;
    ghost use Rattle.mrp_tables.specs.Reading.{reads_of};

    ghost takes = { λ given count. AreItemCells given.version count };

    ghost rows = { λ t. t.rows };

    ghost reads = { λ t. reads_of own.Items (item_row t.version) };

    ghost beside = { λ t. record { items = []; centres = []; weeks = 0; version = t.version } };

    fn most_records(&self) -> Option<u32> {
        most_records(Table::Items)
    }

    fn add(&mut self, row: &Row) -> Result<(), Fault> {
        let item = Item::of(row, self.version)?;
        self.items.add(row, item)
    }
}

// The records of the table, which has more columns in some versions.
fn item_records<'a>(
    alloc: Global,
    sections: &Sections<'a>,
    version: Version,
) -> Result<Cursor<'a>, Fault>
    ensures { GivesUnless (memory_fault Table.Items 0) result (opened (items_layout version) (text_in sections.now Table.Items)) }
{
    if version.has_steps() {
        Cursor::stepped_items(alloc, sections)
    } else {
        Cursor::new(alloc, sections, Table::Items)
    }
}

// A master item with safety stock.
fn is_stocked_master(item: &Item) -> bool
    ensures { result ≡ (is_master item.now.class && nat_lt 0 item.now.safety) }
{
    item.class.is_master() && item.safety.value() > 0
}

impl ItemRows {
    ghost use Rattle.std.specs.Prelude.{◌≡◌, ◌≤◌, [], All};
    ghost use Rattle.mrp_tables.specs.Versions.{most_lead};

    fn new(alloc: Global, version: Version) -> ItemRows
        ensures { result ≡ record { version = version; rows = [] } }
    {
        ItemRows {
            version,
            items: Items::new(alloc),
        }
    }

    fn into_items(self) -> Items
        ensures rows { result ≡ self.rows }
        ensures leads { All (λ item. item.lead ≤ most_lead self.version) result }
    {
        self.items
    }
}

impl Items {
    ghost use Rattle.std.specs.Prelude.{◌≡◌, ◌<◌, ◌≤◌, [], length, All, IfOk, IfSome, Ok};
    ghost use Rattle.mrp_tables.specs.declared.limits.TheConstants.{MOST_ITEMS};
    ghost use Rattle.mrp_tables.specs.Facts.{AllDiffer, IsItem, IsItemUnlessStocked};
    ghost use Rattle.mrp_tables.specs.Items.{AddsItem, is_master_at, item_at, names_of, place_of};
    ghost use Rattle.mrp_tables.specs.Readers.{GivesTable, version_in};
    ghost use Rattle.mrp_tables.specs.Versions.{most_lead};

    // The items of a bundle of a version.
    pub(crate) fn read(
        alloc: Global,
        sections: &Sections<'_>,
        version: Version,
    ) -> Result<Items, Fault>
        requires { version_in sections.now ≡ Ok version }
        ensures table { GivesTable sections.now Table.Items result (λ items. items) }
        ensures count { IfOk result (λ items. length items ≤ MOST_ITEMS) }
        ensures leads { IfOk result (λ items. All (λ item. item.lead ≤ most_lead version) items) }
    {
        let cursor = item_records(alloc, sections, version)?;
        let rows = read_records(cursor, ItemRows::new(alloc, version))?;
        Ok(rows.into_items())
    }

    // Adds an item, which a record has.
    fn add(&mut self, row: &Row, item: Item) -> Result<(), Fault>
        requires { IsItemUnlessStocked item }
        ensures { AddsItem self.old item row.now result self.new }
    {
        if self.names.contains(&item.name) {
            return Err(row.fault(REPEATED));
        }
        if is_stocked_master(&item) {
            return Err(row.fault(MASTER_SAFETY));
        }
        if self.items.push(item).is_err() {
            return Err(row.fault(NO_MEMORY));
        }
        if self.names.insert(item.name).is_err() {
            let _ = self.items.pop();
            return Err(row.fault(NO_MEMORY));
        }
        Ok(())
    }

    fn new(alloc: Global) -> Items
        ensures { result ≡ [] }
    {
        Items {
            items: Vec::new(alloc),
            names: IndexSet::new(alloc),
        }
    }

    pub(crate) fn as_slice(&self) -> &[Item]
        ensures rows { result.now ≡ self.now }
        ensures within { All IsItem result.now }
        ensures distinct { AllDiffer (names_of result.now) }
    {
        self.items.as_slice()
    }

    // The place of a name.
    pub(crate) fn find(&self, name: &Name) -> Option<usize>
        ensures place { result ≡ place_of name.now self.now }
        ensures within { IfSome result (λ place. place < length self.now) }
    {
        self.names.get_index_of(name)
    }

    // The class of the item at a place.
    pub(crate) fn class(&self, place: usize) -> Class
        requires { place < length self.now }
        ensures { result ≡ (item_at self.now place).class }
    {
        self.items[place].class
    }

    // Whether the item at a place is a master item.
    pub(crate) fn is_master(&self, place: usize) -> bool
        requires { place < length self.now }
        ensures { result ≡ is_master_at self.now place }
    {
        self.items[place].class.is_master()
    }
}
