//! The operations that load overloads, by the tables of the day and the orders that are kept.

ghost use Rattle.std.specs.Prelude.{◌≡◌, ◌++◌, ◌<◌, All, IfOk, IfSome, OnOk, length, map};
ghost use Rattle.std.specs.Option.{option_copied, option_to_list};
ghost use Rattle.mrp_page.specs.Work.{centre_named, order_of_row, place_of_load, places_of_loads, work_orders, work_view};

use crate::amounts::amount;
use crate::row::Row;
use crate::scene::Scene;
use mrp_facts::Facts;
use mrp_qty::{NoMemory, Qty};
use mrp_tables::Tables;
use mrp_work::{Work, WorkOrder, WorkTable};
use std::alloc::Global;
use std::marker::Model;

// The place of the work centre with a name, from 0.
fn centre_named(tables: &Tables, name: &[u8]) -> Option<usize>
    ensures { result ≡ centre_named tables.now name.now }
{
    let mut centres = tables.centres().iter();
    centres.position(|centre| centre.name.as_bytes() == name)
}

// An order of the day, by its place among those that are kept, as it loads work centres; `None` if the tables
// have no such item, or if what starts is no quantity.
fn order_of_row(facts: &Facts<'_>, place: usize, order: &Row) -> Option<WorkOrder>
    ensures order { result ≡ order_of_row facts.now.tables place order.now }
    ensures within { IfSome result (λ order. order.item < length facts.now.tables.items) }
{
    let item = facts.place(order.name())?;
    let start = Qty::new(amount(order.cell(5)))?;
    Some(WorkOrder {
        number: place,
        item,
        due: amount(order.cell(3)),
        release: amount(order.cell(6)),
        start,
    })
}

// Adds an order, if it loads work centres.
fn add_order(
    found: &mut Vec<WorkOrder>,
    facts: &Facts<'_>,
    place: usize,
    order: &Row,
) -> Result<(), NoMemory>
    requires { All (λ order. order.item < length facts.now.tables.items) found.old.items }
    ensures orders { OnOk result (found.new.items ≡ found.old.items ++ option_to_list (order_of_row facts.now.tables place order.now)) }
    ensures within { OnOk result (All (λ order. order.item < length facts.now.tables.items) found.new.items) }
{
    if let Some(order) = order_of_row(facts, place, order) {
        found.push(order)?;
    }
    Ok(())
}

// The orders of a day, as they load work centres.
fn work_orders(alloc: Global, facts: &Facts<'_>, orders: &[Row]) -> Result<Vec<WorkOrder>, NoMemory>
    ensures orders { IfOk result (λ found. found.items ≡ work_orders facts.now.tables orders.now) }
    ensures within { IfOk result (λ found. All (λ order. order.item < length facts.now.tables.items) found.items) }
{
    let mut found = Vec::new(alloc);
    for place in 0..orders.len() {
        add_order(&mut found, facts, place, &orders[place])?;
    }
    Ok(found)
}

// The work centre, by its place, and the week of a row of the loads.
fn place_of_load(tables: &Tables, load: &Row) -> Option<(usize, u64)>
    ensures { result ≡ place_of_load tables.now load.now }
{
    let centre = centre_named(tables, load.name())?;
    Some((centre, amount(load.cell(1))))
}

// Adds the work centre and the week of a row of the loads, if the tables have the work centre.
fn add_place(places: &mut Vec<(usize, u64)>, tables: &Tables, load: &Row) -> Result<(), NoMemory>
    ensures { OnOk result (places.new.items ≡ places.old.items ++ option_to_list (place_of_load tables.now load.now)) }
{
    if let Some(place) = place_of_load(tables, load) {
        places.push(place)?;
    }
    Ok(())
}

// The work centres and the weeks of rows of the loads.
fn places_of_loads(
    alloc: Global,
    tables: &Tables,
    loads: &[&Row],
) -> Result<Vec<(usize, u64)>, NoMemory>
    ensures { IfOk result (λ places. places.items ≡ places_of_loads tables.now (map (λ r. r.now) loads.now)) }
{
    let mut places = Vec::new(alloc);
    for load in loads {
        add_place(&mut places, tables, *load)?;
    }
    Ok(places)
}

// The operations that load some overloads. Contracts see the tables of the day, the orders that are kept and
// the overloads.
#[derive(Drop)]
pub(crate) struct LoadWork<'k, 's, 'a> {
    facts: &'s Facts<'s>,
    orders: &'a [Row],
    asked: &'k [&'a Row],
    table: WorkTable,
}

impl<'k, 's, 'a> Model for LoadWork<'k, 's, 'a> {
    ghost use Rattle.std.specs.Prelude.{◌≡◌, ℕ, map};
    ghost use Rattle.mrp_work.specs.Found.{found_at};
    ghost use Rattle.mrp_work.specs.Work.{all_work, found_of};
    ghost use Rattle.mrp_page.specs.Work.{WorkView, places_of_loads, work_orders};

    ghost Value = { WorkView };

    ghost view = { λ w. record { facts = w.facts.now; orders = w.orders.now; asked = map (λ r. r.now) w.asked.now } };

    ghost invariant = { λ w. (centre week : ℕ) → found_at w.table centre week ≡ found_of (places_of_loads w.facts.now.tables (map (λ r. r.now) w.asked.now)) (all_work w.facts.now.tables.routings (work_orders w.facts.now.tables w.orders.now)) centre week };
}

impl<'k, 's, 'a> LoadWork<'k, 's, 'a> {
    ghost use Rattle.std.specs.Prelude.{◌≡◌, ◌<◌, All, IfOk, IfSome, length, map};
    ghost use Rattle.std.specs.Option.{option_copied};
    ghost use Rattle.mrp_page.specs.Numbering.{row_at};
    ghost use Rattle.mrp_page.specs.Work.{works_of};

    // The operations of orders that load these overloads.
    fn of(
        alloc: Global,
        facts: &'s Facts<'s>,
        orders: &'a [Row],
        asked: &'k [&'a Row],
    ) -> Result<LoadWork<'k, 's, 'a>, NoMemory>
        ensures { IfOk result (λ work. work ≡ record { facts = facts.now; orders = orders.now; asked = map (λ r. r.now) asked.now }) }
    {
        let tables = facts.tables();
        let found = work_orders(alloc, facts, orders)?;
        let places = places_of_loads(alloc, tables, asked)?;
        let table = WorkTable::of(alloc, tables, found.as_slice(), places.as_slice())?;
        Ok(LoadWork {
            facts,
            orders,
            asked,
            table,
        })
    }

    // The operations that load an overload; `None` if it was not asked for. Each is of an order that is kept.
    pub(crate) fn works(&self, load: &Row) -> Option<&[Work]>
        ensures works { option_copied result ≡ works_of self.now load.now }
        ensures within { IfSome result (λ works. All (λ work. work.order < length self.now.orders) works.now) }
    {
        let (centre, week) = place_of_load(self.facts.tables(), load)?;
        self.table.at(centre, week)
    }

    // The orders that are kept.
    pub(crate) fn orders(&self) -> &'a [Row]
        ensures { result.now ≡ self.now.orders }
    {
        self.orders
    }
}

// The operations that load some overloads, if the tables are given.
pub(crate) fn work_of<'k, 's, 'a>(
    alloc: Global,
    scene: &Scene<'s, 'a>,
    asked: &'k [&'a Row],
) -> Result<Option<LoadWork<'k, 's, 'a>>, NoMemory>
    ensures { IfOk result (λ work. work ≡ work_view scene.now.tables scene.now.orders (map (λ r. r.now) asked.now)) }
{
    match scene.tables() {
        Some(facts) => Ok(Some(LoadWork::of(alloc, facts, scene.orders(), asked)?)),
        None => Ok(None),
    }
}
