//! The routings' table.

ghost use Rattle.std.specs.Prelude.{◌≡◌, false, length, IfOk};
ghost use Rattle.std.specs.List.{list_any};
ghost use Rattle.mrp_tables.specs.Facts.{IsOperation, IsRoutingLine};
ghost use Rattle.mrp_tables.specs.Routings.{operation_beside, routing_cells, routing_placed, same_operation};

use crate::centres::Centres;
use crate::items::Items;
use crate::limits::{GREATEST_OPERATION, MOST_OFFSET, MOST_RUN, MOST_SETUP, most_records};
use crate::reading::{TableRows, read_table};
use crate::rows::Operation;
use indexmap::IndexSet;
use mrp_rows::faults::{NO_MEMORY, REPEATED, UNKNOWN_CENTRE, UNKNOWN_ITEM};
use mrp_rows::{Fault, Name, Row, Sections, Table};
use std::alloc::Global;
use std::marker::Model;

/// An operation as in its record, with the place of its item and the name of its centre.
#[derive(Clone, Copy)]
pub(crate) struct RoutingLine {
    item: usize,
    operation: u64,
    centre: Name,
    setup: u64,
    run: u64,
    offset: u64,
}

/// The operations so far, with their items and numbers.
#[derive(Drop)]
pub(crate) struct Routings<'a> {
    items: &'a Items,
    centres: &'a Centres,
    rows: Vec<Operation>,
    seen: IndexSet<(usize, u64)>,
}

impl<'a> Model for Routings<'a> {
    ghost use Rattle.std.specs.Prelude.{◌≡◌, All};
    ghost use Rattle.mrp_tables.specs.Facts.{AllDiffer, IsOperation};
    ghost use Rattle.mrp_tables.specs.Gathered.{GatheredByCentre};
    ghost use Rattle.mrp_tables.specs.declared.rows.Operation.{Operation};
    ghost use Rattle.mrp_tables.specs.Routings.{operations_of};

    ghost Value = { GatheredByCentre Operation };

    ghost view = { λ t. record { items = t.items.now; centres = t.centres.now; rows = t.rows.items } };

    ghost invariant = { λ t. record {
      keys : t.seen.keys ≡ operations_of t.rows.items;
      within : All (IsOperation t.items.now t.centres.now) t.rows.items;
      distinct : AllDiffer (operations_of t.rows.items);
    } };
}

impl<'a> TableRows for Routings<'a> {
    type Line = Operation;

    ghost use Rattle.std.specs.Prelude.{◌≡◌};
    ghost use Rattle.mrp_rows.specs.declared.fault.Table.TheVariants as own;
    ghost use Rattle.mrp_tables.specs.Gathered.{beside_centres};
    ghost use Rattle.mrp_tables.specs.Reading.{reads_of};
    ghost use Rattle.mrp_tables.specs.Routings.{operation_row};

    ghost takes = { λ given count. count ≡ 6 };

    ghost rows = { λ t. t.rows };

    ghost reads = { λ t. reads_of own.Routings (operation_row t.items t.centres) };

    ghost beside = { λ t. beside_centres t.items t.centres };

    fn most_records(&self) -> Option<u32> {
        most_records(Table::Routings)
    }

    fn add(&mut self, row: &Row) -> Result<(), Fault> {
        let operation = operation_of(row, self.items, self.centres, &self.seen)?;
        let numbered = (operation.item, operation.operation);
        if self.rows.push(operation).is_err() {
            return Err(row.fault(NO_MEMORY));
        }
        if self.seen.insert(numbered).is_err() {
            let _ = self.rows.pop();
            return Err(row.fault(NO_MEMORY));
        }
        Ok(())
    }
}

#[tactic(auto, unfolding(crate::specs::Routings::routing_cells))]
fn routing_cells(row: &Row, items: &Items) -> Result<RoutingLine, Fault>
    requires { length row.now.cells ≡ 6 }
    ensures cells { result ≡ routing_cells items.now row.now }
    ensures within { IfOk result (IsRoutingLine items.now) }
{
    let name = row.name(0)?;
    let operation = row.number(1, 1, GREATEST_OPERATION)?;
    let centre = row.name(2)?;
    let setup = row.number(3, 0, MOST_SETUP)?;
    let run = row.number(4, 0, MOST_RUN)?;
    let offset = row.number(5, 0, MOST_OFFSET)?;
    match items.find(&name) {
        Some(item) => Ok(RoutingLine {
            item,
            operation,
            centre,
            setup,
            run,
            offset,
        }),
        None => Err(row.fault(UNKNOWN_ITEM)),
    }
}

// A record as an operation whose item and number are new.
fn operation_of(
    row: &Row,
    items: &Items,
    centres: &Centres,
    seen: &IndexSet<(usize, u64)>,
) -> Result<Operation, Fault>
    requires { length row.now.cells ≡ 6 }
    ensures cells { result ≡ operation_beside items.now centres.now seen.now.keys row.now }
    ensures fresh { IfOk result (λ o. list_any (same_operation (o.item, o.operation)) seen.now.keys ≡ false) }
    ensures within { IfOk result (IsOperation items.now centres.now) }
{
    let line = routing_cells(row, items)?;
    if seen.contains(&(line.item, line.operation)) {
        return Err(row.fault(REPEATED));
    }
    routing_placed(row, items, centres, &line)
}

// A routing line as an operation of a centre.
#[tactic(auto, unfolding(crate::specs::Routings::routing_placed))]
fn routing_placed(
    row: &Row,
    items: &Items,
    centres: &Centres,
    line: &RoutingLine,
) -> Result<Operation, Fault>
    requires { IsRoutingLine items.now line.now }
    ensures placed { result ≡ routing_placed centres.now row.now line.now }
    ensures item { IfOk result (λ o. o.item ≡ line.now.item) }
    ensures number { IfOk result (λ o. o.operation ≡ line.now.operation) }
    ensures within { IfOk result (IsOperation items.now centres.now) }
{
    match centres.find(&line.centre) {
        Some(centre) => Ok(Operation {
            item: line.item,
            operation: line.operation,
            centre,
            setup: line.setup,
            run: line.run,
            offset: line.offset,
        }),
        None => Err(row.fault(UNKNOWN_CENTRE)),
    }
}

impl<'a> Routings<'a> {
    ghost use Rattle.std.specs.Prelude.{◌≡◌, ◌≤◌, [], All, IfOk, Ok, length};
    ghost use Rattle.mrp_tables.specs.declared.limits.TheConstants.{MOST_OPERATIONS};
    ghost use Rattle.mrp_tables.specs.Facts.{AllDiffer, IsOperation};
    ghost use Rattle.mrp_tables.specs.Readers.{GivesTable, centres_in, items_in};
    ghost use Rattle.mrp_tables.specs.Routings.{operations_of};

    pub(crate) fn read(
        alloc: Global,
        sections: &Sections<'_>,
        items: &'a Items,
        centres: &'a Centres,
    ) -> Result<Vec<Operation>, Fault>
        requires items { items_in sections.now ≡ Ok items.now }
        requires centres { centres_in sections.now ≡ Ok centres.now }
        ensures table { GivesTable sections.now Table.Routings result (λ rows. rows.items) }
        ensures within { IfOk result (λ rows. All (IsOperation items.now centres.now) rows.items) }
        ensures once { IfOk result (λ rows. AllDiffer (operations_of rows.items)) }
        ensures count { IfOk result (λ rows. length rows.items ≤ MOST_OPERATIONS) }
    {
        let empty = Routings::new(alloc, items, centres);
        let routings = read_table(alloc, sections, Table::Routings, empty)?;
        Ok(routings.into_rows())
    }

    fn new(alloc: Global, items: &'a Items, centres: &'a Centres) -> Routings<'a>
        ensures { result ≡ record { items = items.now; centres = centres.now; rows = [] } }
    {
        Routings {
            items,
            centres,
            rows: Vec::new(alloc),
            seen: IndexSet::new(alloc),
        }
    }

    fn into_rows(self) -> Vec<Operation>
        ensures rows { result.items ≡ self.entry.rows }
        ensures within { All (IsOperation self.entry.items self.entry.centres) result.items }
        ensures distinct { AllDiffer (operations_of result.items) }
    {
        let Routings {
            items: _,
            centres: _,
            rows,
            seen: _,
        } = self;
        rows
    }
}
