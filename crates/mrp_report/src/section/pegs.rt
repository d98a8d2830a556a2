//! The section `pegs`.

ghost use Rattle.std.specs.Prelude.{◌≡◌, ◌<◌, [], ◌∷◌, ◌++◌, All, IfOk, IfSome, IsTrue, OnOk, decimal, false, flat_map};
ghost use Rattle.mrp_report.specs.page.CellOf.{cell_of};
ghost use Rattle.mrp_report.specs.section.PegText.{need_cells, peg_text};
ghost use Rattle.mrp_item.specs.Inputs.{count};
ghost use Rattle.mrp_item.specs.Plan.{outcome_of, plan_in};
ghost use Rattle.mrp_report.specs.section.PegGroups.{AreCells, whole_text};
ghost use Rattle.mrp_report.specs.section.PegRows.{IsAdded, count_left, rows_left};
ghost use Rattle.mrp_report.specs.ReportText.{pegged_text};
ghost use Rattle.mrp_report.specs.section.PegCells.{needed_cells, parent_text};
ghost use Rattle.mrp_report.specs.page.Rows.{row};
ghost use Rattle.mrp_report.specs.page.WordText.{word_text};

use crate::page::{Cell, CsvName, Line, Page, ReadyCells, Word, put_byte, put_number, put_word};
use crate::section::readings::Readings;
use crate::section::shop_names::ShopNames;
use crate::section::source::{source_cell, source_word};
use mrp_item::Order;
use mrp_peg::{Need, NeedKind, Peg, PegGroup, PegWalk, Requirement};
use mrp_qty::NoMemory;
use std::alloc::Global;

// The cells of a row that come from the requirement, or from surplus.
#[derive(Clone, Copy)]
struct Needed<'a> {
    week: Cell<'a>,
    need: Word,
    number: Cell<'a>,
    parent: Cell<'a>,
    line: Cell<'a>,
}

impl<'a> Needed<'a> {
    // The cells of surplus, or of a requirement that comes from no parent.
    fn own(week: Cell<'a>, need: Word, number: Cell<'a>) -> Needed<'a>
        ensures { needed_cells result ≡ cell_of week.entry ∷ word_text need ∷ cell_of number.entry ∷ [] ∷ [] ∷ [] }
    {
        Needed {
            week,
            need,
            number,
            parent: Cell::Empty,
            line: Cell::Empty,
        }
    }

    fn of(names: &'a ShopNames<'_>, need: Option<Need>) -> Needed<'a>
        ensures { needed_cells result ≡ need_cells names.now.tables.now need }
    {
        let Some(need) = need else {
            return Needed::own(Cell::Empty, Word::Surplus, Cell::Empty);
        };
        let week = Cell::Number(u64::from(need.week));
        match need.kind {
            NeedKind::Booking(number) => Needed::own(week, Word::Booking, Cell::Number(number)),
            NeedKind::Forecast => Needed::own(week, Word::Forecast, Cell::Empty),
            NeedKind::Service(number) => Needed::own(week, Word::Service, Cell::Number(number)),
            NeedKind::Parent { line, order } => Needed {
                week,
                need: Word::Parent,
                number: Cell::Number(order as u64),
                parent: Cell::Name(names.parent(line)),
                line: Cell::Number(line as u64),
            },
        }
    }
}

// A peg of the item with this name.
#[derive(Clone, Copy)]
struct PegLine<'a> {
    name: &'a CsvName,
    needed: Needed<'a>,
    supply: Word,
    source: Cell<'a>,
    quantity: u64,
}

impl Line for PegLine<'_> {
    ghost csv = { λ line. row (line.name.now ∷ (needed_cells line.needed ++ (word_text line.supply ∷ cell_of line.source ∷ decimal line.quantity ∷ []))) };

    #[inline(always)]
    fn put(&self, text: &mut [u8], at: usize) -> usize {
        let end = self.name.put_first(text, at);
        let end = self.needed.week.put(text, end);
        let end = put_word(text, end, self.needed.need);
        let end = self.needed.number.put(text, end);
        let end = self.needed.parent.put(text, end);
        let end = self.needed.line.put(text, end);
        let end = put_word(text, end, self.supply);
        let end = self.source.put(text, end);
        let end = put_number(text, end, self.quantity);
        put_byte(text, end, b'\n')
    }
}

// Adds a peg of an item.
fn peg_row(
    page: &mut Page,
    names: &ShopNames<'_>,
    name: &CsvName,
    orders: &[Order],
    peg: &Peg,
) -> Result<(), NoMemory>
    ensures { OnOk result (page.new ≡ page.old ++ peg_text names.now.tables.now name.now orders.now peg.now) }
{
    page.line(&PegLine {
        name,
        needed: Needed::of(names, peg.need),
        supply: source_word(peg.supply, orders),
        source: source_cell(peg.supply, names),
        quantity: peg.quantity.value(),
    })
}

// A peg of the item with this name by which an order of the item serves an order of a parent. The cells of the
// week, of the bill line and of the item's order stand ready.
#[derive(Clone, Copy)]
struct ParentLine<'a> {
    name: &'a CsvName,
    week: &'a ReadyCells,
    order: usize,
    line: &'a ReadyCells,
    source: &'a ReadyCells,
    quantity: u64,
}

impl Line for ParentLine<'_> {
    ghost csv = { parent_text };

    #[inline(always)]
    fn put(&self, text: &mut [u8], at: usize) -> usize {
        let end = self.name.put_first(text, at);
        let end = self.week.put(text, end);
        let end = put_number(text, end, self.order as u64);
        let end = self.line.put(text, end);
        let end = self.source.put(text, end);
        let end = put_number(text, end, self.quantity);
        put_byte(text, end, b'\n')
    }
}

// What the rows of a group of pegs share, where it stands ready.
#[derive(Clone, Copy)]
struct GroupCells<'a> {
    week: &'a ReadyCells,
    source: &'a ReadyCells,
}

// What an item's rows are made from.
#[derive(Clone, Copy)]
struct ItemRows<'a> {
    readings: &'a Readings<'a>,
    name: &'a CsvName,
    orders: &'a [Order],
}

impl<'a> ItemRows<'a> {
    // What a group's rows share, if it stands ready.
    #[inline(always)]
    fn cells(&self, group: &PegGroup) -> Option<GroupCells<'a>>
        ensures { IfSome result (λ cells. AreCells self.now.readings.now.names.tables.now self.now.orders.now group.now cells) }
    {
        let shares = &self.readings.pegs;
        Some(GroupCells {
            week: shares.week(group.week)?,
            source: shares.source(group.supply, self.orders)?,
        })
    }

    // The row of a requirement of a group, if all that it shares stands ready.
    #[inline(always)]
    fn parent_line(
        &self,
        group: &PegGroup,
        cells: Option<GroupCells<'a>>,
        requirement: &Requirement,
    ) -> Option<ParentLine<'a>>
        requires cells { IfSome cells (λ cells. AreCells self.now.readings.now.names.tables.now self.now.orders.now group.now cells) }
        requires week { requirement.now.need.week ≡ group.now.week }
        ensures { IfSome result (λ line. parent_text line ≡ whole_text self.now.readings.now.names.tables.now self.now.name.now self.now.orders.now group.now requirement.now) }
    {
        let cells = cells?;
        let NeedKind::Parent { line, order } = requirement.need.kind else {
            return None;
        };
        Some(ParentLine {
            name: self.name,
            week: cells.week,
            order,
            line: self.readings.pegs.line(line)?,
            source: cells.source,
            quantity: requirement.quantity.value(),
        })
    }

    // Adds a peg.
    fn add(&self, page: &mut Page, peg: &Peg) -> Result<(), NoMemory>
        ensures { OnOk result (page.new ≡ page.old ++ peg_text self.now.readings.now.names.tables.now self.now.name.now self.now.orders.now peg.now) }
    {
        peg_row(page, &self.readings.names, self.name, self.orders, peg)
    }

    // Adds the peg of a requirement of a group.
    #[inline(always)]
    fn add_whole(
        &self,
        page: &mut Page,
        group: &PegGroup,
        cells: Option<GroupCells<'a>>,
        requirement: &Requirement,
    ) -> Result<(), NoMemory>
        requires cells { IfSome cells (λ cells. AreCells self.now.readings.now.names.tables.now self.now.orders.now group.now cells) }
        requires week { requirement.now.need.week ≡ group.now.week }
        ensures { OnOk result (page.new ≡ page.old ++ whole_text self.now.readings.now.names.tables.now self.now.name.now self.now.orders.now group.now requirement.now) }
    {
        match self.parent_line(group, cells, requirement) {
            Some(line) => page.line(&line),
            None => self.add(
                page,
                &Peg {
                    item: group.item,
                    need: Some(requirement.need),
                    supply: group.supply,
                    quantity: requirement.quantity,
                },
            ),
        }
    }

    // Adds the pegs of a group, which are for these requirements.
    fn add_group(
        &self,
        page: &mut Page,
        group: &PegGroup,
        needs: &[Requirement],
    ) -> Result<(), NoMemory>
        requires { All (λ requirement. requirement.need.week ≡ group.now.week) needs.now }
        ensures { OnOk result (page.new ≡ page.old ++ flat_map (whole_text self.now.readings.now.names.tables.now self.now.name.now self.now.orders.now group.now) needs.now) }
    {
        let cells = self.cells(group);
        for requirement in needs {
            self.add_whole(page, group, cells, requirement)?;
        }
        Ok(())
    }
}

// The pegs of an item that are still to be put on a page.
#[derive(Drop)]
pub(crate) struct PegRows<'a> {
    walk: PegWalk<'a>,
    item: ItemRows<'a>,
}

impl<'a> PegRows<'a> {
    // All pegs of an item, none of them put yet.
    pub(crate) fn of(
        alloc: Global,
        readings: &'a Readings<'a>,
        item: usize,
    ) -> Result<PegRows<'a>, NoMemory>
        requires { item < count readings.now.plan.now.inputs }
        ensures { IfOk result (λ rows. rows_left rows ≡ pegged_text readings.now.plan.now.inputs item (plan_in (outcome_of readings.now.plan.now.inputs item))) }
    {
        let walk = PegWalk::of(alloc, readings.plan, item)?;
        Ok(PegRows {
            walk,
            item: ItemRows {
                readings,
                name: readings.names.item(item),
                orders: readings.plan.orders(item),
            },
        })
    }

    // Adds the next peg; returns whether there was one.
    fn add_peg(&mut self, page: &mut Page) -> Result<bool, NoMemory>
        ensures added { IfOk result (λ more. IsTrue more → IsAdded page.old page.new (rows_left self.old) (rows_left self.new)) }
        ensures fewer { IfOk result (λ more. IsTrue more → count_left self.new < count_left self.old) }
        ensures all { IfOk result (λ more. more ≡ false → (rows_left self.old ≡ []) × (page.new ≡ page.old)) }
    {
        let Some(peg) = self.walk.next()? else {
            return Ok(false);
        };
        self.item.add(page, &peg)?;
        Ok(true)
    }

    // Adds the next pegs; returns whether there were any.
    pub(crate) fn add_next(&mut self, page: &mut Page) -> Result<bool, NoMemory>
        ensures added { IfOk result (λ more. IsTrue more → IsAdded page.old page.new (rows_left self.old) (rows_left self.new)) }
        ensures fewer { IfOk result (λ more. IsTrue more → count_left self.new < count_left self.old) }
        ensures all { IfOk result (λ more. more ≡ false → (rows_left self.old ≡ []) × (page.new ≡ page.old)) }
    {
        let group = self.walk.next_group()?;
        let needs = self.walk.needs(&group);
        if needs.is_empty() {
            return self.add_peg(page);
        }
        self.item.add_group(page, &group, needs)?;
        Ok(true)
    }
}

// Adds an item's pegs.
pub(crate) fn pegged_rows(
    alloc: Global,
    page: &mut Page,
    readings: &Readings<'_>,
    item: usize,
) -> Result<(), NoMemory>
    requires { item < count readings.now.plan.now.inputs }
    ensures { OnOk result (page.new ≡ page.old ++ pegged_text readings.now.plan.now.inputs item (plan_in (outcome_of readings.now.plan.now.inputs item))) }
{
    let mut rows = PegRows::of(alloc, readings, item)?;
    while rows.add_next(page)? {}
    Ok(())
}
