//! The section *Promises at risk*: the bookings that wait, through any number of orders, for a late order.

ghost use Rattle.std.specs.Prelude.{◌≡◌, ◌++◌, ◌<◌, ℕ, IfOk, IfSome, OnOk, length, map};
ghost use Rattle.mrp_page.specs.Numbering.{AreAnswers};
ghost use Rattle.mrp_page.specs.Promises.{AreRisks, are_all_kept, drawn_risk, risk_end, risk_row, risk_rows, risks_html, risks_or_none, rows_at_risk, shown_pieces};
ghost use Rattle.mrp_risk.specs.Risks.{risk_at};

use crate::counts::Counts;
use crate::draw::put_item_name;
use crate::folded::{Lines, put_capped};
use crate::html::Html;
use crate::items::put_entry;
use crate::layout::lists::{row_open, section_end, table_end};
use crate::layout::risk::{
    none_at_risk, risk_booking, risk_front, risk_middle, risk_note, risk_open, risk_order,
    risks_unknown,
};
use crate::layout::todo::weeks_late;
use crate::limits::{MOST_AMOUNT, SOME_ROWS};
use crate::numbering::answers;
use crate::orders::{ordered, put_linked};
use crate::outs::{each_of, sort_by_late};
use crate::places::Places;
use crate::row::Row;
use crate::scene::Scene;
use crate::shares::sort_by_week;
use crate::template::{put_dated, put_row};
use csv::ByteRecord;
use itoa::Buffer;
use mrp_day::Section;
use mrp_qty::NoMemory;
use mrp_risk::Risk;
use std::alloc::Global;
use std::marker::Model;

// What stands of a booking at risk, given its first peg, the late order and the text of its pieces.
fn drawn_risk<'x>(
    alloc: Global,
    peg: &'x Row,
    order: &'x Row,
    pieces: &'x [u8],
) -> Result<Row, NoMemory>
    ensures { IfOk result (λ row. row ≡ drawn_risk peg.now order.now pieces.now) }
{
    let cells = ByteRecord::from_fields(
        alloc,
        &[
            peg.cell(0),
            peg.cell(1),
            peg.cell(3),
            pieces,
            order.cell(7),
            order.cell(0),
            order.cell(1),
            order.cell(2),
        ],
    )?;
    Ok(Row::new(Section::Run, cells))
}

// How many pieces are shown.
fn shown_pieces(pieces: u128) -> u64
    ensures { result ≡ shown_pieces pieces }
{
    pieces.min(u128::from(MOST_AMOUNT)) as u64
}

// What stands of a booking at risk, given its first peg.
fn risk_row(alloc: Global, orders: &[Row], peg: &Row, risk: Risk) -> Result<Row, NoMemory>
    requires { risk.order < length orders.now }
    ensures { IfOk result (λ row. row ≡ risk_row orders.now peg.now risk) }
{
    let mut pieces = Buffer::new();
    let pieces_text = pieces.format(shown_pieces(risk.pieces)).as_bytes();
    drawn_risk(alloc, peg, &orders[risk.order], pieces_text)
}

// Adds what stands of a booking, if it is at risk.
fn add_risk(
    alloc: Global,
    rows: &mut Vec<Row>,
    orders: &[Row],
    peg: &Row,
    risk: Option<Risk>,
) -> Result<(), NoMemory>
    requires { IfSome risk (λ risk. risk.order < length orders.now) }
    ensures { OnOk result (rows.new.items ≡ rows.old.items ++ rows_at_risk orders.now peg.now risk) }
{
    match risk {
        Some(risk) => {
            let row = risk_row(alloc, orders, peg, risk)?;
            rows.push(row)?;
            Ok(())
        }
        None => Ok(()),
    }
}

// What stands of the bookings at risk.
fn risk_rows(
    alloc: Global,
    orders: &[Row],
    pegs: &[Row],
    risks: &[Option<Risk>],
) -> Result<Vec<Row>, NoMemory>
    requires size { length risks.now ≡ length pegs.now }
    requires orders { (place : ℕ) → IfSome (risk_at risks.now place) (λ risk. risk.order < length orders.now) }
    ensures { IfOk result (λ rows. rows.items ≡ risk_rows orders.now pegs.now risks.now) }
{
    let mut rows = Vec::new(alloc);
    for place in 0..pegs.len() {
        add_risk(alloc, &mut rows, orders, &pegs[place], risks[place])?;
    }
    Ok(rows)
}

// What stands of the bookings that wait for a late order.
fn rows_of(alloc: Global, orders: &Places<'_>, pegs: &[Row]) -> Result<Vec<Row>, NoMemory>
    ensures { IfOk result (λ rows. AreRisks orders.now pegs.now rows.items) }
{
    let risks = answers(alloc, orders, pegs)?;
    risk_rows(alloc, orders.rows(), pegs, risks.as_slice())
}

// Whether all orders and pegs of a day are kept: no items are named, and none of their rows is left out.
fn are_all_kept(items: &[&[u8]], counts: Counts) -> bool
    ensures { result ≡ are_all_kept items.now counts }
{
    items.is_empty() && counts.orders == 0 && counts.pegs == 0
}

// What stands of the bookings at risk, and whether they are known.
#[derive(Drop)]
pub(crate) struct Risks {
    known: bool,
    rows: Vec<Row>,
}

impl Model for Risks {
    ghost use Rattle.mrp_page.specs.AtRisk.{RisksView};

    ghost Value = { RisksView };

    ghost view = { λ r. record { known = r.known; rows = r.rows.items } };
}

impl Risks {
    ghost use Rattle.std.specs.Prelude.{◌≡◌, IfOk};
    ghost use Rattle.mrp_page.specs.Promises.{AreRisksOf};

    // The bookings at risk, if all orders and pegs are kept, and none else.
    pub(crate) fn of(
        alloc: Global,
        items: &[&[u8]],
        counts: Counts,
        orders: &Places<'_>,
        pegs: &[Row],
    ) -> Result<Risks, NoMemory>
        ensures { IfOk result (λ risks. AreRisksOf items.now counts orders.now pegs.now risks) }
    {
        if !are_all_kept(items, counts) {
            return Ok(Risks {
                known: false,
                rows: Vec::new(alloc),
            });
        }
        let rows = rows_of(alloc, orders, pegs)?;
        Ok(Risks { known: true, rows })
    }

    // Whether the bookings at risk are known.
    pub(crate) fn is_known(&self) -> bool
        ensures { result ≡ self.now.known }
    {
        self.known
    }

    pub(crate) fn rows(&self) -> &[Row]
        ensures { result.now ≡ self.now.rows }
    {
        self.rows.as_slice()
    }
}

// Adds the late order that a booking waits for, and how late it is.
#[tactic(auto, unfolding(crate::specs::Promises::risk_end))]
fn put_risk_end(page: &mut Html, scene: &Scene<'_, '_>, risk: &Row) -> Result<(), NoMemory>
    ensures { OnOk result (page.new ≡ page.old ++ risk_end scene.now risk.now) }
{
    let order = ordered(scene, risk.cell(5), risk.cell(7), risk.cell(6));
    put_linked(page, scene, order, risk_order(), risk)?;
    page.markup(b"</td>")?;
    put_row(page, weeks_late(), risk)
}

// The list of the bookings at risk.
#[derive(Clone, Copy)]
struct RiskLines<'k, 's, 'a> {
    scene: &'k Scene<'s, 'a>,
}

impl Lines for RiskLines<'_, '_, '_> {
    ghost use Rattle.mrp_page.specs.Promises.{risk_listing};

    ghost drawn = { λ lines. risk_listing lines.scene.now };

    #[tactic(auto, unfolding(crate::specs::Promises::risk_line))]
    fn put(&self, page: &mut Html, risk: &Row) -> Result<(), NoMemory> {
        page.markup(row_open())?;
        put_item_name(page, self.scene.shown(), risk.name())?;
        page.markup(risk_booking())?;
        put_entry(page, self.scene, risk.cell(2))?;
        put_dated(page, self.scene.tables(), risk_middle(), risk)?;
        put_risk_end(page, self.scene, risk)
    }

    fn front(&self) -> &'static [u8] {
        risk_front()
    }

    fn back(&self) -> &'static [u8] {
        table_end()
    }
}

// Adds the bookings at risk, that there are none, or that they are not known.
#[tactic(auto, unfolding(crate::specs::Promises::risks_or_none))]
fn put_risks_or_none(
    alloc: Global,
    page: &mut Html,
    scene: &Scene<'_, '_>,
    known: bool,
    rows: &[&Row],
) -> Result<(), NoMemory>
    ensures { OnOk result (page.new ≡ page.old ++ risks_or_none scene.now known (map (λ r. r.now) rows.now)) }
{
    if !known {
        return page.markup(risks_unknown());
    }
    if rows.is_empty() {
        return page.markup(none_at_risk());
    }
    page.markup(risk_note())?;
    put_capped(alloc, page, &RiskLines { scene }, SOME_ROWS, rows)
}

// Adds the section *Promises at risk*.
#[tactic(auto, unfolding(crate::specs::Promises::risks_html))]
pub(crate) fn put_risks(
    alloc: Global,
    page: &mut Html,
    scene: &Scene<'_, '_>,
    risks: &Risks,
) -> Result<(), NoMemory>
    ensures { OnOk result (page.new ≡ page.old ++ risks_html scene.now risks.now) }
{
    page.markup(risk_open())?;
    let mut rows = each_of(alloc, risks.rows())?;
    sort_by_week(&mut rows)?;
    sort_by_late(&mut rows)?;
    put_risks_or_none(alloc, page, scene, risks.is_known(), rows.as_slice())?;
    page.markup(section_end())
}
