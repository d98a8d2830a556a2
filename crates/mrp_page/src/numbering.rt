//! Pegs by the numbers of what they join: of orders their places, of bookings the places of their first pegs.

ghost use Rattle.std.specs.Prelude.{◌≡◌, ◌-◌, ◌<◌, IfOk, length};
ghost use Rattle.mrp_page.specs.Numbering.{AreAnswers, booking_place, is_same_booking, lateness_of, need_of, numbered_pegs, order_place, parent_place, peg_of, row_at, row_place, supplier_place};

use crate::amounts::amount;
use crate::orders::{is_numbered, is_order, place_of};
use crate::places::Places;
use crate::row::Row;
use crate::template::has_word;
use mrp_qty::NoMemory;
use mrp_risk::{Need, Peg, Risk, at_risk};
use std::alloc::Global;

// The place of the order of a parent that a peg is for, if it is kept.
fn parent_place(orders: &Places<'_>, peg: &Row) -> Option<usize>
    ensures { result ≡ parent_place orders.now peg.now }
{
    let start = orders.start(peg.cell(4));
    let (_, rest) = orders.rows().split_at(start);
    let place = place_of(peg.cell(3));
    match rest.get(place) {
        Some(order) if is_numbered(peg.cell(4), peg.cell(3), order) => Some(start + place),
        _ => None,
    }
}

// The place of the order that supplies a peg, if it is one and is kept.
fn supplier_place(orders: &Places<'_>, peg: &Row) -> Option<usize>
    ensures { result ≡ supplier_place orders.now peg.now }
{
    let start = orders.start(peg.name());
    let (_, rest) = orders.rows().split_at(start);
    let place = place_of(peg.cell(7));
    match rest.get(place) {
        Some(order) if is_order(peg.name(), peg.cell(6), peg.cell(7), order) => Some(start + place),
        _ => None,
    }
}

// What a peg is for: a booking, by a number that is given, an order, or something else.
fn need_of(orders: &Places<'_>, peg: &Row, booking: usize) -> Need
    ensures { result ≡ need_of orders.now peg.now booking }
{
    if has_word(2, b"booking", peg) {
        return Need::Booking(booking);
    }
    if !has_word(2, b"parent", peg) {
        return Need::Other;
    }
    match parent_place(orders, peg) {
        Some(place) => Need::Order(place),
        None => Need::Other,
    }
}

// A peg by the numbers of what it joins.
fn peg_of(orders: &Places<'_>, peg: &Row, booking: usize) -> Peg
    ensures { result ≡ peg_of orders.now peg.now booking }
{
    Peg {
        need: need_of(orders, peg, booking),
        supply: supplier_place(orders, peg),
        pieces: amount(peg.cell(8)),
    }
}

// Whether a peg is for the booking that the peg before it is for.
fn is_same_booking(previous: &Row, peg: &Row) -> bool
    ensures { result ≡ is_same_booking previous.now peg.now }
{
    peg.is_of(previous.name())
        && has_word(2, previous.cell(2), peg)
        && has_word(3, previous.cell(3), peg)
}

// The number of the booking that the peg at a place is for, given that of the peg before it.
fn booking_at(pegs: &[Row], place: usize, previous: usize) -> usize
    requires place { place < length pegs.now }
    requires previous { previous ≡ booking_place pegs.now (place - 1) }
    ensures { result ≡ booking_place pegs.now place }
{
    if place == 0 || is_same_booking(&pegs[place - 1], &pegs[place]) {
        previous
    } else {
        place
    }
}

// The pegs by the numbers of what they join.
fn numbered_pegs(alloc: Global, orders: &Places<'_>, pegs: &[Row]) -> Result<Vec<Peg>, NoMemory>
    ensures { IfOk result (λ found. found.items ≡ numbered_pegs orders.now pegs.now) }
{
    let mut found = Vec::with_capacity(alloc, pegs.len())?;
    let mut booking = 0;
    for place in 0..pegs.len() {
        booking = booking_at(pegs, place, booking);
        found.push(peg_of(orders, &pegs[place], booking))?;
    }
    Ok(found)
}

// How many weeks each order is late.
fn lateness_of(alloc: Global, orders: &[Row]) -> Result<Vec<u64>, NoMemory>
    ensures { IfOk result (λ lateness. lateness.items ≡ lateness_of orders.now) }
{
    let mut lateness = Vec::with_capacity(alloc, orders.len())?;
    for order in orders {
        lateness.push(amount(order.cell(7)))?;
    }
    Ok(lateness)
}

// For each peg whether the booking whose first peg it is waits for a late order.
pub(crate) fn answers(
    alloc: Global,
    orders: &Places<'_>,
    pegs: &[Row],
) -> Result<Vec<Option<Risk>>, NoMemory>
    ensures { IfOk result (λ risks. AreAnswers orders.now pegs.now risks.items) }
{
    let lateness = lateness_of(alloc, orders.rows())?;
    let numbered = numbered_pegs(alloc, orders, pegs)?;
    let risks = at_risk(alloc, &lateness, pegs.len(), &numbered)?;
    Ok(risks)
}
