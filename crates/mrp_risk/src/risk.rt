//! The bookings at risk.

ghost use Rattle.std.specs.Prelude.{◌≡◌, ◌⊎◌, ◌+◌, ◌-◌, ◌*◌, ◌^◌, ◌≤◌, ◌<◌, ℕ, IfOk, IfSome, length};
ghost use Rattle.mrp_risk.specs.Adding.{AddsPeg, AddsTo, AddsToNeed, IsWith, mark_of, pieces_in};
ghost use Rattle.mrp_risk.specs.Chains.{AreBookedWithin, AreWithin, ComesFirst, IsBookedWithin};
ghost use Rattle.mrp_risk.specs.Risks.{IsAnswer, risk_at};

use crate::marking::marks_of;
use crate::peg::{Need, Peg};
use mrp_qty::NoMemory;
use std::alloc::Global;

/// What a booking at risk waits for.
#[derive(Clone, Copy)]
pub struct Risk {
    /// The number of the latest of the late orders that it waits for; of equally late ones the least.
    pub order: usize,
    /// How many of its pieces wait for late orders.
    pub pieces: u128,
}

// The first of two orders in falling lateness.
fn first_of(lateness: &[u64], order: usize, other: usize) -> usize
    requires order { order < length lateness.now }
    requires other { other < length lateness.now }
    ensures one { (result ≡ order) ⊎ (result ≡ other) }
    ensures order { ComesFirst lateness.now result order }
    ensures other { ComesFirst lateness.now result other }
{
    let weeks = lateness[order];
    let other_weeks = lateness[other];
    if weeks < other_weeks || (weeks == other_weeks && other < order) {
        other
    } else {
        order
    }
}

// A risk with the pieces of one more peg, which wait for a late order.
fn with_pieces(lateness: &[u64], risk: Option<Risk>, order: usize, pieces: u64) -> Risk
    requires order { order < length lateness.now }
    requires risk { IfSome risk (λ risk. risk.order < length lateness.now) }
    requires room { pieces_in risk < 2 ^ 127 }
    ensures { IsWith lateness.now risk order pieces result }
{
    match risk {
        Some(risk) => Risk {
            order: first_of(lateness, risk.order, order),
            pieces: risk.pieces + u128::from(pieces),
        },
        None => Risk {
            order,
            pieces: u128::from(pieces),
        },
    }
}

// Adds pieces that wait for a late order to the risk of the booking that they are for, if they are for
// one.
fn add_pieces(
    risks: &mut Vec<Option<Risk>>,
    lateness: &[u64],
    need: Need,
    order: usize,
    pieces: u64,
)
    requires need { IsBookedWithin (length risks.old.items) need }
    requires order { order < length lateness.now }
    requires orders { (booking : ℕ) → IfSome (risk_at risks.old.items booking) (λ risk. risk.order < length lateness.now) }
    requires room { (booking : ℕ) → pieces_in (risk_at risks.old.items booking) < 2 ^ 127 }
    ensures { AddsToNeed lateness.now need order pieces risks.old.items risks.new.items }
{
    match need {
        Need::Booking(booking) => {
            let risk = with_pieces(lateness, risks[booking], order, pieces);
            risks[booking] = Some(risk);
        }
        Need::Order(_) => {}
        Need::Other => {}
    }
}

// The late order that the pieces of a supply wait for.
fn mark_of(marks: &[Option<usize>], supply: Option<usize>) -> Option<usize>
    requires { IfSome supply (λ order. order < length marks.now) }
    ensures { result ≡ mark_of marks.now supply }
{
    match supply {
        Some(order) => marks[order],
        None => None,
    }
}

// Adds the pieces of a peg to its booking's risk, if they wait for a late order.
fn add_peg(risks: &mut Vec<Option<Risk>>, lateness: &[u64], marks: &[Option<usize>], peg: &Peg)
    requires need { IsBookedWithin (length risks.old.items) peg.now.need }
    requires supply { IfSome peg.now.supply (λ order. order < length marks.now) }
    requires order { IfSome (mark_of marks.now peg.now.supply) (λ order. order < length lateness.now) }
    requires orders { (booking : ℕ) → IfSome (risk_at risks.old.items booking) (λ risk. risk.order < length lateness.now) }
    requires room { (booking : ℕ) → pieces_in (risk_at risks.old.items booking) < 2 ^ 127 }
    ensures { AddsPeg lateness.now peg.now (mark_of marks.now peg.now.supply) risks.old.items risks.new.items }
{
    match mark_of(marks, peg.supply) {
        Some(order) => add_pieces(risks, lateness, peg.need, order, peg.pieces),
        None => {}
    }
}

/// For each of a number of bookings whether it is at risk: whether a chain of pegs leads from it down to
/// a late order. `lateness` has how many weeks each order is late, 0 if it is not. The numbers of orders
/// and bookings count from 0.
///
/// The order of the pegs changes nothing, and chains may lead back to where they began. This is linear
/// in orders, bookings and pegs, except that the late orders are sorted.
///
/// Errors: `NoMemory` if an allocation fails.
pub fn at_risk(
    alloc: Global,
    lateness: &[u64],
    bookings: usize,
    pegs: &[Peg],
) -> Result<Vec<Option<Risk>>, NoMemory>
    requires orders { AreWithin (length lateness.now) pegs.now }
    requires bookings { AreBookedWithin bookings pegs.now }
    ensures size { IfOk result (λ risks. length risks.items ≡ bookings) }
    ensures answers { IfOk result (λ risks. (booking : ℕ) → booking < bookings → IsAnswer lateness.now pegs.now booking (risk_at risks.items booking)) }
{
    let marks = marks_of(alloc, lateness, pegs)?;
    let mut risks = vec![in alloc; None; bookings]?;
    for peg in pegs {
        add_peg(&mut risks, lateness, &marks, peg);
    }
    Ok(risks)
}
