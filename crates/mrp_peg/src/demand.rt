//! The requirements of a master item from its bookings and forecasts.

ghost use Rattle.std.specs.Prelude.{◌≡◌, ◌++◌, ◌∷◌, [], length, map, nat_lt, flat_map, if◌then◌else◌, All, IfOk, OnOk};
ghost use Rattle.std.specs.Int.{IsInRange};
ghost use Rattle.mrp_phase.specs.Weeks.{row, weeks};
ghost use Rattle.mrp_peg.specs.Rows.{beyond, booking_requirement, forecast_requirements};

use crate::matching::{Requirement, less};
use crate::peg::{Need, NeedKind};
use mrp_item::Due;
use mrp_qty::{NoMemory, Qty};
use std::alloc::Global;

// Adds the requirement of each booking.
fn add_bookings(needs: &mut Vec<Requirement>, item: usize, bookings: &[Due]) -> Result<(), NoMemory>
    ensures { OnOk result (needs.new.items ≡ needs.old.items ++ map (booking_requirement item) bookings.now) }
{
    for booking in bookings {
        let need = Need {
            item,
            week: booking.week,
            kind: NeedKind::Booking(booking.number),
        };
        let quantity = booking.quantity;
        needs.push(Requirement { need, quantity })?;
    }
    Ok(())
}

fn copy_of(alloc: Global, quantities: &[Qty]) -> Result<Vec<Qty>, NoMemory>
    ensures { IfOk result (λ copy. copy.items ≡ quantities.now) }
{
    let mut copy = Vec::with_capacity(alloc, quantities.len())?;
    for quantity in quantities {
        copy.push(*quantity)?;
    }
    Ok(copy)
}

// By how much the demand of each week exceeds the bookings.
fn left_over(alloc: Global, demand: &[Qty], bookings: &[Due]) -> Result<Vec<Qty>, NoMemory>
    requires { All (λ due. IsInRange 1 (length demand.now) due.week) bookings.now }
    ensures { IfOk result (λ left. left.items ≡ row (length demand.now) (beyond demand.now bookings.now)) }
{
    let mut left = copy_of(alloc, demand)?;
    for booking in bookings {
        let place = usize::from(booking.week) - 1;
        left[place] = less(left[place], booking.quantity);
    }
    Ok(left)
}

// Adds the requirement of a week's forecast, if it has pieces.
fn add_forecast(
    needs: &mut Vec<Requirement>,
    item: usize,
    week: u16,
    quantity: Qty,
) -> Result<(), NoMemory>
    ensures { OnOk result (needs.new.items ≡ needs.old.items ++ (if nat_lt 0 quantity then record { need = record { item = item; week = week; kind = NeedKind.Forecast }; quantity = quantity } ∷ [] else [])) }
{
    if quantity.value() > 0 {
        let need = Need {
            item,
            week,
            kind: NeedKind::Forecast,
        };
        needs.push(Requirement { need, quantity })?;
    }
    Ok(())
}

// Adds the requirement of each week's forecast: by how much it exceeds the bookings.
fn add_forecasts(
    needs: &mut Vec<Requirement>,
    item: usize,
    horizon: u16,
    left: &[Qty],
) -> Result<(), NoMemory>
    requires { length left.now ≡ horizon }
    ensures { OnOk result (needs.new.items ≡ needs.old.items ++ flat_map (forecast_requirements item left.now) (weeks horizon)) }
{
    for place in 0..horizon {
        add_forecast(needs, item, place + 1, left[usize::from(place)])?;
    }
    Ok(())
}

// The requirements of a master item from its bookings, by number, and then from its forecasts, by
// week, given the weeks of the horizon and the demand in each.
pub fn demand_of(
    alloc: Global,
    item: usize,
    horizon: u16,
    demand: &[Qty],
    bookings: &[Due],
) -> Result<Vec<Requirement>, NoMemory>
    requires weeks { length demand.now ≡ horizon }
    requires within { All (λ due. IsInRange 1 (length demand.now) due.week) bookings.now }
    ensures { IfOk result (λ needs. needs.items ≡ map (booking_requirement item) bookings.now ++ flat_map (forecast_requirements item (row (length demand.now) (beyond demand.now bookings.now))) (weeks horizon)) }
{
    let mut needs = Vec::new(alloc);
    add_bookings(&mut needs, item, bookings)?;
    let left = left_over(alloc, demand, bookings)?;
    add_forecasts(&mut needs, item, horizon, left.as_slice())?;
    Ok(needs)
}
