//! Carrying the bookings of a bundle.

ghost use Rattle.mrp_carry.specs.Carries.{Carries, CarriesTables};

use crate::fault::CarryFault;
use crate::form::CarryForm;
use crate::standing::standing_in;
use crate::start::{no_such_start, start_week};
use crate::text::{left_behind, text_of};
use mrp_bill::Shop;
use mrp_script::open_shop;
use std::alloc::Global;
use std::thread::Threads;

/// The bookings that stand at the end of a bundle's script, for the next period.
#[derive(Drop)]
pub struct Carried {
    /// The text of a script or of a list.
    pub text: Vec<u8>,
    /// How many bookings are due before the start, and so not carried.
    pub left_behind: usize,
}

// Carries the bookings of a shop, from the day with this text on.
fn carry_of(
    alloc: Global,
    shop: &Shop,
    start: &[u8],
    form: CarryForm,
) -> Result<Carried, CarryFault>
    ensures { CarriesTables shop.now.tables start.now form result }
{
    let calendar = shop.tables().calendar();
    let Some(week) = start_week(calendar, start) else {
        return Err(no_such_start(calendar));
    };
    let standing = standing_in(alloc, shop)?;
    Ok(Carried {
        text: text_of(alloc, shop, form, week, &standing)?,
        left_behind: left_behind(week, &standing),
    })
}

/// Carries the bookings of a bundle into the next period: answers its script in row order, and writes
/// the bookings that stand then and are due in the week of the start or later, in order of their
/// numbers. As a script each is a record that books its item and quantity again, for its desk, on the
/// Monday of its week. As a list there is a row for each booking that stands, with its number, and the
/// number of its record in that script if it is carried. Nothing is planned.
///
/// `start` is the text of a Monday of the horizon, which may be the first. Tables are read in two
/// threads if a second one can be started.
///
/// Errors: `Refused` with the bundle's first fault, a loop in the bill last; `NoSuchStart` if the start
/// is no Monday of the horizon; `NoMemory` if an allocation fails.
pub fn carry(
    rt: &impl Threads,
    alloc: Global,
    bundle: &[u8],
    start: &[u8],
    form: CarryForm,
) -> Result<Carried, CarryFault>
    ensures { Carries bundle.now start.now form result }
{
    let shop = open_shop(rt, alloc, bundle)?;
    carry_of(alloc, &shop, start, form)
}
