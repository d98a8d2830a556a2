//! What is odd about work centres.

ghost use Rattle.std.specs.Prelude.{◌≡◌, IfOk, length, map};
ghost use Rattle.mrp_warn.specs.Centres.{idle_warnings, minutes_warnings, odd_centre, odd_minutes};
ghost use Rattle.mrp_warn.specs.Rows.{tally};

use crate::limits::LIKELY_HOURS;
use crate::oddity::{Oddity, Warning};
use crate::tally::tally;
use mrp_qty::NoMemory;
use mrp_rows::Name;
use mrp_tables::{Centre, Operation};
use std::alloc::Global;

fn centres_named(alloc: Global, routings: &[Operation]) -> Result<Vec<usize>, NoMemory>
    ensures { IfOk result (λ own. own.items ≡ map (λ o. o.centre) routings.now) }
{
    let own = routings.iter().map(|row| row.centre).collect(alloc)?;
    Ok(own)
}

// How many operations each work centre has.
fn operations(
    alloc: Global,
    centres: &[Centre],
    routings: &[Operation],
) -> Result<Vec<usize>, NoMemory>
    ensures { IfOk result (λ own. own.items ≡ tally (length centres.now) (map (λ o. o.centre) routings.now)) }
{
    let named = centres_named(alloc, routings)?;
    tally(alloc, centres.len(), &named)
}

fn odd_minutes(minutes: u64, operations: usize) -> Option<Oddity>
    ensures { result ≡ odd_minutes minutes operations }
{
    if minutes == 0 && 0 < operations {
        Some(Oddity::NoMinutes { operations })
    } else if 0 < minutes && minutes <= LIKELY_HOURS {
        Some(Oddity::FewMinutes(minutes))
    } else {
        None
    }
}

// The work centres that have operations but no minutes, or minutes that may be meant in hours.
pub(crate) fn minutes_warnings(
    alloc: Global,
    centres: &[Centre],
    routings: &[Operation],
) -> Result<Vec<Warning>, NoMemory>
    ensures { IfOk result (λ own. own.items ≡ minutes_warnings centres.now routings.now) }
{
    let operations = operations(alloc, centres, routings)?;
    let own = centres
        .iter()
        .zip(operations.iter())
        .enumerate()
        .filter_map(|(place, (centre, operations))| {
            Warning::at(place, odd_minutes(centre.minutes, *operations))
        })
        .collect(alloc)?;
    Ok(own)
}

fn odd_centre(name: Name, operations: usize) -> Option<Oddity>
    ensures { result ≡ odd_centre name operations }
{
    if operations == 0 {
        Some(Oddity::Idle(name))
    } else {
        None
    }
}

// The work centres without an operation.
pub(crate) fn idle_warnings(
    alloc: Global,
    centres: &[Centre],
    routings: &[Operation],
) -> Result<Vec<Warning>, NoMemory>
    ensures { IfOk result (λ own. own.items ≡ idle_warnings centres.now routings.now) }
{
    let operations = operations(alloc, centres, routings)?;
    let own = centres
        .iter()
        .zip(operations.iter())
        .enumerate()
        .filter_map(|(place, (centre, operations))| {
            Warning::at(place, odd_centre(centre.name, *operations))
        })
        .collect(alloc)?;
    Ok(own)
}
