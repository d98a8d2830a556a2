//! What is odd about the calls of a script.

ghost use Rattle.std.specs.Prelude.{◌≡◌, IfOk};
ghost use Rattle.mrp_script.specs.Script.{is_run};
ghost use Rattle.mrp_warn.specs.Calls.{denied, denied_warnings, desk_of, is_booked, last_run, not_yours, run_place, run_places, unplaced, unplaced_warnings};

use crate::oddity::{Oddity, Warning};
use mrp_book::{Call, Entry, Reply};
use mrp_qty::NoMemory;
use std::alloc::Global;

// The desk of the entry with a number, if there is one.
fn desk_of(history: &[Entry<Call, Reply>], number: u64) -> Option<u64>
    ensures { result ≡ desk_of history.now number }
{
    let entry = history.get((number as usize).saturating_sub(1))?;
    Some(entry.who)
}

fn not_yours(history: &[Entry<Call, Reply>], number: u64) -> Option<Oddity>
    ensures { result ≡ not_yours number (desk_of history.now number) }
{
    let desk = desk_of(history, number)?;
    Some(Oddity::NotYours { number, desk })
}

fn denied(history: &[Entry<Call, Reply>], entry: &Entry<Call, Reply>) -> Option<Oddity>
    ensures { result ≡ denied history.now entry.now.call entry.now.reply }
{
    match (&entry.call, &entry.reply) {
        (Call::Book(line), Reply::Short(available)) => Some(Oddity::Short {
            quantity: line.quantity().value(),
            available: available.value(),
        }),
        (Call::Cancel(number), Reply::NotStanding) => Some(Oddity::NotStanding(*number)),
        (Call::Cancel(number), Reply::NotYours) => not_yours(history, *number),
        _ => None,
    }
}

// The bookings and cancellations that were answered with nothing.
pub(crate) fn denied_warnings(
    alloc: Global,
    history: &[Entry<Call, Reply>],
) -> Result<Vec<Warning>, NoMemory>
    ensures { IfOk result (λ own. own.items ≡ denied_warnings history.now) }
{
    let own = history
        .iter()
        .enumerate()
        .filter_map(|(place, entry)| Warning::at(place, denied(history, entry)))
        .collect(alloc)?;
    Ok(own)
}

#[tactic(auto, unfolding(crate::specs::Calls::run_place))]
fn run_place(place: usize, entry: &Entry<Call, Reply>) -> Option<usize>
    ensures { result ≡ run_place place entry.now.call }
{
    match &entry.call {
        Call::Snapshot => Some(place),
        _ => None,
    }
}

fn run_places(alloc: Global, history: &[Entry<Call, Reply>]) -> Result<Vec<usize>, NoMemory>
    ensures { IfOk result (λ own. own.items ≡ run_places history.now) }
{
    let own = history
        .iter()
        .enumerate()
        .filter_map(|(place, entry)| run_place(place, entry))
        .collect(alloc)?;
    Ok(own)
}

// The place of the last run, if there is one.
fn last_run(alloc: Global, history: &[Entry<Call, Reply>]) -> Result<Option<usize>, NoMemory>
    ensures { IfOk result (λ own. own ≡ last_run history.now) }
{
    let places = run_places(alloc, history)?;
    Ok(places.last().copied())
}

fn is_booked(entry: &Entry<Call, Reply>) -> bool
    ensures { result ≡ is_booked entry.now.call entry.now.reply }
{
    match (&entry.call, &entry.reply) {
        (Call::Book(_), Reply::Booked(_)) => true,
        _ => false,
    }
}

fn unplaced(last: Option<usize>, place: usize, entry: &Entry<Call, Reply>) -> Option<Oddity>
    ensures { result ≡ unplaced last place entry.now.call entry.now.reply }
{
    let run = last?;
    if run < place && is_booked(entry) {
        Some(Oddity::Unplaced { run })
    } else {
        None
    }
}

// The bookings behind the last run.
pub(crate) fn unplaced_warnings(
    alloc: Global,
    history: &[Entry<Call, Reply>],
) -> Result<Vec<Warning>, NoMemory>
    ensures { IfOk result (λ own. own.items ≡ unplaced_warnings history.now) }
{
    let last = last_run(alloc, history)?;
    let own = history
        .iter()
        .enumerate()
        .filter_map(|(place, entry)| Warning::at(place, unplaced(last, place, entry)))
        .collect(alloc)?;
    Ok(own)
}
