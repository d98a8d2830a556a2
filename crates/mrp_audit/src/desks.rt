//! Checking the desks of a given history against their script records.

ghost use Rattle.std.specs.Prelude.{◌≤◌, ◌↔◌, IsTrue, length};
ghost use Rattle.mrp_book.specs.History.{asked};
ghost use Rattle.mrp_audit.specs.Parts.{ComparesDesks, IsNextPlace, IsSame};

use crate::fault::AuditFault;
use crate::following::are_followed;
use mrp_book::{Call, Entry, Reply};
use mrp_claims::is_same_call;
use mrp_tables::limits::MOST_DESKS;
use std::alloc::Global;

// The place of a desk's next record from a place on; the script's end if it has none.
fn next_place(script: &[(u64, Call)], desk: u64, from: usize) -> usize
    requires { from ≤ length script.now }
    ensures { IsNextPlace script.now desk from result }
{
    let mut place = from;
    while place < script.len() && script[place].0 != desk {
        place += 1;
    }
    place
}

// Whether a desk's entries are its script records in order.
fn is_right(entries: &[Entry<Call, Reply>], script: &[(u64, Call)], desk: u64) -> bool
    ensures { IsTrue result ↔ IsSame (asked entries.now) script.now desk }
{
    let mut at = 0;
    for entry in entries {
        if entry.who == desk {
            let place = next_place(script, desk, at);
            if place == script.len() || !is_same_call(&script[place].1, &entry.call) {
                return false;
            }
            at = place + 1;
        }
    }
    next_place(script, desk, at) == script.len()
}

/// Compares each desk's entries with its script records in order: in one pass, and desk by desk if that finds
/// a fault or runs out of memory.
///
/// Errors: `DeskRows` with the least desk whose entries are not its records in order.
pub(crate) fn check_desks(
    alloc: Global,
    entries: &[Entry<Call, Reply>],
    script: &[(u64, Call)],
) -> Result<(), AuditFault>
    ensures { ComparesDesks (asked entries.now) script.now result }
{
    if are_followed(alloc, entries, script) {
        return Ok(());
    }
    for desk in 1..=MOST_DESKS {
        if !is_right(entries, script, desk) {
            return Err(AuditFault::DeskRows { desk });
        }
    }
    Ok(())
}
