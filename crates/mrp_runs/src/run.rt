//! Runs that were answered.

ghost use Rattle.std.specs.Prelude.{◌≡◌, IfOk, string_bytes};
ghost use Rattle.mrp_runs.specs.File.{run_head, run_name};

use mrp_book::{Call, Entry, Reply, Snapshot};
use mrp_day::Section;
use mrp_qty::NoMemory;
use mrp_report::HistoryRows;
use std::alloc::Global;

/// A run that was answered: the desk that started it, and the bookings that stood then.
#[derive(Drop)]
pub struct Run {
    /// The desk, from 1 to 64.
    pub desk: u64,
    /// The number of the run's entry, and the bookings that stood at it.
    pub snapshot: Snapshot,
}

/// The name of the file of the run with a number: `run-7.day` and so on.
///
/// Errors: `NoMemory` if an allocation fails.
pub fn run_name(alloc: Global, front: u64) -> Result<String, NoMemory>
    ensures { IfOk result (λ name. string_bytes name ≡ run_name front) }
{
    Ok(format!(in alloc; "run-{front}.day")?)
}

/// What a run's file begins with: the section `history` with its own row.
pub(crate) fn head_of(alloc: Global, rows: &HistoryRows<'_>, run: &Run) -> Result<Vec<u8>, NoMemory>
    ensures { IfOk result (λ head. head.items ≡ run_head rows.now run.now) }
{
    let entry = Entry {
        who: run.desk,
        call: Call::Snapshot,
        reply: Reply::Taken(run.snapshot.copy()?),
    };
    let mut head = Vec::new(alloc);
    head.extend_from_slice(Section::History.head().as_bytes())?;
    rows.add(&mut head, run.snapshot.front(), &entry)?;
    Ok(head)
}
