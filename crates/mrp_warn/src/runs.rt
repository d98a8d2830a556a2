//! What is odd about operations.

ghost use Rattle.std.specs.Prelude.{◌≡◌, IfOk};
ghost use Rattle.mrp_warn.specs.Rows.{told};
ghost use Rattle.mrp_warn.specs.Runs.{odd_run, run_times, run_warnings};

use crate::limits::{LIKELY_MOST_RUN, LIKELY_RUN};
use crate::oddity::{Oddity, Warning};
use crate::tally::{first_likely, is_at};
use mrp_qty::NoMemory;
use mrp_tables::Operation;
use std::alloc::Global;

fn odd_run(likely: Option<usize>, place: usize, run: u64) -> Option<Oddity>
    ensures { result ≡ odd_run likely place run }
{
    if 0 < run && run < LIKELY_RUN {
        Some(Oddity::SmallRun(run))
    } else if is_at(likely, place) {
        Some(Oddity::LowRun(run))
    } else {
        None
    }
}

fn run_times(alloc: Global, routings: &[Operation]) -> Result<Vec<u64>, NoMemory>
    ensures { IfOk result (λ own. own.items ≡ run_times routings.now) }
{
    let own = routings.iter().map(|row| row.run).collect(alloc)?;
    Ok(own)
}

fn told_runs(alloc: Global, likely: Option<usize>, runs: &[u64]) -> Result<Vec<Warning>, NoMemory>
    ensures { IfOk result (λ own. own.items ≡ told (odd_run likely) runs.now) }
{
    let own = runs
        .iter()
        .enumerate()
        .filter_map(|(place, run)| Warning::at(place, odd_run(likely, place, *run)))
        .collect(alloc)?;
    Ok(own)
}

// The operations whose run time may be meant in minutes.
pub(crate) fn run_warnings(alloc: Global, routings: &[Operation]) -> Result<Vec<Warning>, NoMemory>
    ensures { IfOk result (λ own. own.items ≡ run_warnings routings.now) }
{
    let runs = run_times(alloc, routings)?;
    let likely = first_likely(LIKELY_RUN, LIKELY_MOST_RUN, &runs);
    told_runs(alloc, likely, &runs)
}
