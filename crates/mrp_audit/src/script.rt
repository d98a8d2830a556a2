//! The calls that the desks of a shop should make.

ghost use Rattle.std.specs.Prelude.{◌≡◌, IfOk};
ghost use Rattle.mrp_script.specs.Script.{script_of, with_run};

use mrp_bill::Shop;
use mrp_book::Call;
use mrp_qty::NoMemory;
use mrp_script::{added_run, call_of};
use std::alloc::Global;

/// The calls of a shop's script, each with its desk, in order. A script without a run is taken with
/// one more record at its end, a run of desk 1.
///
/// Errors: `NoMemory` if an allocation fails.
pub(crate) fn script_calls(alloc: Global, shop: &Shop) -> Result<Vec<(u64, Call)>, NoMemory>
    ensures { IfOk result (λ calls. calls.items ≡ with_run (script_of shop.now.tables)) }
{
    let script = shop.tables().script();
    let mut calls = Vec::with_capacity(alloc, script.len())?;
    for row in script {
        calls.push((row.desk, call_of(shop, row.call)))?;
    }
    if let Some(last) = added_run(script) {
        calls.push(last)?;
    }
    Ok(calls)
}
