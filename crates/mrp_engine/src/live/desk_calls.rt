//! The calls of a script, in a list for each desk.

ghost use Rattle.std.specs.Prelude.{◌≡◌, ◌-◌, ◌≤◌, All, IfOk, OnOk, length, map};
ghost use Rattle.mrp_master.specs.Supply.{supply_of};
ghost use Rattle.mrp_book.specs.History.{Fits};
ghost use Rattle.mrp_bill.specs.Lists.{Appends};
ghost use Rattle.mrp_engine.specs.live.DeskCalls.{AreCallsOf, calls_at};
ghost use Rattle.mrp_script.specs.Script.{call_of, record_of};

use mrp_bill::{Shop, append, empty_lists};
use mrp_book::Call;
use mrp_qty::NoMemory;
use mrp_script::call_of;
use mrp_tables::ScriptRow;
use std::alloc::Global;

// Appends a call to its desk's list.
fn append_call(lists: &mut Vec<Vec<Call>>, desk: u64, call: Call) -> Result<(), NoMemory>
    requires { (1 ≤ desk) × (desk ≤ length lists.old.items) }
    ensures { OnOk result (Appends lists.old.items lists.new.items (desk - 1) call) }
{
    append(lists, desk as usize - 1, call)
}

/// The calls of a shop's script in a list for each desk, made in one pass: a desk's list has the
/// calls of its records, in order. The caller guarantees that the desks of the script are numbered
/// from 1 to `desks`.
///
/// Errors: `NoMemory` if an allocation fails.
pub fn calls_by_desk(
    alloc: Global,
    shop: &Shop,
    script: &[ScriptRow],
    desks: usize,
) -> Result<Vec<Vec<Call>>, NoMemory>
    requires desks { All (λ r. (1 ≤ r.desk) × (r.desk ≤ desks)) script.now }
    requires fits { All (λ r. Fits (supply_of shop.now.tables) (call_of r.call)) script.now }
    ensures size { IfOk result (λ lists. length lists.items ≡ desks) }
    ensures calls { IfOk result (λ lists. AreCallsOf (map record_of script.now) lists.items) }
{
    let mut lists = empty_lists(alloc, desks)?;
    for row in script {
        append_call(&mut lists, row.desk, call_of(shop, row.call))?;
    }
    Ok(lists)
}

/// The list of a desk.
pub fn list_of(lists: &[Vec<Call>], desk: u64) -> &[Call]
    requires { (1 ≤ desk) × (desk ≤ length lists.now) }
    ensures { result.now ≡ calls_at lists.now (desk - 1) }
{
    lists[desk as usize - 1].as_slice()
}
