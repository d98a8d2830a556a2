//! The texts of faults.

ghost use Rattle.std.specs.Prelude.{◌≡◌, IfOk, string_bytes};
ghost use Rattle.mrp_rows.specs.FaultText.{text_of_fault};

use crate::fault::Fault;
use crate::faults::fault_name;
use mrp_qty::NoMemory;
use std::alloc::Global;

/// A fault as text: its code, its name, its table and its row, separated by single spaces, as
/// `13 unknown-item bills 4`. A code that is not in [`crate::faults`] has the name `fault`.
///
/// Errors: `NoMemory` if the text cannot be allocated.
pub fn fault_text(alloc: Global, fault: &Fault) -> Result<String, NoMemory>
    ensures { IfOk result (λ text. string_bytes text ≡ text_of_fault fault.now) }
{
    let code = fault.code;
    let name = fault_name(code);
    let table = fault.table.name();
    let row = fault.row;
    Ok(format!(in alloc; "{code} {name} {table} {row}")?)
}
