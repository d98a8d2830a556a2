//! All faults as texts.

ghost use Rattle.std.specs.Prelude.{◌≡◌, IfOk, OnOk, flat_map, string_bytes};
ghost use Rattle.mrp_advice.specs.Listing.{listed_in, with_lines};
ghost use Rattle.mrp_inspect.specs.Faults.{texts_of};
ghost use Rattle.mrp_inspect.specs.Listed.{count_text, remark_text, told_text, unless_told, untold};

use mrp_advice::{Listing, plural};
use mrp_qty::NoMemory;
use mrp_rows::{Fault, fault_text};
use std::alloc::{AllocError, Global};

// How many faults there are.
fn count_text(alloc: Global, count: u128) -> Result<String, AllocError>
    ensures { IfOk result (λ text. string_bytes text ≡ count_text count) }
{
    let ending = plural(count);
    format!(in alloc; "{count} fault{ending} (warnings are told when there is none)\n")
}

// What stands behind the first line: what `mrp plan` says.
pub(crate) fn remark_text(alloc: Global, fault: &Fault) -> Result<String, NoMemory>
    ensures { IfOk result (λ text. string_bytes text ≡ remark_text fault.now) }
{
    let said = fault_text(alloc, fault)?;
    Ok(format!(in alloc; " (refused: {said})")?)
}

// A line that says only that there is a fault.
fn untold(alloc: Global, fault: &Fault) -> Result<String, AllocError>
    ensures { IfOk result (λ text. string_bytes text ≡ (untold fault.now).text) }
{
    let table = fault.table.name();
    format!(in alloc; "{table}.csv:0: row: a fault; expected none")
}

// Adds this line, unless the fault is told.
#[tactic(auto, using(mrp_advice::proofs::Listings::no_lines, mrp_advice::proofs::Listings::one_line))]
pub(crate) fn push_unless_told(
    alloc: Global,
    told: bool,
    fault: &Fault,
    lines: &mut Listing,
) -> Result<(), NoMemory>
    ensures { OnOk result (listed_in lines.new ≡ with_lines (listed_in lines.old) (texts_of (unless_told told fault.now))) }
{
    if !told {
        let line = untold(alloc, fault)?;
        lines.push(line.as_str())?;
    }
    Ok(())
}

// The texts that one behind the other are all lines, and how many they are.
pub(crate) fn told_texts(alloc: Global, lines: Listing) -> Result<Vec<String>, NoMemory>
    ensures { IfOk result (λ texts. flat_map string_bytes texts.items ≡ told_text (listed_in lines)) }
{
    let count = count_text(alloc, lines.count() as u128)?;
    let mut texts = lines.into_texts()?;
    texts.push(count)?;
    Ok(texts)
}
