//! What is odd about bill lines.

ghost use Rattle.std.specs.Prelude.{◌≡◌, IfOk, map};
ghost use Rattle.std.specs.List.{zip};
ghost use Rattle.mrp_warn.specs.Bills.{doubled_warnings, odd_pair, odd_per, pair_of, per_warnings};
ghost use Rattle.mrp_warn.specs.Rows.{told};

use crate::earlier::earlier;
use crate::limits::LIKELY_PER;
use crate::names::name_at;
use crate::oddity::{Oddity, Warning};
use mrp_qty::NoMemory;
use mrp_tables::{BillLine, Item};
use std::alloc::Global;

// The parent and the component of each bill line.
fn pairs(alloc: Global, bills: &[BillLine]) -> Result<Vec<(usize, usize)>, NoMemory>
    ensures { IfOk result (λ own. own.items ≡ map pair_of bills.now) }
{
    let own = bills
        .iter()
        .map(|line| (line.parent, line.component))
        .collect(alloc)?;
    Ok(own)
}

fn odd_pair(items: &[Item], line: &BillLine, first: Option<usize>) -> Option<Oddity>
    ensures { result ≡ odd_pair items.now line.now first }
{
    let first = first?;
    let component = name_at(items, line.component)?;
    let parent = name_at(items, line.parent)?;
    Some(Oddity::Doubled {
        component,
        parent,
        first,
    })
}

fn told_pairs(
    alloc: Global,
    items: &[Item],
    bills: &[BillLine],
    firsts: &[Option<usize>],
) -> Result<Vec<Warning>, NoMemory>
    ensures { IfOk result (λ own. own.items ≡ told (λ _ r. odd_pair items.now r.0 r.1) (zip bills.now firsts.now)) }
{
    let own = bills
        .iter()
        .zip(firsts.iter())
        .enumerate()
        .filter_map(|(place, (line, first))| Warning::at(place, odd_pair(items, line, *first)))
        .collect(alloc)?;
    Ok(own)
}

// The bill lines that have the parent and the component of an earlier one.
pub(crate) fn doubled_warnings(
    alloc: Global,
    items: &[Item],
    bills: &[BillLine],
) -> Result<Vec<Warning>, NoMemory>
    ensures { IfOk result (λ own. own.items ≡ doubled_warnings items.now bills.now) }
{
    let pairs = pairs(alloc, bills)?;
    let firsts = earlier(alloc, &pairs)?;
    told_pairs(alloc, items, bills, &firsts)
}

fn odd_per(items: &[Item], line: &BillLine) -> Option<Oddity>
    ensures { result ≡ odd_per items.now line.now }
{
    if line.per <= LIKELY_PER {
        return None;
    }
    let component = name_at(items, line.component)?;
    let parent = name_at(items, line.parent)?;
    Some(Oddity::LargePer {
        per: line.per,
        component,
        parent,
    })
}

// The large quantities per.
pub(crate) fn per_warnings(
    alloc: Global,
    items: &[Item],
    bills: &[BillLine],
) -> Result<Vec<Warning>, NoMemory>
    ensures { IfOk result (λ own. own.items ≡ per_warnings items.now bills.now) }
{
    let own = bills
        .iter()
        .enumerate()
        .filter_map(|(place, line)| Warning::at(place, odd_per(items, line)))
        .collect(alloc)?;
    Ok(own)
}
