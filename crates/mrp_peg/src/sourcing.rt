//! The sources of a requirement.

ghost use Rattle.std.specs.Prelude.{◌≡◌, ◌<◌, filter, IfOk, IfSome};
ghost use Rattle.std.specs.List.{list_any};
ghost use Rattle.mrp_item.specs.Inputs.{count};
ghost use Rattle.mrp_peg.specs.Causes as causes;
ghost use Rattle.mrp_peg.specs.Causes.{is_need_of, is_order, order_pegs, same_need, sources_of};

use crate::matching::Requirement;
use crate::peg::{Need, NeedKind, Peg};
use crate::pegging::{item_pegs, needs_of};
use crate::where_used::line_of;
use mrp_item::{Plan, Supplied};
use mrp_qty::NoMemory;
use mrp_tables::BillLine;
use std::alloc::Global;

// Whether two requirements are the same.
#[tactic(auto, using(crate::proofs::SameNeeds::equal_needs))]
fn is_same(one: &Need, other: &Need) -> bool
    ensures { result ≡ same_need one.now other.now }
{
    *one == *other
}

// Whether a requirement is among the given ones.
#[tactic(auto, using(std::proofs::lemmas::List::Folds::list_any_more, std::proofs::lemmas::List::Folds::list_any_at))]
fn is_required(needs: &[Requirement], need: &Need) -> bool
    ensures { result ≡ list_any (λ requirement. same_need requirement.need need.now) needs.now }
{
    for requirement in needs {
        if is_same(&requirement.need, need) {
            return true;
        }
    }
    false
}

// Whether a requirement is one of the plan.
pub fn has_need(alloc: Global, plan: &Plan, need: &Need) -> Result<bool, NoMemory>
    ensures { IfOk result (λ has. has ≡ is_need_of plan.now.inputs need.now) }
{
    if need.item >= plan.inputs().shop().tables().items().len() {
        return Ok(false);
    }
    let needs = needs_of(alloc, plan, need.item)?;
    Ok(is_required(&needs, need))
}

// The parent's order that a requirement is for, by the parent's place and the order's number.
pub fn order_for(bills: &[BillLine], kind: NeedKind) -> Option<(usize, usize)>
    ensures { result ≡ causes.order_for bills.now kind }
{
    let NeedKind::Parent { line, order } = kind else {
        return None;
    };
    if line == 0 || line > bills.len() {
        return None;
    }
    Some((line_of(bills, line - 1).parent, order))
}

// Whether a supply is the order with this number.
fn is_numbered(supply: Supplied, number: usize) -> bool
    ensures { result ≡ is_order number supply }
{
    match supply {
        Supplied::Order(own) => own == number,
        Supplied::Stock | Supplied::Receipt(_) => false,
    }
}

// The pegs whose supply is the order with this number.
#[tactic(auto, using(std::proofs::lemmas::List::Elements::filter_more))]
fn of_order(alloc: Global, pegs: &[Peg], number: usize) -> Result<Vec<Peg>, NoMemory>
    ensures { IfOk result (λ own. own.items ≡ filter (λ g. is_order number g.supply) pegs.now) }
{
    let mut own = Vec::new(alloc);
    for peg in pegs {
        if is_numbered(peg.supply, number) {
            own.push(*peg)?;
        }
    }
    Ok(own)
}

// The pegs of an item's order, if there is one.
fn pegs_for(alloc: Global, plan: &Plan, order: Option<(usize, usize)>) -> Result<Vec<Peg>, NoMemory>
    requires { IfSome order (λ o. o.0 < count plan.now.inputs) }
    ensures { IfOk result (λ pegs. pegs.items ≡ order_pegs plan.now.inputs order) }
{
    match order {
        Some((item, number)) => {
            let pegs = item_pegs(alloc, plan, item)?;
            of_order(alloc, &pegs, number)
        }
        None => Ok(Vec::new(alloc)),
    }
}

/// The sources of a requirement: the pegs of the parent's order that caused it, with its surplus,
/// in their order (Orlicky: pegging). A booking, a forecast or a service row has none, and neither
/// has a requirement that is not one of the plan's.
///
/// Errors: `NoMemory` if an allocation fails.
pub fn sources(alloc: Global, plan: &Plan, need: &Need) -> Result<Vec<Peg>, NoMemory>
    ensures { IfOk result (λ pegs. pegs.items ≡ sources_of plan.now.inputs need.now) }
{
    if !has_need(alloc, plan, need)? {
        return Ok(Vec::new(alloc));
    }
    let bills = plan.inputs().shop().tables().bills();
    pegs_for(alloc, plan, order_for(bills, need.kind))
}
