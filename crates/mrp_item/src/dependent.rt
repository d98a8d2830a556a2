//! The gross requirements of a part: its service parts demand, and what its parents' orders require.

ghost use Rattle.std.specs.Prelude.{◌≡◌, ◌≤◌, ◌<◌, ◌+◌, ℕ, true, All, length, map, sum, sum_by, IfOk, IfErr, OnSome, IfNone, MatchOption};
ghost use Rattle.mrp_qty.specs.Quantity.{greatest_quantity};
ghost use Rattle.mrp_phase.specs.Weeks.{row};
ghost use Rattle.mrp_item.specs.DependentDemand.{line_starts, required_in, with_lines};
ghost use Rattle.mrp_item.specs.Rows.{lines_to};
ghost use Rattle.mrp_item.specs.Inputs.{count, horizon};
ghost use Rattle.mrp_bill.specs.Bill.{line_at};
ghost use Rattle.mrp_item.specs.Orders.{started_in};
ghost use Rattle.mrp_item.specs.Plan.{is_planned, outcome_of, part_gross, plan_in};
ghost use Rattle.mrp_item.specs.ParentOutcomes.{HasParentsOf};
ghost use Rattle.mrp_item.specs.Own.{IsReady};

use crate::due::dated;
use crate::inputs::Inputs;
use crate::line_starts::LineStarts;
use crate::outcome::Outcome;
use crate::over::or_over;
use crate::parent_outcomes::ParentOutcomes;
use mrp_phase::{PhaseFault, Weeks};
use mrp_qty::{NoMemory, Qty};
use mrp_tables::BillLine;
use std::alloc::Global;

// The starts of a planned item in each week.
fn started_by(outcome: &Outcome) -> &[Qty]
    requires { is_planned (outcome_of outcome.now.inputs outcome.now.item) ≡ true }
    ensures { result.now ≡ row (horizon outcome.now.inputs) (started_in (plan_in (outcome_of outcome.now.inputs outcome.now.item)).orders) }
{
    match outcome.plan() {
        Some(planned) => planned.started().as_slice(),
        None => unreachable!(),
    }
}

// A quantity with what bill lines require in the week after so many; overflow yields `None`.
fn with_required(from: Qty, lines: &[LineStarts<'_>], before: usize) -> Option<Qty>
    requires { All (λ line. before < length line.started) lines.now }
    ensures { MatchOption result (greatest_quantity < from + sum_by (required_in (before + 1)) lines.now) (λ sum. sum ≡ from + sum_by (required_in (before + 1)) lines.now) }
{
    let mut sum = from;
    for line in lines {
        let more = line.required(before)?;
        sum = sum.add(more)?;
    }
    Some(sum)
}

// Adds what bill lines require in each week. All lines of a week are added at once, so that each week is read
// and written once.
fn add_required(demand: &mut [Qty], lines: &[LineStarts<'_>]) -> Option<()>
    requires { All (λ line. length line.started ≡ length demand.old) lines.now }
    ensures added { OnSome result (demand.new ≡ row (length demand.old) (with_lines demand.old lines.now)) }
    ensures none { IfNone result ((week : ℕ) × (0 < week) × (week ≤ length demand.old) × (greatest_quantity < with_lines demand.old lines.now week)) }
{
    for before in 0..demand.len() {
        demand[before] = with_required(demand[before], lines, before)?;
    }
    Some(())
}

// The same, for a vector.
fn add_lines(demand: &mut Vec<Qty>, lines: &[LineStarts<'_>]) -> Option<()>
    requires { All (λ line. length line.started ≡ length demand.old.items) lines.now }
    ensures added { OnSome result (demand.new.items ≡ row (length demand.old.items) (with_lines demand.old.items lines.now)) }
    ensures none { IfNone result ((week : ℕ) × (0 < week) × (week ≤ length demand.old.items) × (greatest_quantity < with_lines demand.old.items lines.now week)) }
{
    add_required(demand, lines)
}

// The line at a place of the bill table.
fn line_of(bills: &[BillLine], place: usize) -> BillLine
    requires { place < length bills.now }
    ensures { result ≡ line_at bills.now place }
{
    bills[place]
}

// The bill lines to an item, each with the starts of its parent.
fn lines_with_starts<'a, P: ParentOutcomes>(
    alloc: Global,
    inputs: &Inputs,
    item: usize,
    parents: &'a P,
) -> Result<Vec<LineStarts<'a>>, NoMemory>
    requires item { item < count inputs.now }
    requires parents { HasParentsOf P.has parents.now inputs.now item }
    requires ready { IsReady inputs.now item }
    ensures { IfOk result (λ lines. lines.items ≡ map (line_starts inputs.now) (lines_to inputs.now item)) }
{
    let bills = inputs.shop().tables().bills();
    let places = inputs.shop().lines_to(item);
    let mut lines = Vec::with_capacity(alloc, places.len())?;
    for place in places {
        let line = line_of(bills, *place);
        let started = started_by(parents.outcome(line.parent));
        lines.push(LineStarts::new(started, line.per))?;
    }
    Ok(lines)
}

// The gross requirements of a part in each week, from its parents' outcomes.
pub fn part_gross<P: ParentOutcomes>(
    alloc: Global,
    inputs: &Inputs,
    item: usize,
    parents: &P,
) -> Result<Weeks<Qty>, PhaseFault>
    requires item { item < count inputs.now }
    requires parents { HasParentsOf P.has parents.now inputs.now item }
    requires ready { IsReady inputs.now item }
    ensures value { IfOk result (λ w. w ≡ row (horizon inputs.now) (part_gross inputs.now item (outcome_of inputs.now))) }
    ensures over { IfErr result (λ fault. fault ≡ PhaseFault.TooLarge → greatest_quantity < sum (row (horizon inputs.now) (part_gross inputs.now item (outcome_of inputs.now)))) }
{
    let mut demand = dated(alloc, inputs.weeks(), inputs.services(item))?.into_vec();
    let lines = lines_with_starts(alloc, inputs, item, parents)?;
    or_over(add_lines(&mut demand, lines.as_slice()))?;
    Ok(Weeks::from_vec(demand))
}
