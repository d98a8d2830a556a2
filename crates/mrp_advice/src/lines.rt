//! The lines of all faults.

ghost use Rattle.std.specs.Prelude.{◌≡◌, ◌++◌, [], IfOk, OnOk, map, true};
ghost use Rattle.mrp_advice.specs.Lines.{are_apart, fault_lines, follows, is_blank, run_lines, survey_lines};
ghost use Rattle.mrp_advice.specs.Listing.{listed_in, none_listed, with_lines};
ghost use Rattle.mrp_advice.specs.Loops.{loop_line};

use crate::line::push_fault;
use crate::listing::Listing;
use crate::looped::push_loop;
use mrp_qty::NoMemory;
use mrp_survey::{Finding, FoundLoop, Survey, What};
use std::alloc::Global;
use std::thread::Threads;
use std::{mem, thread};

fn is_blank(what: What) -> bool
    ensures { result ≡ is_blank what }
{
    matches!(what, What::Blank)
}

// Whether two records of empty cells alone stand one behind the other.
fn follows(last: &Finding, next: &Finding) -> bool
    ensures { result ≡ follows last.now next.now }
{
    is_blank(last.what())
        && is_blank(next.what())
        && last.table().index() == next.table().index()
        && next.number().saturating_sub(1) == last.number()
}

// Adds a line for each of these faults, records of empty cells alone that stand one behind the other told in one.
fn push_runs(
    alloc: Global,
    survey: &Survey,
    faults: &[Finding],
    lines: &mut Listing,
) -> Result<(), NoMemory>
    ensures { OnOk result (listed_in lines.new ≡ with_lines (listed_in lines.old) (run_lines survey.now faults.now)) }
{
    let [first, others @ ..] = faults else {
        return Ok(());
    };
    let mut first = first;
    let mut last = first;
    for next in others {
        if !follows(last, next) {
            push_fault(alloc, survey, first, last.line(), lines)?;
            first = next;
        }
        last = next;
    }
    push_fault(alloc, survey, first, last.line(), lines)?;
    Ok(())
}

// Takes lines out, and returns them with one for each of these faults behind them.
fn lines_behind(
    alloc: Global,
    survey: &Survey,
    faults: &[Finding],
    lines: &mut Listing,
) -> Result<Listing, NoMemory>
    ensures { IfOk result (λ own. listed_in own ≡ with_lines (listed_in lines.old) (run_lines survey.now faults.now)) }
{
    let mut own = mem::replace(lines, Listing::new(alloc, String::new(alloc)));
    push_runs(alloc, survey, faults, &mut own)?;
    Ok(own)
}

// A line for each of these faults, without a remark.
fn lines_alone(alloc: Global, survey: &Survey, faults: &[Finding]) -> Result<Listing, NoMemory>
    ensures { IfOk result (λ own. listed_in own ≡ with_lines (none_listed []) (run_lines survey.now faults.now)) }
{
    let mut own = Listing::new(alloc, String::new(alloc));
    push_runs(alloc, survey, faults, &mut own)?;
    Ok(own)
}

// Whether there are faults and others behind them, and the first of these does not go on with the last of them.
fn are_apart(front: &[Finding], back: &[Finding]) -> bool
    ensures { result ≡ are_apart front.now back.now }
{
    match (front.last(), back.first()) {
        (Some(last), Some(next)) => !follows(last, next),
        _ => false,
    }
}

// Takes lines out, and returns them with those of faults and of others behind them, in two threads if a second one can be started.
fn lines_of_quarters(
    rt: &impl Threads,
    alloc: Global,
    survey: &Survey,
    front: &[Finding],
    back: &[Finding],
    lines: &mut Listing,
) -> Result<Listing, NoMemory>
    requires { are_apart front.now back.now ≡ true }
    ensures { IfOk result (λ own. listed_in own ≡ with_lines (listed_in lines.old) (run_lines survey.now (front.now ++ back.now))) }
{
    let tell_front = move || -> Result<Listing, NoMemory>
        ensures { IfOk result (λ own. listed_in own ≡ with_lines (listed_in lines.entry.now) (run_lines survey.entry.now front.entry.now)) }
    { lines_behind(alloc, survey, front, lines) };
    let tell_back = move || -> Result<Listing, NoMemory>
        ensures { IfOk result (λ own. listed_in own ≡ with_lines (none_listed []) (run_lines survey.entry.now back.entry.now)) }
    { lines_alone(alloc, survey, back) };
    let (first, second) = thread::join(rt, tell_front, tell_back);
    let mut first = first?;
    let second = second?;
    first.append(second)?;
    Ok(first)
}

// Takes lines out, and returns them with those of faults, in two threads where a run does not lie across the middle.
fn lines_of_half(
    rt: &impl Threads,
    alloc: Global,
    survey: &Survey,
    half: &[Finding],
    lines: &mut Listing,
) -> Result<Listing, NoMemory>
    ensures { IfOk result (λ own. listed_in own ≡ with_lines (listed_in lines.old) (run_lines survey.now half.now)) }
{
    let (front, back) = half.split_at(half.len() / 2);
    if are_apart(front, back) {
        lines_of_quarters(rt, alloc, survey, front, back, lines)
    } else {
        lines_behind(alloc, survey, half, lines)
    }
}

// The same without a remark, behind no lines.
fn lines_of_half_alone(
    rt: &impl Threads,
    alloc: Global,
    survey: &Survey,
    half: &[Finding],
) -> Result<Listing, NoMemory>
    ensures { IfOk result (λ own. listed_in own ≡ with_lines (none_listed []) (run_lines survey.now half.now)) }
{
    let mut none = Listing::new(alloc, String::new(alloc));
    lines_of_half(rt, alloc, survey, half, &mut none)
}

// As `lines_of_quarters`, in two further threads.
fn lines_of_halves(
    rt: &(impl Threads + Sync),
    alloc: Global,
    survey: &Survey,
    front: &[Finding],
    back: &[Finding],
    lines: &mut Listing,
) -> Result<Listing, NoMemory>
    requires { are_apart front.now back.now ≡ true }
    ensures { IfOk result (λ own. listed_in own ≡ with_lines (listed_in lines.old) (run_lines survey.now (front.now ++ back.now))) }
{
    let tell_front = move || -> Result<Listing, NoMemory>
        ensures { IfOk result (λ own. listed_in own ≡ with_lines (listed_in lines.entry.now) (run_lines survey.entry.now front.entry.now)) }
    { lines_of_half(rt, alloc, survey, front, lines) };
    let tell_back = move || -> Result<Listing, NoMemory>
        ensures { IfOk result (λ own. listed_in own ≡ with_lines (none_listed []) (run_lines survey.entry.now back.entry.now)) }
    { lines_of_half_alone(rt, alloc, survey, back) };
    let (first, second) = thread::join(rt, tell_front, tell_back);
    let mut all = first?;
    let behind = second?;
    all.append(behind)?;
    Ok(all)
}

// Takes lines out, and returns them with those of faults, in four threads where no run lies across the middle or a quarter.
fn lines_of_all(
    rt: &(impl Threads + Sync),
    alloc: Global,
    survey: &Survey,
    faults: &[Finding],
    lines: &mut Listing,
) -> Result<Listing, NoMemory>
    ensures { IfOk result (λ own. listed_in own ≡ with_lines (listed_in lines.old) (run_lines survey.now faults.now)) }
{
    let (front, back) = faults.split_at(faults.len() / 2);
    if are_apart(front, back) {
        lines_of_halves(rt, alloc, survey, front, back, lines)
    } else {
        lines_behind(alloc, survey, faults, lines)
    }
}

// Adds a line for each fault.
fn push_faults(
    rt: &(impl Threads + Sync),
    alloc: Global,
    survey: &Survey,
    lines: &mut Listing,
) -> Result<(), NoMemory>
    ensures { OnOk result (listed_in lines.new ≡ with_lines (listed_in lines.old) (fault_lines survey.now)) }
{
    let all = lines_of_all(rt, alloc, survey, survey.findings(), lines)?;
    *lines = all;
    Ok(())
}

// Adds a line for each set of items that need one another.
fn push_loops(loops: &[FoundLoop], lines: &mut Listing) -> Result<(), NoMemory>
    ensures { OnOk result (listed_in lines.new ≡ with_lines (listed_in lines.old) (map loop_line loops.now)) }
{
    for found in loops {
        push_loop(found, lines)?;
    }
    Ok(())
}

/// Adds a line for each fault of a survey, in their order, as `items.csv:5: lot: 'LFL' is not a lot rule; expected lfl, fixed or
/// period`, and then one for each set of items that need one another. Records of empty cells alone that stand one behind the
/// other have one line, that of the first. The lines are made in up to four threads, as many as can be started.
///
/// Errors: `NoMemory` if an allocation fails.
pub fn push_survey(
    rt: &(impl Threads + Sync),
    alloc: Global,
    survey: &Survey,
    lines: &mut Listing,
) -> Result<(), NoMemory>
    ensures { OnOk result (listed_in lines.new ≡ with_lines (listed_in lines.old) (survey_lines survey.now)) }
{
    push_faults(rt, alloc, survey, lines)?;
    push_loops(survey.loops(), lines)
}
