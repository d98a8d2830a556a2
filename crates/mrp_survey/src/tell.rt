//! What is told of a record.

ghost use Rattle.std.specs.Prelude.{◌≡◌, ◌∷◌, ◌++◌, [], OnOk, length};
ghost use Rattle.mrp_survey.specs.Marks.{cell_mark, cell_marks, is_whole, keys_after, marks_of, rule_marks, told_of};
ghost use Rattle.mrp_survey.specs.Rules.{broken};
ghost use Rattle.std.specs.Option.{option_to_list};
ghost use Rattle.mrp_survey.specs.Entries.{kind_in, wrong_in};
ghost use Rattle.mrp_survey.specs.Sought.{named_of};

use crate::finding::{Finding, What, tell};
use crate::record::{Record, are_empty};
use crate::rule::{Beside, Named, Rule, broken, key_of, rules};
use crate::seen::Seen;
use mrp_qty::NoMemory;

fn tell_mark(
    entry: &Record<'_>,
    column: usize,
    what: What,
    findings: &mut Vec<Finding>,
) -> Result<(), NoMemory>
    ensures { OnOk result (findings.new.items ≡ findings.old.items ++ told_of entry.now ((column, what) ∷ [])) }
{
    tell(entry.place, entry.row, column, what, findings)
}

// Tells of a cell that is not of its kind.
fn tell_cell(entry: &Record<'_>, column: usize, findings: &mut Vec<Finding>) -> Result<(), NoMemory>
    ensures { OnOk result (findings.new.items ≡ findings.old.items ++ told_of entry.now (cell_mark column (kind_in entry.now column) (wrong_in entry.now column))) }
{
    match entry.wrong(column) {
        None => Ok(()),
        Some(code) => {
            let kind = entry.kind(column);
            tell_mark(entry, column, What::Cell { kind, code }, findings)
        }
    }
}

// Tells of all cells that are not of their kinds.
fn tell_cells(entry: &Record<'_>, findings: &mut Vec<Finding>) -> Result<(), NoMemory>
    ensures { OnOk result (findings.new.items ≡ findings.old.items ++ told_of entry.now (cell_marks entry.now)) }
{
    for column in 0..entry.len() {
        tell_cell(entry, column, findings)?;
    }
    Ok(())
}

// Tells of a rule that is broken.
fn tell_rule(
    rule: Rule,
    beside: &Beside,
    named: &Named,
    seen: &Seen,
    entry: &Record<'_>,
    findings: &mut Vec<Finding>,
) -> Result<(), NoMemory>
    requires { named.now ≡ named_of beside.now.items entry.now }
    ensures { OnOk result (findings.new.items ≡ findings.old.items ++ told_of entry.now (option_to_list (broken beside.now seen.now entry.now rule))) }
{
    match broken(rule, beside, named, seen, entry) {
        Some((column, what)) => tell_mark(entry, column, what, findings),
        None => Ok(()),
    }
}

// Tells of all rules that are broken.
fn tell_rules(
    beside: &Beside,
    named: &Named,
    seen: &Seen,
    entry: &Record<'_>,
    findings: &mut Vec<Finding>,
) -> Result<(), NoMemory>
    requires { named.now ≡ named_of beside.now.items entry.now }
    ensures { OnOk result (findings.new.items ≡ findings.old.items ++ told_of entry.now (rule_marks beside.now seen.now entry.now)) }
{
    for rule in rules(entry.table()) {
        tell_rule(*rule, beside, named, seen, entry, findings)?;
    }
    Ok(())
}

// Tells what is wrong with a record of a table with so many columns, whose names of items were looked up.
pub(crate) fn tell_record(
    width: usize,
    beside: &Beside,
    named: &Named,
    seen: &Seen,
    entry: &Record<'_>,
    findings: &mut Vec<Finding>,
) -> Result<(), NoMemory>
    requires { named.now ≡ named_of beside.now.items entry.now }
    ensures { OnOk result (findings.new.items ≡ findings.old.items ++ told_of entry.now (marks_of width beside.now seen.now entry.now)) }
{
    if are_empty(entry.row) {
        return tell_mark(entry, 0, What::Blank, findings);
    }
    let count = entry.len();
    if count != width {
        return tell_mark(
            entry,
            count.saturating_sub(1),
            What::Columns { count },
            findings,
        );
    }
    tell_cells(entry, findings)?;
    tell_rules(beside, named, seen, entry, findings)
}

// Whether a record has a cell for each column, and not all of them empty.
pub(crate) fn is_whole(width: usize, entry: &Record<'_>) -> bool
    ensures { result ≡ is_whole width entry.now.row }
{
    entry.len() == width && !are_empty(entry.row)
}

// Adds what a whole record has to itself.
pub(crate) fn add_key(width: usize, entry: &Record<'_>, seen: &mut Seen) -> Result<(), NoMemory>
    ensures { OnOk result (seen.new ≡ keys_after width seen.old entry.now) }
{
    if !is_whole(width, entry) {
        return Ok(());
    }
    match key_of(entry) {
        Some(key) => seen.add(key, entry.place.line),
        None => Ok(()),
    }
}
