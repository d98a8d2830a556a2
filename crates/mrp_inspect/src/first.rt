//! Whether the first line tells the fault of `mrp plan`.

ghost use Rattle.std.specs.Prelude.{◌≡◌, List, Option, filter_map, is_none, map};
ghost use Rattle.mrp_words.specs.Folder.{all_tables};
ghost use Rattle.mrp_inspect.specs.declared.found.PathKind.{PathKind};
ghost use Rattle.mrp_inspect.specs.declared.names.Naming.{Naming};
ghost use Rattle.mrp_inspect.specs.Faults.{file_lines, first_fault, lines_found, lines_if, missing_line, path_line, record_lines, tells_first, way_line};
ghost use Rattle.mrp_inspect.specs.Found.{parts_of};
ghost use Rattle.mrp_inspect.specs.Pieces.{pieces_of};
ghost use Rattle.mrp_inspect.specs.Strays as spec;
ghost use Rattle.mrp_inspect.specs.Strays.{firsts_of, strays_of};

use crate::found::{Found, is_bare};
use crate::line_fault::{LineFault, finding_fault, missing_fault, stray_fault, way_fault};
use crate::stray::{Stray, TABLES, first_among};
use mrp_rows::{Fault, Table};
use mrp_survey::Survey;

// Whether no piece begins a table.
fn is_missing(firsts: &[Option<usize>], table: Table) -> bool
    ensures { result ≡ is_none (spec.first_among firsts.now table) }
{
    first_among(firsts, table).is_none()
}

// The fault of the first table that no piece begins.
fn first_missing(firsts: &[Option<usize>]) -> Option<LineFault>
    ensures { (others : List (Option Naming)) → result ≡ first_fault (filter_map (missing_line firsts.now others) all_tables) }
{
    for table in TABLES {
        if is_missing(firsts, table) {
            return Some(missing_fault(table));
        }
    }
    None
}

// The fault of the first line of what is wrong with files.
fn first_of_files(strays: &[Stray<'_>], firsts: &[Option<usize>]) -> Option<LineFault>
    ensures { (others : List (Option Naming)) → result ≡ first_fault (file_lines strays.now firsts.now others) }
{
    match strays.first() {
        Some(stray) => Some(stray_fault(stray.reason)),
        None => first_missing(firsts),
    }
}

// The fault of the first line of items that need one another.
fn first_way(survey: &Survey) -> Option<LineFault>
    ensures { result ≡ first_fault (map (way_line survey.now) survey.now.loops) }
{
    match survey.loops().first() {
        Some(found) => Some(way_fault(survey, found)),
        None => None,
    }
}

// The fault of the first line of what is wrong with records.
fn first_of_records(survey: &Survey) -> Option<LineFault>
    ensures { result ≡ first_fault (record_lines survey.now) }
{
    match survey.findings().first() {
        Some(finding) => Some(finding_fault(survey, finding)),
        None => first_way(survey),
    }
}

// The fault of the first line of a folder that has none of the tables, or of its files, or else of their records.
fn first_of_all(
    bare: bool,
    strays: &[Stray<'_>],
    firsts: &[Option<usize>],
    survey: &Survey,
) -> Option<LineFault>
    ensures { (path_kind : PathKind) (others : List (Option Naming)) → result ≡ first_fault (lines_if bare (path_line path_kind) (file_lines strays.now firsts.now others) (record_lines survey.now)) }
{
    if bare {
        return Some(missing_fault(Table::Calendar));
    }
    match first_of_files(strays, firsts) {
        Some(fault) => Some(fault),
        None => first_of_records(survey),
    }
}

// Whether the first line that is found tells this fault.
pub(crate) fn tells_first(
    found: &Found,
    firsts: &[Option<usize>],
    strays: &[Stray<'_>],
    survey: &Survey,
    fault: &Fault,
) -> bool
    requires firsts { firsts.now ≡ firsts_of (pieces_of (parts_of found.now)) }
    requires strays { strays.now ≡ strays_of (pieces_of (parts_of found.now)) }
    ensures { result ≡ tells_first (lines_found found.now survey.now) fault.now }
{
    match first_of_all(is_bare(found), strays, firsts, survey) {
        Some(own) => own.is(fault),
        None => false,
    }
}
