//! Telling what is wrong with the tables of a folder, or what is odd.

ghost use Rattle.std.specs.Prelude.{◌≡◌, ◌++◌, ◌∷◌, [], ℕ, IfOk, List, OnOk, Option, filter_map, flat_map, map, string_bytes};
ghost use Rattle.mrp_script.specs.Opened.{IsAccepted, Opens};
ghost use Rattle.mrp_survey.specs.declared.source.Source.{Source};
ghost use Rattle.mrp_survey.specs.Survey.{IsProgress, IsSurveyOf};
ghost use Rattle.mrp_inspect.specs.declared.found.Found.{Found};
ghost use Rattle.mrp_advice.specs.Lines.{survey_lines};
ghost use Rattle.mrp_advice.specs.Listing.{listed_in, with_lines};
ghost use Rattle.mrp_words.specs.Folder.{all_tables};
ghost use Rattle.mrp_inspect.specs.Faults.{lines_found, lines_if, texts_of};
ghost use Rattle.mrp_inspect.specs.Found.{parts_of};
ghost use Rattle.mrp_inspect.specs.Inspected.{Inspects, IsFaultsText, Tells, bundle_in};
ghost use Rattle.mrp_inspect.specs.Words.{path_text, missing_of, stray_text};
ghost use Rattle.mrp_inspect.specs.Pieces.{pieces_of};
ghost use Rattle.mrp_inspect.specs.Strays.{firsts_of, strays_of};

use crate::contents::contents_of;
use crate::cut::cut_files;
use crate::faults::{push_unless_told, remark_text, told_texts};
use crate::first::tells_first;
use crate::found::{Found, PathKind, is_bare};
use crate::names::Naming;
use crate::piece::Piece;
use crate::source::sources_of;
use crate::stray::{Stray, firsts_of, strays_of};
use crate::warning::warnings_of;
use crate::words::{path_text, push_files};
use mrp_advice::{Listing, push_survey};
use mrp_bill::Shop;
use mrp_qty::NoMemory;
use mrp_rows::Fault;
use mrp_script::{OpenFault, open_shop};
use mrp_survey::{Progress, Source, Survey, begin_survey, finish_survey};
use mrp_words::join_tables;
use std::alloc::Global;
use std::thread::Threads;
use std::{mem, thread};

/// What is told of a folder's files.
#[derive(Drop)]
pub struct Inspected {
    /// Texts that one behind the other are a line for each fault, or where there is none for each warning, and how many there are.
    pub texts: Vec<String>,
    /// Whether faults are told.
    pub has_faults: bool,
}

// Adds the line of a folder that has none of the tables.
#[tactic(auto, using(mrp_advice::proofs::Listings::one_line))]
fn push_bare(alloc: Global, path_kind: PathKind, lines: &mut Listing) -> Result<(), NoMemory>
    ensures { OnOk result (listed_in lines.new ≡ with_lines (listed_in lines.old) (path_text path_kind ∷ [])) }
{
    let line = path_text(alloc, path_kind)?;
    lines.push(line.as_str())?;
    Ok(())
}

// Adds the lines of what is wrong with files, and then with their records.
fn push_all(
    rt: &(impl Threads + Sync),
    alloc: Global,
    firsts: &[Option<usize>],
    strays: &[Stray<'_>],
    others: &[Option<Naming>],
    survey: &Survey,
    lines: &mut Listing,
) -> Result<(), NoMemory>
    ensures { OnOk result (listed_in lines.new ≡ with_lines (listed_in lines.old) (map stray_text strays.now ++ filter_map (missing_of firsts.now others.now) all_tables ++ survey_lines survey.now)) }
{
    push_files(alloc, strays, firsts, others, lines)?;
    push_survey(rt, alloc, survey, lines)
}

// Adds the line of a folder that has none of the tables, or those of all faults.
fn push_if(
    rt: &(impl Threads + Sync),
    alloc: Global,
    bare: bool,
    path_kind: PathKind,
    firsts: &[Option<usize>],
    strays: &[Stray<'_>],
    others: &[Option<Naming>],
    survey: &Survey,
    lines: &mut Listing,
) -> Result<(), NoMemory>
    ensures { OnOk result (listed_in lines.new ≡ with_lines (listed_in lines.old) (lines_if bare (path_text path_kind) (map stray_text strays.now ++ filter_map (missing_of firsts.now others.now) all_tables) (survey_lines survey.now))) }
{
    if bare {
        push_bare(alloc, path_kind, lines)
    } else {
        push_all(rt, alloc, firsts, strays, others, survey, lines)
    }
}

// Adds the lines of all faults.
fn push_told(
    rt: &(impl Threads + Sync),
    alloc: Global,
    found: &Found,
    firsts: &[Option<usize>],
    strays: &[Stray<'_>],
    survey: &Survey,
    lines: &mut Listing,
) -> Result<(), NoMemory>
    requires firsts { firsts.now ≡ firsts_of (pieces_of (parts_of found.now)) }
    requires strays { strays.now ≡ strays_of (pieces_of (parts_of found.now)) }
    ensures { OnOk result (listed_in lines.new ≡ with_lines (listed_in lines.old) (texts_of (lines_found found.now survey.now))) }
{
    let bare = is_bare(found);
    let others = found.others.as_slice();
    push_if(
        rt,
        alloc,
        bare,
        found.path_kind,
        firsts,
        strays,
        others,
        survey,
        lines,
    )
}

// The faults of tables that are refused, by a survey of their texts. No case is known in which the first line of the survey tells
// another than the fault for which they are refused; then a line more would stand in front of it.
fn faults_of(
    rt: &(impl Threads + Sync),
    alloc: Global,
    found: &Found,
    firsts: &[Option<usize>],
    strays: &[Stray<'_>],
    survey: &Survey,
    fault: &Fault,
) -> Result<Vec<String>, NoMemory>
    requires firsts { firsts.now ≡ firsts_of (pieces_of (parts_of found.now)) }
    requires strays { strays.now ≡ strays_of (pieces_of (parts_of found.now)) }
    ensures { (sources : List (Option Source)) → IsSurveyOf sources survey.now → IfOk result (λ texts. IsFaultsText found.now sources fault.now (flat_map string_bytes texts.items)) }
{
    let remark = remark_text(alloc, fault)?;
    let mut lines = Listing::new(alloc, remark);
    let told = tells_first(found, firsts, strays, survey, fault);
    push_unless_told(alloc, told, fault, &mut lines)?;
    push_told(rt, alloc, found, firsts, strays, survey, &mut lines)?;
    told_texts(alloc, lines)
}

// The beginning of a survey of the texts of tables, and beside it the shop of their bundle or why it is not opened, in two threads if
// a second one can be started.
fn begin_and_open(
    rt: &(impl Threads + Sync),
    alloc: Global,
    bundle: &[u8],
    sources: &[Option<Source<'_>>; 9],
) -> (Result<Progress, NoMemory>, Result<Shop, OpenFault>)
    ensures begun { IfOk result.0 (IsProgress sources.now) }
    ensures opened { Opens bundle.now result.1 }
{
    let begin = move || -> Result<Progress, NoMemory>
        ensures { IfOk result (IsProgress sources.entry.now) }
    { begin_survey(rt, alloc, sources) };
    let open = move || -> Result<Shop, OpenFault>
        ensures { Opens bundle.entry.now result }
    { open_shop(rt, alloc, bundle) };
    thread::join(rt, begin, open)
}

// What is told where tables are refused, with a survey of their texts.
fn inspect_refused(
    rt: &(impl Threads + Sync),
    alloc: Global,
    found: &Found,
    firsts: &[Option<usize>],
    strays: &[Stray<'_>],
    survey: &Survey,
    why: OpenFault,
) -> Result<Inspected, NoMemory>
    requires firsts { firsts.now ≡ firsts_of (pieces_of (parts_of found.now)) }
    requires strays { strays.now ≡ strays_of (pieces_of (parts_of found.now)) }
    ensures { (bundle : List ℕ) (sources : List (Option Source)) → Opens bundle (Err why) → IsSurveyOf sources survey.now
        → IfOk result (λ inspected. Tells inspected.has_faults bundle found.now sources (flat_map string_bytes inspected.texts.items)) }
{
    match why {
        OpenFault::Refused(fault) => {
            let told = faults_of(rt, alloc, found, firsts, strays, survey, &fault)?;
            Ok(Inspected {
                texts: told,
                has_faults: true,
            })
        }
        OpenFault::NoMemory => Err(NoMemory),
    }
}

fn texts_of_one(alloc: Global, text: String) -> Result<Vec<String>, NoMemory>
    ensures { IfOk result (λ texts. flat_map string_bytes texts.items ≡ string_bytes text) }
{
    let texts = vec![in alloc; text]?;
    Ok(texts)
}

// What is told where tables are accepted.
fn inspect_accepted(
    rt: &(impl Threads + Sync),
    alloc: Global,
    bundle: &[u8],
    shop: &Shop,
    sources: &[Option<Source<'_>>; 9],
) -> Result<Inspected, NoMemory>
    requires accepted { IsAccepted bundle.now shop.now.tables }
    ensures { (found : Found) → IfOk result (λ inspected. Tells inspected.has_faults bundle.now found sources.now (flat_map string_bytes inspected.texts.items)) }
{
    let text = warnings_of(rt, alloc, bundle, shop, sources)?;
    let texts = texts_of_one(alloc, text)?;
    Ok(Inspected {
        texts,
        has_faults: false,
    })
}

// The faults of tables of which a survey is begun.
fn survey_refused(
    rt: &(impl Threads + Sync),
    alloc: Global,
    found: &Found,
    firsts: &[Option<usize>],
    strays: &[Stray<'_>],
    sources: &[Option<Source<'_>>; 9],
    progress: Progress,
    why: OpenFault,
) -> Result<Inspected, NoMemory>
    requires firsts { firsts.now ≡ firsts_of (pieces_of (parts_of found.now)) }
    requires strays { strays.now ≡ strays_of (pieces_of (parts_of found.now)) }
    requires progress { IsProgress sources.now progress }
    ensures { (bundle : List ℕ) → Opens bundle (Err why) → IfOk result (λ inspected. Tells inspected.has_faults bundle found.now sources.now (flat_map string_bytes inspected.texts.items)) }
{
    let survey = finish_survey(rt, alloc, sources, progress)?;
    let told = inspect_refused(rt, alloc, found, firsts, strays, &survey, why);
    // Of each record with a fault it has a copy, and the program ends soon.
    mem::forget(survey);
    told
}

// What is told where tables are accepted, or refused. Where no fault is soon found, the survey waits for the shop: it is needed only
// if that is refused.
fn inspect_sources(
    rt: &(impl Threads + Sync),
    alloc: Global,
    found: &Found,
    bundle: &[u8],
    firsts: &[Option<usize>],
    strays: &[Stray<'_>],
    sources: &[Option<Source<'_>>; 9],
) -> Result<Inspected, NoMemory>
    requires firsts { firsts.now ≡ firsts_of (pieces_of (parts_of found.now)) }
    requires strays { strays.now ≡ strays_of (pieces_of (parts_of found.now)) }
    ensures { IfOk result (λ inspected. Tells inspected.has_faults bundle.now found.now sources.now (flat_map string_bytes inspected.texts.items)) }
{
    let (begun, opened) = begin_and_open(rt, alloc, bundle, sources);
    let progress = begun?;
    match opened {
        Ok(shop) => inspect_accepted(rt, alloc, bundle, &shop, sources),
        Err(why) => survey_refused(rt, alloc, found, firsts, strays, sources, progress, why),
    }
}

// The same, by the pieces of the files.
fn inspect_pieces(
    rt: &(impl Threads + Sync),
    alloc: Global,
    found: &Found,
    bundle: &[u8],
    pieces: &[Piece<'_>],
) -> Result<Inspected, NoMemory>
    requires bundle { bundle.now ≡ bundle_in found.now }
    requires pieces { pieces.now ≡ pieces_of (parts_of found.now) }
    ensures { IfOk result (Inspects found.now) }
{
    let firsts = firsts_of(alloc, pieces)?;
    let strays = strays_of(alloc, pieces, firsts.as_slice())?;
    let sources = sources_of(pieces, firsts.as_slice(), strays.as_slice());
    inspect_sources(
        rt,
        alloc,
        found,
        bundle,
        firsts.as_slice(),
        strays.as_slice(),
        &sources,
    )
}

/// Inspects the files of a folder: reads the tables as planning them does, and where they are refused tells
/// all faults, each with its file, line and column; the first is the fault that planning tells, with its words behind it. Where they are
/// accepted, it tells warnings of what is odd. Nothing is planned.
///
/// Tables are read, surveyed and looked at for what is odd in several threads, as many as can be started. The memory of a survey that is
/// told is not given back.
///
/// Errors: `NoMemory` if an allocation fails.
pub fn inspect(
    rt: &(impl Threads + Sync),
    alloc: Global,
    found: &Found,
) -> Result<Inspected, NoMemory>
    ensures { IfOk result (Inspects found.now) }
{
    let tables = found.tables.as_slice();
    let bundle = join_tables(alloc, tables)?;
    let contents = contents_of(alloc, bundle.as_slice(), tables)?;
    let pieces = cut_files(alloc, contents.as_slice())?;
    inspect_pieces(rt, alloc, found, bundle.as_slice(), pieces.as_slice())
}
