//! Plans each bundle and each folder of tables in the folder that it is run in, like `mrp plan`, and like
//! `mrp live` if that can end in only one way. Reports each that does not end as expected: with its day
//! written, or refused with its words. Each day that is made is also checked against its tables, and has to
//! be found right. Draws each day that is to be drawn, like `mrp page`, and compares the page with the
//! expected one.
#![tactic(auto)]

mod ending;
mod folder;

use self::ending::Ending;
use self::folder::{
    FILES, Folder, TABLES, bundle_of, drawn_day, has_tables, wanted_of, wanted_page,
};
use mrp_audit::check;
use mrp_main::run_words;
use mrp_rows::Told;
use std::alloc::Global;
use std::fs::File;
use std::io;
use std::io::ErrorKind;
use std::process::ExitCode;
use std::rt::Files;
use std::sync::Wait;
use std::thread::Threads;

// What a check says of a right day.
const RIGHT: &str = "right\n";

fn text_of(bytes: Vec<u8>) -> io::Result<String> {
    match String::from_utf8(bytes) {
        Ok(text) => Ok(text),
        Err(_) => Err(io::Error::from(ErrorKind::InvalidData)),
    }
}

// How the program ends with these words and this input.
fn ended<R: AllocGlobal + Eprint + Files<File = File> + Threads + Wait + Sync>(
    rt: &R,
    alloc: Global,
    words: &[&str],
    input: &[u8],
) -> io::Result<Ending>
where
    R::Dir: Send,
{
    let mut input = Told::new(input);
    let mut output = Told::new(Vec::new(alloc));
    let mut errors = Told::new(Vec::new(alloc));
    let status = run_words(rt, alloc, words, &mut input, &mut output, &mut errors);
    Ok(Ending {
        status,
        output: text_of(output.into_inner())?,
        words: text_of(errors.into_inner())?,
    })
}

// How a command ends with a case: its bundle, or its folder of tables if it has no bundle.
fn ended_by<R: AllocGlobal + Eprint + Files<File = File> + Threads + Wait + Sync>(
    rt: &R,
    command: &str,
    name: &str,
) -> io::Result<Ending>
where
    R::Dir: Send,
{
    if let Some(bundle) = bundle_of(rt, name)? {
        return ended(rt, rt.alloc(), &[command], &bundle);
    }
    let folder = format!(in rt.alloc(); "{name}{FILES}")?;
    ended(rt, rt.alloc(), &[command, "--dir", folder.as_str()], b"")
}

// Whether a command ended with a case as it must. If not, a line reports how it ended.
fn is_as_wanted<R: AllocGlobal + Print>(
    rt: &R,
    command: &str,
    name: &str,
    ended: &Ending,
    wanted: &Ending,
) -> io::Result<bool> {
    if ended.is(wanted) {
        return Ok(true);
    }
    let told = ended.differences(rt.alloc(), wanted)?;
    println!(rt; "{command} {name} is not as it must be{told}")?;
    Ok(false)
}

// What a check says of a case's day against its bundle, or against its folder of tables if it has no bundle.
fn said_of<R: AllocGlobal + Eprint + Files<File = File> + Threads + Wait + Sync>(
    rt: &R,
    name: &str,
    day: &str,
) -> io::Result<String>
where
    R::Dir: Send,
{
    if let Some(bundle) = bundle_of(rt, name)? {
        return match check(rt, rt.alloc(), &bundle, day.as_bytes()) {
            Ok(()) => Ok(String::from_str(rt.alloc(), RIGHT)?),
            Err(fault) => Ok(format!(in rt.alloc(); "wrong: {fault}\n")?),
        };
    }
    let folder = format!(in rt.alloc(); "{name}{FILES}")?;
    let words = ["check", "--dir", folder.as_str()];
    Ok(ended(rt, rt.alloc(), &words, day.as_bytes())?.output)
}

// Whether a case's day is found right, if it has one. If not, a line reports what was said of it.
fn is_found_right<R: AllocGlobal + Eprint + Files<File = File> + Print + Threads + Wait + Sync>(
    rt: &R,
    name: &str,
    wanted: &Ending,
) -> io::Result<bool>
where
    R::Dir: Send,
{
    if wanted.status > 0 {
        return Ok(true);
    }
    let said = said_of(rt, name, &wanted.output)?;
    if said.as_str() == RIGHT {
        return Ok(true);
    }
    println!(rt; "check {name} is not as it must be; it says {said:?}")?;
    Ok(false)
}

// How a case compares with what is expected.
#[derive(Clone, Copy)]
enum Verdict {
    Wrong,
    Planned,
    // Right when planned, and also when made live.
    Live,
}

// Whether a case ends as it must, when planned and, if that can end in only one way, when made
// live, and its day is found right.
fn compare<R: AllocGlobal + Eprint + Files<File = File> + Print + Threads + Wait + Sync>(
    rt: &R,
    name: &str,
) -> io::Result<Verdict>
where
    R::Dir: Send,
{
    let Some(wanted) = wanted_of(rt, name)? else {
        println!(rt; "{name} is not as it must be; no day and no words stand beside it")?;
        return Ok(Verdict::Wrong);
    };
    let planned = ended_by(rt, "plan", name)?;
    if !is_as_wanted(rt, "plan", name, &planned, &wanted)? || !is_found_right(rt, name, &wanted)? {
        return Ok(Verdict::Wrong);
    }
    if !wanted.is_of_any_order() {
        return Ok(Verdict::Planned);
    }
    let lived = ended_by(rt, "live", name)?;
    if is_as_wanted(rt, "live", name, &lived, &wanted)? {
        Ok(Verdict::Live)
    } else {
        Ok(Verdict::Wrong)
    }
}

// How drawing a day ends, with the tables that it was planned from if it has a folder of them.
fn drawn_by<R: AllocGlobal + Eprint + Files<File = File> + Threads + Wait + Sync>(
    rt: &R,
    name: &str,
    day: &[u8],
) -> io::Result<Ending>
where
    R::Dir: Send,
{
    if !has_tables(rt, name)? {
        return ended(rt, rt.alloc(), &["page", "--title", name], day);
    }
    let folder = format!(in rt.alloc(); "{name}{TABLES}")?;
    let words = ["page", "--title", name, "--dir", folder.as_str()];
    ended(rt, rt.alloc(), &words, day)
}

// Whether the page of a day is the expected one.
fn is_drawn_right<R: AllocGlobal + Eprint + Files<File = File> + Print + Threads + Wait + Sync>(
    rt: &R,
    name: &str,
) -> io::Result<bool>
where
    R::Dir: Send,
{
    let Some(wanted) = wanted_page(rt, name)? else {
        println!(rt; "{name} is not as it must be; no page stands beside it")?;
        return Ok(false);
    };
    let day = drawn_day(rt, name)?;
    let drawn = drawn_by(rt, name, &day)?;
    is_as_wanted(rt, "page", name, &drawn, &wanted)
}

// How many of the pages are not as they must be.
fn count_wrong_pages<R: AllocGlobal + Eprint + Files<File = File> + Print + Threads + Wait + Sync>(
    rt: &R,
    names: &[String],
) -> io::Result<usize>
where
    R::Dir: Send,
{
    let mut wrong = 0usize;
    for name in names {
        let is_right = match is_drawn_right(rt, name) {
            Ok(is_right) => is_right,
            Err(error) => {
                println!(rt; "{name} could not be looked at; {error}")?;
                false
            }
        };
        if !is_right {
            wrong = wrong.saturating_add(1);
        }
    }
    Ok(wrong)
}

// How many of the cases do not end as they must, and how many were also made live.
fn count_verdicts<R: AllocGlobal + Eprint + Files<File = File> + Print + Threads + Wait + Sync>(
    rt: &R,
    cases: &[String],
) -> io::Result<(usize, usize)>
where
    R::Dir: Send,
{
    let mut wrong = 0usize;
    let mut live = 0usize;
    for name in cases {
        let judged = match compare(rt, name) {
            Ok(judged) => judged,
            Err(error) => {
                println!(rt; "{name} could not be looked at; {error}")?;
                Verdict::Wrong
            }
        };
        match judged {
            Verdict::Wrong => wrong = wrong.saturating_add(1),
            Verdict::Planned => {}
            Verdict::Live => live = live.saturating_add(1),
        }
    }
    Ok((wrong, live))
}

// Whether there are cases in the folder, each case and each page is as it must be, and each day, refusal
// and page belongs to one.
fn are_right<
    R: AllocGlobal + Eprint + Files<File = File> + Print + Threads + Wait + Sync + Clone + Drop,
>(rt: &R) -> io::Result<bool>
where
    R::Dir: Send,
{
    let Folder {
        cases,
        drawn,
        answers,
    } = Folder::read(rt)?;
    let (count, pages) = (cases.len(), drawn.len());
    if count == 0 {
        println!(rt; "no case is in this folder")?;
        return Ok(false);
    }
    let (wrong, live) = count_verdicts(rt, &cases)?;
    let wrong_pages = count_wrong_pages(rt, &drawn)?;
    if wrong > 0 || wrong_pages > 0 {
        println!(rt;
            "{wrong} of {count} cases and {wrong_pages} of {pages} pages are not as they must be"
        )?;
        return Ok(false);
    }
    if answers != count.saturating_add(pages) {
        println!(rt;
            "{answers} days, refusals and pages for {count} cases and {pages} days that are drawn"
        )?;
        return Ok(false);
    }
    println!(rt;
        "{count} cases as they must be, {live} of them as live days too, and {pages} pages"
    )?;
    Ok(true)
}

fn main(rt: HostRuntime) -> ExitCode {
    match are_right(&rt) {
        Ok(true) => ExitCode::SUCCESS,
        Ok(false) => ExitCode::FAILURE,
        Err(error) => {
            let _ = eprintln!(rt; "error: {error}");
            ExitCode::FAILURE
        }
    }
}
