//! The folder of cases, in which the program is run. A case is the file NAME.bundle, or the folder
//! NAME.files with its tables, and with it either NAME.day, the day that planning it writes, or
//! NAME.said, the words with which it is refused. A day that is drawn is the file NAME.drawn, and
//! with it NAME.html, its page; it may have a folder NAME.tables with the tables that it was planned from.

use crate::ending::Ending;
use std::alloc::Global;
use std::io::ErrorKind;
use std::rt::Files;
use std::{fs, io};

/// The suffix of the name of a case's folder of tables.
pub const FILES: &str = ".files";

/// The suffix of the name of the folder of tables of a day that is drawn.
pub const TABLES: &str = ".tables";

const BUNDLE: &str = ".bundle";

const DRAWN: &str = ".drawn";

const DAY: &str = ".day";

const SAID: &str = ".said";

const PAGE: &str = ".html";

// The suffixes of the files that go with a case, or with a day that is drawn.
const ANSWERS: [&str; 3] = [DAY, SAID, PAGE];

/// What the folder contains.
#[derive(Drop)]
pub struct Folder {
    /// The names of the cases, in order.
    pub cases: Vec<String>,
    /// The names of the days that are drawn, in order.
    pub drawn: Vec<String>,
    /// How many days, refusals and pages there are.
    pub answers: usize,
}

// Adds the name of a file or a folder without its suffix, if it has that suffix.
fn add_named(alloc: Global, names: &mut Vec<String>, file: &str, end: &str) -> io::Result<()> {
    if let Some(name) = file.strip_suffix(end) {
        names.push(String::from_str(alloc, name)?)?;
    }
    Ok(())
}

impl Folder {
    /// Reads the folder.
    pub fn read<R: Files + AllocGlobal + Clone + Drop>(rt: &R) -> io::Result<Folder> {
        let alloc = rt.alloc();
        let mut cases = Vec::new(alloc);
        let mut drawn = Vec::new(alloc);
        let mut answers = 0usize;
        for entry in fs::read_dir(rt, ".")? {
            let entry = entry?;
            let file = entry.file_name();
            add_named(alloc, &mut cases, file, BUNDLE)?;
            add_named(alloc, &mut cases, file, FILES)?;
            add_named(alloc, &mut drawn, file, DRAWN)?;
            if ANSWERS.iter().any(|end| file.ends_with(*end)) {
                answers = answers.saturating_add(1);
            }
        }
        cases.sort()?;
        drawn.sort()?;
        Ok(Folder {
            cases,
            drawn,
            answers,
        })
    }
}

/// The bundle of a case, if it has one.
pub fn bundle_of<R: Files + AllocGlobal>(rt: &R, name: &str) -> io::Result<Option<Vec<u8>>> {
    let file = format!(in rt.alloc(); "{name}{BUNDLE}")?;
    match fs::read(rt, &file) {
        Ok(bundle) => Ok(Some(bundle)),
        Err(error) if error.kind() == ErrorKind::NotFound => Ok(None),
        Err(error) => Err(error),
    }
}

// The file with this suffix that goes with a case, or with a day that is drawn, if there is one.
fn answer_of<R: Files + AllocGlobal>(rt: &R, name: &str, end: &str) -> io::Result<Option<String>> {
    let file = format!(in rt.alloc(); "{name}{end}")?;
    match fs::read_to_string(rt, &file) {
        Ok(text) => Ok(Some(text)),
        Err(error) if error.kind() == ErrorKind::NotFound => Ok(None),
        Err(error) => Err(error),
    }
}

/// How planning a case has to end: its day is written, or it is refused with its words. `None` if it has
/// neither.
pub fn wanted_of<R: Files + AllocGlobal>(rt: &R, name: &str) -> io::Result<Option<Ending>> {
    let nothing = String::new(rt.alloc());
    if let Some(output) = answer_of(rt, name, DAY)? {
        return Ok(Some(Ending {
            status: 0,
            output,
            words: nothing,
        }));
    }
    let Some(words) = answer_of(rt, name, SAID)? else {
        return Ok(None);
    };
    Ok(Some(Ending {
        status: 1,
        output: nothing,
        words,
    }))
}

/// A day that is drawn.
pub fn drawn_day<R: Files + AllocGlobal>(rt: &R, name: &str) -> io::Result<Vec<u8>> {
    let file = format!(in rt.alloc(); "{name}{DRAWN}")?;
    fs::read(rt, &file)
}

/// Whether a day that is drawn has a folder of tables.
pub fn has_tables<R: Files + AllocGlobal>(rt: &R, name: &str) -> io::Result<bool> {
    let folder = format!(in rt.alloc(); "{name}{TABLES}")?;
    fs::exists(rt, &folder)
}

/// How drawing a day has to end: its page is written. `None` if it has no page.
pub fn wanted_page<R: Files + AllocGlobal>(rt: &R, name: &str) -> io::Result<Option<Ending>> {
    Ok(answer_of(rt, name, PAGE)?.map(|output| Ending {
        status: 0,
        output,
        words: String::new(rt.alloc()),
    }))
}
