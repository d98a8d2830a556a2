//! The program `mrp`: plans a shop's materials from a bundle of tables.
#![tactic(auto)]

use mrp_main::run_words;
use mrp_open::WholeLines;
use mrp_rows::Told;
use mrp_words::{Hint, QuietErrors, SeenInput, SeenOutput, Sights, begins_utf16, has_stray_word};
use std::fs::File;
use std::io::{ErrorKind, Read, Write};
use std::path::Path;
use std::process::ExitCode;
use std::rt::{Env, Files};
use std::{env, fs, io};

// The exit statuses of a run that was done, and for words that are wrong or can't be had.
const DONE: u8 = 0;

const USAGE: u8 = 2;

const NO_MEMORY: u8 = 3;

// The tables that a folder has as files.
const TABLES: [&str; 9] = [
    "calendar.csv",
    "items.csv",
    "centres.csv",
    "stock.csv",
    "receipts.csv",
    "bills.csv",
    "routings.csv",
    "master.csv",
    "script.csv",
];

// The words after the program's name.
fn words_of(rt: &(impl Env + AllocGlobal)) -> Result<Vec<String>, u8> {
    let words = match env::args(rt) {
        Ok(words) => words,
        Err(error) if error.kind() == ErrorKind::OutOfMemory => return Err(NO_MEMORY),
        Err(_) => return Err(USAGE),
    };
    match words.skip(1).collect(rt.alloc()) {
        Ok(words) => Ok(words),
        Err(_) => Err(NO_MEMORY),
    }
}

// The folder that words name.
fn folder_in(words: &[String]) -> Option<&str> {
    let mut is_next = false;
    for word in words {
        if is_next {
            return Some(word);
        }
        if let Some(folder) = word.strip_prefix("--dir=") {
            return Some(folder);
        }
        is_next = word.as_str() == "--dir";
    }
    None
}

fn is_file(rt: &impl Files, path: &str) -> bool {
    match fs::metadata(rt, path) {
        Ok(found) => found.is_file(),
        Err(_) => false,
    }
}

// Whether a file of a folder begins as UTF-16 does.
fn is_utf16(rt: &(impl Files + AllocGlobal), folder: &str, name: &str) -> bool {
    let Ok(path) = Path::new(folder).join(rt.alloc(), name) else {
        return false;
    };
    let mut front = [0; 2];
    match File::open(rt, path.as_str()) {
        Ok(mut file) => file.read(&mut front).is_ok() && begins_utf16(&front),
        Err(_) => false,
    }
}

// What was probably meant by a folder that did not serve.
fn hint_of_folder(rt: &(impl Files + AllocGlobal), folder: &str) -> Option<Hint> {
    if is_file(rt, folder) {
        Some(Hint::FileAsFolder)
    } else if TABLES.iter().any(|name| is_utf16(rt, folder, name)) {
        Some(Hint::Utf16)
    } else {
        None
    }
}

// Whether words begin with a command.
fn begins_with(words: &[String], command: &str) -> bool {
    match words {
        [first, ..] => first.as_str() == command,
        [] => false,
    }
}

// What was probably meant by words and an input that did not serve. An inspection says itself what a folder's files are.
fn hint_of(rt: &(impl Files + AllocGlobal), words: &[String], sights: &Sights) -> Option<Hint> {
    if sights.is_folder() {
        return Some(Hint::FolderAsInput);
    }
    if sights.is_utf16() {
        return Some(Hint::Utf16);
    }
    if has_stray_word(words) {
        return Some(Hint::StrayWord);
    }
    if begins_with(words, "inspect") {
        return None;
    }
    hint_of_folder(rt, folder_in(words)?)
}

// Whether words plan a folder's tables, which were refused.
fn is_refused(words: &[String], sights: &Sights) -> bool {
    begins_with(words, "plan") && folder_in(words).is_some() && sights.is_refused()
}

// Says what was probably meant by words and an input that did not serve.
fn say_hints(rt: &(impl Files + AllocGlobal + Eprint), words: &[String], sights: &Sights) {
    if is_refused(words, sights) {
        let _ = rt.eprintln(Hint::Inspect.text());
    }
    if let Some(hint) = hint_of(rt, words, sights) {
        let _ = rt.eprintln(hint.text());
    }
}

// Says why nothing was begun.
fn give_up(rt: &impl Eprint, status: u8) -> ExitCode {
    let _ = rt.eprintln(if status == NO_MEMORY {
        "no memory"
    } else {
        "error: a word is not UTF-8"
    });
    ExitCode::from(status)
}

fn main(rt: HostRuntime) -> ExitCode {
    let words = match words_of(&rt) {
        Ok(words) => words,
        Err(status) => return give_up(&rt, status),
    };
    let sights = Sights::new();
    let input = SeenInput {
        inner: rt.stdin().lock(),
        sights: &sights,
    };
    // A desk says how it ended even where nobody reads its answers any more.
    let unseen = Sights::new();
    let output = SeenOutput {
        inner: io::writer(&rt),
        sights: if begins_with(&words, "desk") {
            &unseen
        } else {
            &sights
        },
    };
    // A line of up to 512 bytes is one write, so that nothing gets into it that another thread writes.
    let errors = QuietErrors {
        inner: rt.stderr(),
        sights: &sights,
    };
    let mut errors = Told::new(WholeLines::new(errors));
    let status = run_words(
        &rt,
        rt.alloc(),
        &words,
        &mut Told::new(input),
        &mut Told::new(output),
        &mut errors,
    );
    let _ = errors.flush();
    if status != DONE {
        say_hints(&rt, &words, &sights);
    }
    ExitCode::from(status)
}
