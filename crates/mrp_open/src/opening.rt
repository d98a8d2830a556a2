//! The opening of a desk: its journal is begun, and what was cut off is told.

ghost use Rattle.std.specs.Prelude.{◌≡◌, ◌≤◌, IfErr, IfOk, IfSome, OnOk};
ghost use Rattle.mrp_rows.specs.Told.{HasRisenBy};
ghost use Rattle.mrp_tables.specs.declared.limits.TheConstants.{MOST_ROWS};
ghost use Rattle.mrp_journal.specs.Held.{Becomes};
ghost use Rattle.mrp_journal.specs.Journal.{BeginsSafely, IsFound};
ghost use Rattle.mrp_commands.specs.declared.ending.Ending.TheVariants as ending;
ghost use Rattle.mrp_open.specs.Ends.{IsTold, begun_held};
ghost use Rattle.mrp_open.specs.Opening.{FailsToBeginJournal, lasting, with_journal};
ghost use Rattle.mrp_open.specs.Start.{cut_number, cut_text};

use crate::finding::Found;
use crate::place::JournalPlace;
use itoa::Buffer;
use mrp_commands::{Ending, write_line};
use mrp_journal::{Store, begin, whole_lines};
use mrp_rows::{Told, WriteFault};
use std::io::Write;

// Begins a journal by what was found, and makes it durable.
fn begin_store<S: Store>(journal: &mut S, found: &Found) -> Result<(), Ending>
    requires { IfSome (S.held journal.old) (IsFound found.now.script.items) }
    ensures begun { OnOk result (S.held journal.new ≡ begun_held found.now (S.held journal.old)) }
    ensures safe { Becomes (BeginsSafely found.now.script.items found.now.header.now) (S.held journal.old) (S.held journal.new) }
    ensures write { IfErr result (λ end. (end ≡ ending.Write) × HasRisenBy 1 (S.failures journal.old) (S.failures journal.new)) }
{
    match begin(journal, &found.script, found.header) {
        Ok(()) => Ok(()),
        Err(WriteFault) => Err(Ending::Write),
    }
}

// Opens the journal of a folder, and begins it.
fn open_begun<P: JournalPlace>(place: &mut P, found: &Found) -> Result<P::Journal, Ending>
    requires { IfSome (P.left place.old) (IsFound found.now.script.items) }
    ensures begun { IfOk result (λ journal. P.Journal.held journal ≡ begun_held found.now (P.left place.old)) }
    ensures safe { IfOk result (λ journal. Becomes (BeginsSafely found.now.script.items found.now.header.now) (P.left place.old) (P.Journal.held journal)) }
    ensures opened { OnOk result (P.opening place.new ≡ with_journal (P.opening place.old)) }
    ensures fails { IfErr result (FailsToBeginJournal found.now (P.opening place.old) (P.opening place.new) (P.left place.old) (P.left place.new)) }
{
    let mut journal = place.open_journal()?;
    match begin_store(&mut journal, found) {
        Ok(()) => Ok(journal),
        Err(end) => {
            place.count_failed(&journal);
            place.take_back(journal);
            Err(end)
        }
    }
}

/// Begins the journal of a folder, by what was found there, and makes it and its name durable.
///
/// Errors: how the desk ends.
pub fn begin_journal<P: JournalPlace>(place: &mut P, found: &Found) -> Result<P::Journal, Ending>
    requires { IfSome (P.left place.old) (IsFound found.now.script.items) }
    ensures begun { IfOk result (λ journal. P.Journal.held journal ≡ begun_held found.now (P.left place.old)) }
    ensures lasts { OnOk result (P.opening place.new ≡ lasting (with_journal (P.opening place.old))) }
    ensures fails { IfErr result (FailsToBeginJournal found.now (P.opening place.old) (P.opening place.new) (P.left place.old) (P.left place.new)) }
{
    let journal = open_begun(place, found)?;
    match place.sync_names() {
        Ok(()) => Ok(journal),
        Err(end) => {
            place.take_back(journal);
            Err(end)
        }
    }
}

/// The record that half a line would have been that is cut off, if there is one: 0 for the header.
pub fn cut_number(found: &Found, records: usize) -> Option<u64>
    requires { records ≤ MOST_ROWS }
    ensures { result ≡ cut_number found.now.script.items found.now.header.now records }
{
    if whole_lines(&found.script).len() == found.script.len() {
        return None;
    }
    if found.header.is_empty() {
        Some(records as u64 + 1)
    } else {
        Some(0)
    }
}

/// Tells that half a line was cut off, if one was: `cut: script 7`.
pub fn tell_cut<E: Write>(number: Option<u64>, errors: &mut Told<E>)
    ensures { IsTold E.contents errors.old errors.new (cut_text number) }
{
    if let Some(number) = number {
        let mut digits = Buffer::new();
        let _ = write_line(errors, b"cut: script ", digits.format(number).as_bytes());
    }
}
