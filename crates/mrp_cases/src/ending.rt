//! How a run of the program ends, and how two endings differ.

ghost use Rattle.std.specs.Prelude.{◌≡◌, ◌↔◌, IsTrue, IsNone, string_bytes};

use std::alloc::{AllocError, Global};

/// How a run ends: its exit status, what it writes, and the words of its error stream.
#[derive(Drop)]
pub struct Ending {
    pub status: u8,
    pub output: String,
    pub words: String,
}

// The first line in which two texts differ: its number, from 1, and what each text has there.
struct OtherLine<'a> {
    number: usize,
    ended: &'a str,
    wanted: &'a str,
}

// What is reported for a text that has no such line.
const NO_LINE: &str = "(no line)";

fn other_line<'a>(ended: &'a str, wanted: &'a str) -> Option<OtherLine<'a>>
    ensures { IsNone result ↔ (ended.now ≡ wanted.now) }
{
    if ended == wanted {
        return None;
    }
    let shared = ended
        .split('\n')
        .zip(wanted.split('\n'))
        .take_while(|(ended, wanted)| ended == wanted)
        .count();
    Some(OtherLine {
        number: shared.saturating_add(1),
        ended: ended.split('\n').nth(shared).unwrap_or(NO_LINE),
        wanted: wanted.split('\n').nth(shared).unwrap_or(NO_LINE),
    })
}

// Appends to a report the first line in which a text differs from the expected one.
fn tell_line(told: &mut String, text: &str, ended: &str, wanted: &str) -> Result<(), AllocError> {
    if let Some(line) = other_line(ended, wanted) {
        let OtherLine {
            number,
            ended,
            wanted,
        } = line;
        write!(
            told,
            "; {text}, line {number}: {ended:?}, and not {wanted:?}"
        )?;
    }
    Ok(())
}

// Whether one desk made all calls of a day.
fn is_of_one_desk(day: &str) -> bool {
    let mut desks = day
        .lines()
        .skip(2)
        .take_while(|line| !line.starts_with('['))
        .map(|line| line.split(',').nth(1));
    match desks.next() {
        Some(first) => desks.all(|desk| desk == first),
        None => true,
    }
}

impl Ending {
    /// Whether a run has ended exactly as expected.
    pub fn is(&self, wanted: &Ending) -> bool
        ensures { IsTrue result ↔ (self.now.status ≡ wanted.now.status)
            × (string_bytes self.now.output ≡ string_bytes wanted.now.output)
            × (string_bytes self.now.words ≡ string_bytes wanted.now.words) }
    {
        self.status == wanted.status && self.output == wanted.output && self.words == wanted.words
    }

    /// Whether desks that make their calls concurrently can end in no other way: one desk made all
    /// calls, or the bundle has a fault.
    pub fn is_of_any_order(&self) -> bool {
        match self.status {
            0 => is_of_one_desk(&self.output),
            _ => self.words.as_str().starts_with("refused: "),
        }
    }

    /// Reports the differences from the expected ending: the status, and the first line that differs in the
    /// output and in the words.
    pub fn differences(&self, alloc: Global, wanted: &Ending) -> Result<String, AllocError> {
        let mut told = String::new(alloc);
        if self.status != wanted.status {
            write!(told, "; status {}, and not {}", self.status, wanted.status)?;
        }
        tell_line(&mut told, "output", &self.output, &wanted.output)?;
        tell_line(&mut told, "words", &self.words, &wanted.words)?;
        Ok(told)
    }
}
