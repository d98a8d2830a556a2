//! Where a table's text stands.

ghost use Rattle.std.specs.Prelude.{◌≡◌, ◌≤◌, ◌^◌};
ghost use Rattle.mrp_rows.specs.Bundle.{without_line_ends};
ghost use Rattle.mrp_survey.specs.Lines.{at_start, line_behind};

use crate::lines::{Reading, after_mark};
use mrp_rows::{Table, is_line_end};

/// The text of a table, and where it stands.
#[derive(Clone, Copy)]
pub struct Source<'a> {
    /// The table whose file it is in.
    pub file: Table,
    /// The line of the file in which the text begins, from 1.
    pub line: u64,
    /// The text, its header first.
    pub text: &'a [u8],
    ghost small: { line ≤ 2 ^ 63 },
}

impl<'a> Source<'a> {
    ghost use Rattle.std.specs.Prelude.{◌≡◌};
    ghost use Rattle.mrp_rows.specs.Bundle.{section_text};
    ghost use Rattle.mrp_survey.specs.Lines.{at_start, line_behind};

    /// The text of a table that has a file of its own. It begins behind leading line ends and a byte order mark after them.
    #[tactic(auto, using(crate::proofs::FileLines::same_mark))]
    pub fn of_file(table: Table, bytes: &'a [u8]) -> Source<'a>
        ensures table { result.file ≡ table }
        ensures line { result.line ≡ line_behind (at_start 1) bytes.now }
        ensures text { result.text.now ≡ section_text bytes.now }
    {
        Source {
            file: table,
            line: line_behind(bytes),
            text: after_mark(after_line_ends(bytes)),
        }
    }
}

fn after_line_ends(bytes: &[u8]) -> &[u8]
    ensures { result.now ≡ without_line_ends bytes.now }
{
    let mut rest = bytes;
    while let [first, others @ ..] = rest {
        if !is_line_end(*first) {
            return rest;
        }
        rest = others;
    }
    rest
}

// The line of a file behind leading line ends.
#[tactic(auto, using(crate::proofs::FileLines::line_here))]
fn line_behind(bytes: &[u8]) -> u64
    ensures line { result ≡ line_behind (at_start 1) bytes.now }
    ensures small { result ≤ 2 ^ 63 }
{
    let mut reading = Reading::new(1);
    let mut rest = bytes;
    while let [first, others @ ..] = rest {
        if !is_line_end(*first) {
            return reading.line;
        }
        reading = reading.after(*first);
        rest = others;
    }
    reading.line
}
