//! A writer that compares what is written with a text.

ghost use Rattle.std.specs.Prelude.{◌≡◌};
ghost use Rattle.mrp_audit.specs.Comparing.{IsAgreement};
ghost use Rattle.mrp_audit.specs.Parts.{IsFrontBy};

use mrp_qty::NoMemory;
use mrp_report::ReportFault;
use std::io;
use std::io::Write;
use std::marker::Model;

/// A writer that compares what is written with the beginning of a text, byte by byte, and holds
/// none of it. It takes bytes up to and including the first that differs, and none from then on.
#[derive(Drop)]
pub(crate) struct Comparing<'a> {
    text: &'a [u8],
    // How many bytes of the text were written so far.
    equal: usize,
    // The byte that was written in place of the text's next one.
    other: Option<u8>,
}

impl<'a> Model for Comparing<'a> {
    ghost use Rattle.mrp_audit.specs.Comparing.{IsComparing, Compared, comparison};

    ghost Value = { Compared };

    ghost view = { comparison };

    ghost invariant = { IsComparing };
}

// The length of the common prefix of two texts, compared byte by byte.
fn count_common(text: &[u8], other: &[u8]) -> usize
    ensures { IsAgreement text.now other.now result }
{
    let mut equal = 0;
    while equal < text.len() && equal < other.len() && text[equal] == other[equal] {
        equal += 1;
    }
    equal
}

// The same. The whole of `other` is compared at once, and byte by byte only if it differs.
fn common_front(text: &[u8], other: &[u8]) -> usize
    ensures { IsAgreement text.now other.now result }
{
    if text.starts_with(other) {
        other.len()
    } else {
        count_common(text, other)
    }
}

impl<'a> Comparing<'a> {
    ghost use Rattle.std.specs.Prelude.{◌≡◌, None};
    ghost use Rattle.mrp_audit.specs.Comparing.{TellsAgreement};

    /// A writer that is at the beginning of a text.
    pub(crate) fn new(text: &'a [u8]) -> Comparing<'a>
        ensures { result ≡ record { text = text.now; equal = 0; other = None } }
    {
        Comparing {
            text,
            equal: 0,
            other: None,
        }
    }

    /// How many bytes of the text were written; `None` if a byte differs.
    pub(crate) fn agreement(self) -> Option<usize>
        ensures { TellsAgreement self.entry result }
    {
        match self.other {
            Some(_) => None,
            None => Some(self.equal),
        }
    }
}

impl<'a> Write for Comparing<'a> {
    ghost use Rattle.std.specs.Prelude.{◌≡◌, Some};
    ghost use Rattle.mrp_audit.specs.Comparing.{held};

    ghost contents = { λ c. Some (held c) };

    fn write(&mut self, buf: &[u8]) -> io::Result<usize> {
        if self.other.is_some() {
            return Ok(0);
        }
        let (_, next) = self.text.split_at(self.equal);
        let equal = common_front(next, buf);
        self.equal += equal;
        if equal < buf.len() {
            self.other = Some(buf[equal]);
            Ok(equal + 1)
        } else {
            Ok(equal)
        }
    }

    fn flush(&mut self) -> io::Result<()> {
        Ok(())
    }
}

/// How many bytes a text has that another one begins with, from how many bytes were equal and whether all were
/// written; `None` if a byte differs.
pub(crate) fn front_by(
    agreement: Option<usize>,
    written: Result<(), ReportFault>,
) -> Result<Option<usize>, NoMemory>
    ensures { IsFrontBy agreement written result }
{
    match (agreement, written) {
        (None, _) => Ok(None),
        (Some(len), Ok(())) => Ok(Some(len)),
        (Some(_), Err(_)) => Err(NoMemory),
    }
}
