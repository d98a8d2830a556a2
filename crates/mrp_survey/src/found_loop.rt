//! Items that need one another.

use mrp_rows::{Name, Table};
use std::marker::Model;

/// Items that need one another: a way from the first of them down bill lines back to it.
#[derive(Drop)]
pub struct FoundLoop {
    pub(crate) file: Table,
    pub(crate) number: usize,
    pub(crate) names: Vec<Name>,
    pub(crate) lines: Vec<u64>,
}

impl Model for FoundLoop {
    ghost use Rattle.mrp_survey.specs.Surveyed.{LoopTold};

    ghost Value = { LoopTold };

    ghost view = { λ l. record {
      file = l.file;
      number = l.number;
      names = l.names.items;
      lines = l.lines.items;
    } };
}

impl FoundLoop {
    ghost use Rattle.std.specs.Prelude.{◌≡◌};

    /// The table in whose file the bill lines stand.
    pub fn file(&self) -> Table
        ensures { result ≡ self.now.file }
    {
        self.file
    }

    /// The number of the first bill line's record, from 1.
    pub fn number(&self) -> usize
        ensures { result ≡ self.now.number }
    {
        self.number
    }

    /// The items along the way: the first of the set, a component of it, and so on down to it again.
    pub fn names(&self) -> &[Name]
        ensures { result.now ≡ self.now.names }
    {
        &self.names
    }

    /// The lines of the file in which the bill lines begin, along the way.
    pub fn lines(&self) -> &[u64]
        ensures { result.now ≡ self.now.lines }
    {
        &self.lines
    }
}
