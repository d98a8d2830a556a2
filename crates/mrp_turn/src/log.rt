//! Entries, and the logs that they make.
ghost use Rattle.std.specs.Prelude.{◌≡◌, ◌↔◌, IsTrue, [], length};

use std::marker::Model;

/// One answered call. Its number is its place in the log, from 1.
#[derive(Debug, Drop)]
pub struct Entry<C, R> {
    /// The number of the seat that called.
    pub who: u64,
    /// What was called.
    pub call: C,
    /// What the object answered.
    pub reply: R,
}

/// Answered calls, in the order in which they were made. Contracts see the list of entries.
#[derive(Debug, Drop)]
pub struct Log<C, R> {
    entries: Vec<Entry<C, R>>,
}

impl<C, R> Model for Log<C, R> {
    ghost use Rattle.std.specs.Prelude.{List};
    ghost use Rattle.mrp_turn.specs.declared.log.Entry.{Entry};

    ghost Value = { List (Entry C R) };

    ghost view = { λ l. l.entries.items };
}

impl<C, R> Log<C, R> {
    /// The log of these entries. It does not allocate.
    pub fn from_entries(entries: Vec<Entry<C, R>>) -> Log<C, R>
        ensures { result ≡ entries.items }
    {
        Log { entries }
    }

    /// The entries, from the first on.
    pub fn entries(&self) -> &[Entry<C, R>]
        ensures { result.now ≡ self.now }
    {
        &self.entries
    }

    /// The entries themselves. It does not allocate.
    pub fn into_entries(self) -> Vec<Entry<C, R>>
        ensures { result.items ≡ self }
    {
        let Log { entries } = self;
        entries
    }

    /// How many entries there are.
    pub fn len(&self) -> usize
        ensures { result ≡ length self.now }
    {
        self.entries.len()
    }

    /// Whether no call was answered.
    pub fn is_empty(&self) -> bool
        ensures { IsTrue result ↔ (self.now ≡ []) }
    {
        self.entries.is_empty()
    }
}

// What the lock protects: the state, and the log of the calls that led to it.
#[derive(Drop)]
pub struct Held<S, C, R> {
    pub state: S,
    pub log: Vec<Entry<C, R>>,
}
