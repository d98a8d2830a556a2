//! What each record has to itself, for look-ups.

use indexmap::IndexMap;
use mrp_qty::NoMemory;
use mrp_rows::Name;
use std::alloc::Global;
use std::marker::Model;

// What a record has to itself: an item or a work centre, with an order or an operation where it has one. A record without an
// order has its first name again, one without an operation 0.
pub(crate) type Key = (Name, (Name, u64));

// The keys of earlier records, each with the line of its first record.
#[derive(Drop)]
pub(crate) struct Seen {
    lines: IndexMap<Key, u64>,
}

impl Model for Seen {
    ghost use Rattle.mrp_survey.specs.Keys.{Keys};

    ghost Value = { Keys };

    ghost view = { λ s. s.lines.entries };
}

impl Seen {
    ghost use Rattle.std.specs.Prelude.{◌≡◌, [], OnOk};
    ghost use Rattle.mrp_survey.specs.Keys.{line_of, with_key};

    // No keys.
    pub(crate) fn new(alloc: Global) -> Seen
        ensures { result ≡ [] }
    {
        Seen {
            lines: IndexMap::new(alloc),
        }
    }

    // The line of the first record with a key.
    pub(crate) fn line_of(&self, key: &Key) -> Option<u64>
        ensures { result ≡ line_of self.now key.now }
    {
        self.lines.get(key).copied()
    }

    // Adds a key, unless it is there.
    pub(crate) fn add(&mut self, key: Key, line: u64) -> Result<(), NoMemory>
        ensures { OnOk result (self.new ≡ with_key self.old key line) }
    {
        if self.line_of(&key).is_none() {
            self.lines.insert(key, line)?;
        }
        Ok(())
    }
}
