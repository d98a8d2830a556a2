//! The names of a table's records, for look-ups.

ghost use Rattle.std.specs.Prelude.{◌≡◌};
ghost use Rattle.mrp_survey.specs.Known.{known_name, trimmed, without_front};

use indexmap::IndexMap;
use mrp_qty::NoMemory;
use mrp_rows::Name;
use mrp_tables::Class;
use std::alloc::Global;
use std::marker::Model;

// Names, each with the class that its first record gives it, if any.
#[derive(Drop)]
pub(crate) struct Known {
    classes: IndexMap<Name, Option<Class>>,
}

impl Model for Known {
    ghost use Rattle.mrp_survey.specs.Names.{Names};

    ghost Value = { Names };

    ghost view = { λ k. k.classes.entries };
}

impl Known {
    ghost use Rattle.std.specs.Prelude.{◌≡◌, [], OnOk, is_some, length, option_map};
    ghost use Rattle.mrp_survey.specs.Names.{class_among, is_among, joined, name_at, place_among, with_name};

    // No names.
    pub(crate) fn new(alloc: Global) -> Known
        ensures { result ≡ [] }
    {
        Known {
            classes: IndexMap::new(alloc),
        }
    }

    pub(crate) fn len(&self) -> usize
        ensures { result ≡ length self.now }
    {
        self.classes.len()
    }

    // The name at a place, counted from 0.
    pub(crate) fn name_at(&self, place: usize) -> Option<Name>
        ensures { result ≡ name_at self.now place }
    {
        match self.classes.get_index(place) {
            Some((name, _)) => Some(*name),
            None => None,
        }
    }

    // The place of a name, and its class.
    pub(crate) fn find(&self, name: &Name) -> Option<(usize, Option<Class>)>
        ensures place { option_map (λ own. own.0) result ≡ place_among self.now name.now }
        ensures class { joined (option_map (λ own. own.1) result) ≡ class_among self.now name.now }
        ensures found { is_some result ≡ is_among self.now name.now }
    {
        match self.classes.get_full(name) {
            Some((place, _, class)) => Some((place, *class)),
            None => None,
        }
    }

    // Whether the name is one of them.
    pub(crate) fn has(&self, name: &Name) -> bool
        ensures { result ≡ is_among self.now name.now }
    {
        self.classes.contains_key(name)
    }

    // Adds a name, unless it is there.
    pub(crate) fn add(&mut self, name: Name, class: Option<Class>) -> Result<(), NoMemory>
        ensures { OnOk result (self.new ≡ with_name self.old name class) }
    {
        if !self.has(&name) {
            self.classes.insert(name, class)?;
        }
        Ok(())
    }
}

fn without_front(text: &[u8]) -> &[u8]
    ensures { result.now ≡ without_front text.now }
{
    let mut rest = text;
    while let [b' ', others @ ..] = rest {
        rest = others;
    }
    rest
}

// A text without the spaces at its ends.
pub(crate) fn trimmed(text: &[u8]) -> &[u8]
    ensures { result.now ≡ trimmed text.now }
{
    let rest = without_front(text);
    let mut len = rest.len();
    while len > 0 && rest[len - 1] == b' ' {
        len -= 1;
    }
    &rest[..len]
}

// The name that a first cell counts as, spaces at its ends left out.
pub(crate) fn known_name(cell: &[u8]) -> Option<Name>
    ensures { result ≡ known_name cell.now }
{
    Name::new(trimmed(cell))
}
