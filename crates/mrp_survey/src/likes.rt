//! Which known name another equals but for capitals.

ghost use Rattle.std.specs.Prelude.{◌≡◌, IfOk, OnOk};
ghost use Rattle.mrp_survey.specs.Likes.{HasFirsts, lowered, with_first};

use crate::known::Known;
use indexmap::IndexMap;
use mrp_qty::NoMemory;
use mrp_rows::{LONGEST_NAME, Name};
use std::alloc::Global;
use std::marker::Model;

// Known names, and the first of those that are equal but for capitals, under its name in lower case.
#[derive(Drop)]
pub(crate) struct Likes {
    known: Known,
    firsts: IndexMap<Name, Name>,
}

impl Model for Likes {
    ghost use Rattle.mrp_survey.specs.Likes.{HasFirsts};
    ghost use Rattle.mrp_survey.specs.Names.{Names};

    ghost Value = { Names };

    ghost view = { λ l. l.known };

    ghost invariant = { λ l. HasFirsts l.known l.firsts.entries };
}

impl Likes {
    ghost use Rattle.std.specs.Prelude.{◌≡◌, IfOk, option_map};
    ghost use Rattle.mrp_survey.specs.Likes.{first_like};
    ghost use Rattle.mrp_survey.specs.Names.{place_among};

    pub(crate) fn of(alloc: Global, known: Known) -> Result<Likes, NoMemory>
        ensures { IfOk result (λ likes. likes ≡ known) }
    {
        let firsts = firsts_of(alloc, &known)?;
        Ok(Likes { known, firsts })
    }

    // The place of a name, from 0.
    pub(crate) fn place_of(&self, name: &Name) -> Option<usize>
        ensures { result ≡ place_among self.now name.now }
    {
        match self.known.find(name) {
            Some((place, _)) => Some(place),
            None => None,
        }
    }

    // The first name that equals this one but for capitals.
    pub(crate) fn first_like(&self, name: &Name) -> Option<&Name>
        ensures { option_map (λ own. own.now) result ≡ first_like self.now name.now }
    {
        self.firsts.get(&lowered(name))
    }
}

// A name in lower case.
fn lowered(name: &Name) -> Name
    ensures { result ≡ lowered name.now }
{
    let text = name.as_bytes();
    let mut bytes = [0; LONGEST_NAME];
    for (place, byte) in text.iter().enumerate() {
        bytes[place] = byte.to_ascii_lowercase();
    }
    match Name::new(&bytes[..text.len()]) {
        Some(lowered) => lowered,
        None => unreachable!(),
    }
}

// Adds a name, unless one is there that it equals but for capitals.
fn add_first(name: Name, firsts: &mut IndexMap<Name, Name>) -> Result<(), NoMemory>
    ensures { OnOk result (firsts.new.entries ≡ with_first firsts.old.entries name) }
{
    let key = lowered(&name);
    if !firsts.contains_key(&key) {
        firsts.insert(key, name)?;
    }
    Ok(())
}

fn firsts_of(alloc: Global, known: &Known) -> Result<IndexMap<Name, Name>, NoMemory>
    ensures { IfOk result (λ firsts. HasFirsts known.now firsts.entries) }
{
    let mut firsts = IndexMap::with_capacity(alloc, known.len())?;
    for place in 0..known.len() {
        if let Some(name) = known.name_at(place) {
            add_first(name, &mut firsts)?;
        }
    }
    Ok(firsts)
}
