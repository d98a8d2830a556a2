//! The records of a script linked desk by desk, and whether a given history follows them.

ghost use Rattle.std.specs.Prelude.{◌≡◌, ◌<◌, ◌+◌, ◌++◌, ◌∷◌, [], ℕ, IfOk, IsTrue, length, slice_index};
ghost use Rattle.std.specs.Int.{IsInRange};
ghost use Rattle.mrp_tables.specs.declared.limits.TheConstants.{MOST_DESKS};
ghost use Rattle.mrp_book.specs.History.{asked};
ghost use Rattle.mrp_script.specs.Script.{Script};
ghost use Rattle.mrp_audit.specs.NextPlaces.{AreBehind, AreNext, HaveCome};
ghost use Rattle.mrp_audit.specs.Parts.{IsSame};

use mrp_book::{Call, Entry, Reply};
use mrp_claims::is_same_call;
use mrp_qty::NoMemory;
use mrp_tables::limits::MOST_DESKS;
use std::alloc::Global;

// For each desk, by its number, the place of its next record; and for each record, the place of the next one
// of its desk. The script's end stands for none.
#[derive(Drop)]
pub(crate) struct NextPlaces {
    of_desk: Vec<usize>,
    behind: Vec<usize>,
}

impl NextPlaces {
    // Takes a desk's next record, and returns its place; the script's end if it has none.
    pub(crate) fn take(&mut self, desk: usize) -> Option<usize> {
        let place = *self.of_desk.get(desk)?;
        if let Some(behind) = self.behind.get(place) {
            self.of_desk[desk] = *behind;
        }
        Some(place)
    }
}

// The place of each desk's first record, and for each record the next one of its desk.
pub(crate) fn next_places(alloc: Global, script: &[(u64, Call)]) -> Result<NextPlaces, NoMemory>
    ensures { IfOk result (λ next. AreNext script.now 0 next.of_desk.items next.behind.items) }
{
    let end = script.len();
    let mut of_desk = vec![in alloc; end; MOST_DESKS as usize + 1]?;
    let mut behind = vec![in alloc; end; end]?;
    let mut place = end;
    while place > 0 {
        place -= 1;
        let desk = script[place].0;
        if desk <= MOST_DESKS {
            behind[place] = of_desk[desk as usize];
            of_desk[desk as usize] = place;
        }
    }
    Ok(NextPlaces { of_desk, behind })
}

// Takes the next record of an entry's desk, if the entry makes its call; returns whether it does.
fn take_next(
    of_desk: &mut Vec<usize>,
    behind: &[usize],
    script: &[(u64, Call)],
    entry: &Entry<Call, Reply>,
) -> bool
    requires desks { length of_desk.old.items ≡ MOST_DESKS + 1 }
    requires behind { AreBehind script.now behind.now }
    ensures desks { length of_desk.new.items ≡ MOST_DESKS + 1 }
    ensures taken { IsTrue result → (made : Script) → HaveCome script.now made of_desk.old.items → HaveCome script.now (made ++ (entry.now.who, entry.now.call) ∷ []) of_desk.new.items }
{
    if entry.who > MOST_DESKS {
        return false;
    }
    let desk = entry.who as usize;
    let place = of_desk[desk];
    if place >= script.len() || !is_same_call(&script[place].1, &entry.call) {
        return false;
    }
    of_desk[desk] = behind[place];
    true
}

// Whether no desk has a record left.
fn have_all(of_desk: &[usize], end: usize) -> bool
    ensures { IsTrue result → (desk : ℕ) → desk < length of_desk.now → slice_index of_desk.now desk ≡ end }
{
    for place in of_desk {
        if *place != end {
            return false;
        }
    }
    true
}

// Whether the entries take each desk's records in order, from these places on, to the last.
fn take_all(entries: &[Entry<Call, Reply>], script: &[(u64, Call)], next: NextPlaces) -> bool
    requires { AreNext script.now 0 next.of_desk.items next.behind.items }
    ensures { IsTrue result → (desk : ℕ) → IsInRange 1 MOST_DESKS desk → IsSame (asked entries.now) script.now desk }
{
    let NextPlaces {
        mut of_desk,
        behind,
    } = next;
    for entry in entries {
        if !take_next(&mut of_desk, behind.as_slice(), script, entry) {
            return false;
        }
    }
    have_all(of_desk.as_slice(), script.len())
}

/// Whether each desk's entries are its script records in order, found out in one pass. `false` leaves it
/// open: the pass may have run out of memory.
pub(crate) fn are_followed(
    alloc: Global,
    entries: &[Entry<Call, Reply>],
    script: &[(u64, Call)],
) -> bool
    ensures { IsTrue result → (desk : ℕ) → IsInRange 1 MOST_DESKS desk → IsSame (asked entries.now) script.now desk }
{
    match next_places(alloc, script) {
        Ok(next) => take_all(entries, script, next),
        Err(NoMemory) => false,
    }
}
