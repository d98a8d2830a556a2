//! Counts of the rows of a day for which a page has no room.

ghost use Rattle.std.specs.Prelude.{◌≡◌};
ghost use Rattle.mrp_page.specs.Counts.{none_counted};
ghost use Rattle.mrp_page.specs.Notes.{counts_of};

use crate::spot::Spot;
use mrp_day::Section;

// How many rows of each section are not kept, and how many items the plan has.
#[derive(Clone, Copy)]
pub(crate) struct Counts {
    pub(crate) history: u64,
    pub(crate) promises: u64,
    pub(crate) plan: u64,
    pub(crate) orders: u64,
    pub(crate) pegs: u64,
    pub(crate) messages: u64,
    pub(crate) loads: u64,
    pub(crate) items: u64,
}

impl Counts {
    // The counts before the first record.
    pub(crate) fn none() -> Counts
        ensures { result ≡ none_counted }
    {
        Counts {
            history: 0,
            promises: 0,
            plan: 0,
            orders: 0,
            pegs: 0,
            messages: 0,
            loads: 0,
            items: 0,
        }
    }

    // Notes the counts of a section up to a spot in it.
    pub(crate) fn note(&mut self, section: Section, spot: Spot)
        ensures { self.new ≡ counts_of section spot self.old }
    {
        match section {
            Section::History => self.history = spot.missed,
            Section::Run => {}
            Section::Promises => self.promises = spot.missed,
            Section::Plan => {
                self.plan = spot.missed;
                self.items = spot.items;
            }
            Section::Orders => self.orders = spot.missed,
            Section::Pegs => self.pegs = spot.missed,
            Section::Messages => self.messages = spot.missed,
            Section::Loads => self.loads = spot.missed,
        }
    }
}
