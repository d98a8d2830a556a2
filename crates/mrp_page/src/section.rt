//! What a page keeps of the sections of a day.

ghost use Rattle.std.specs.Prelude.{◌≡◌};
ghost use Rattle.mrp_page.specs.Section.{is_by_weeks, is_history, is_of_items, is_plan, items_of, next_of, place_of, room_of, same_section};

use crate::limits::{MOST_ENTRIES, MOST_ITEMS, MOST_PEGS, MOST_ROWS};
use mrp_day::Section;

// The section that follows another. After the last one the report of another run may follow.
pub(crate) fn next_of(section: Section) -> Section
    ensures { result ≡ next_of section }
{
    match section {
        Section::History => Section::Run,
        Section::Run => Section::Promises,
        Section::Promises => Section::Plan,
        Section::Plan => Section::Orders,
        Section::Orders => Section::Pegs,
        Section::Pegs => Section::Messages,
        Section::Messages => Section::Loads,
        Section::Loads => Section::Run,
    }
}

// How many of a section's rows are kept.
pub(crate) fn room_of(section: Section) -> u64
    ensures { result ≡ room_of section }
{
    match section {
        Section::History => MOST_ENTRIES,
        Section::Run => 1,
        Section::Pegs => MOST_PEGS,
        _ => MOST_ROWS,
    }
}

// For how many items, or work centres, rows are kept even if the section is full.
pub(crate) fn items_of(section: Section) -> u64
    ensures { result ≡ items_of section }
{
    match section {
        Section::Promises | Section::Plan | Section::Messages | Section::Loads => MOST_ITEMS,
        _ => 0,
    }
}

// Whether an item, or a work centre, has a row for each week in a section.
pub(crate) fn is_by_weeks(section: Section) -> bool
    ensures { result ≡ is_by_weeks section }
{
    matches!(section, Section::Promises | Section::Plan | Section::Loads)
}

// Whether a section is the plan.
pub(crate) fn is_plan(section: Section) -> bool
    ensures { result ≡ is_plan section }
{
    matches!(section, Section::Plan)
}

// Whether a section is the history.
pub(crate) fn is_history(section: Section) -> bool
    ensures { result ≡ is_history section }
{
    matches!(section, Section::History)
}

// Whether a section's rows belong to items.
pub(crate) fn is_of_items(section: Section) -> bool
    ensures { result ≡ is_of_items section }
{
    !matches!(section, Section::History | Section::Run | Section::Loads)
}

// A section's place among all of them.
fn place_of(section: Section) -> u8
    ensures { result ≡ place_of section }
{
    match section {
        Section::History => 0,
        Section::Run => 1,
        Section::Promises => 2,
        Section::Plan => 3,
        Section::Orders => 4,
        Section::Pegs => 5,
        Section::Messages => 6,
        Section::Loads => 7,
    }
}

// Whether two sections are the same.
pub(crate) fn same_section(a: Section, b: Section) -> bool
    ensures { result ≡ same_section a b }
{
    place_of(a) == place_of(b)
}
