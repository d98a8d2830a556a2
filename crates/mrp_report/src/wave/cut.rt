//! How the rows of a section are cut into chunks.

ghost use Rattle.std.specs.Prelude.{◌≡◌, ◌<◌};

use crate::section::{Readings, Section};
use crate::wave::pages::SHARE;
use mrp_bill::Shop;

// About how many rows a chunk has: a third of a megabyte of text. So a worker that ends last is not waited for
// long.
const ROWS: usize = 8_192;

// The most pegs that the chunks of a wave may have for each worker: about 20 megabytes of text.
const MOST_PEGS: usize = 524_288;

// The greatest number of bill lines to one item.
fn most_lines(shop: &Shop) -> usize {
    let mut most = 0;
    for item in 0..shop.tables().items().len() {
        most = shop.lines_to(item).len().max(most);
    }
    most
}

// About how many pegs an item has for a week: the average number of bill lines to an item, and one more.
fn pegs_of_a_week(shop: &Shop) -> usize {
    let tables = shop.tables();
    tables.bills().len() / tables.items().len().max(1) + 1
}

// A section's rows, cut into chunks of `size` places each, of which a wave may have `share` for each worker. They
// do not fit if even a chunk of one place may have more rows than a page should hold.
#[derive(Drop)]
pub(crate) struct Chunks<'a> {
    pub readings: &'a Readings<'a>,
    pub section: Section,
    pub size: usize,
    pub share: usize,
    pub fits: bool,
    ghost filled: { 0 < size },
}

impl<'a> Chunks<'a> {
    pub(crate) fn of(readings: &'a Readings<'a>, section: Section) -> Chunks<'a>
        ensures inputs { result.readings.now.plan.now.inputs ≡ readings.now.plan.now.inputs }
        ensures section { result.section ≡ section }
    {
        let inputs = readings.plan.inputs();
        let weeks = usize::from(inputs.weeks()).max(1);
        let (rows, most) = match section {
            Section::Pegs => {
                let shop = inputs.shop();
                (
                    weeks.saturating_mul(pegs_of_a_week(shop)),
                    most_lines(shop).saturating_mul(weeks).max(1),
                )
            }
            _ => (weeks, 1),
        };
        let size = (ROWS / rows.max(1)).min(MOST_PEGS / SHARE / most).max(1);
        Chunks {
            readings,
            section,
            size,
            share: (MOST_PEGS / size.saturating_mul(most).max(1)).min(SHARE),
            fits: most <= MOST_PEGS,
        }
    }
}
