//! The section `run`.

ghost use Rattle.std.specs.Prelude.{◌≡◌, ◌++◌, OnOk};
ghost use Rattle.mrp_report.specs.section.RunText.{run_text};

use crate::page::Page;
use itoa::Buffer;
use mrp_day::Section;
use mrp_qty::NoMemory;

/// Adds the section `run`: the entry of the order book that the run plans from, and how many
/// bookings stand there.
///
/// Errors: `NoMemory` if an allocation fails.
#[tactic(auto, unfolding(csv::specs::Writing::fields_text, csv::specs::Writing::is_blank))]
pub(crate) fn run_section(page: &mut Page, front: u64, standing: u64) -> Result<(), NoMemory>
    ensures { OnOk result (page.new ≡ page.old ++ run_text front standing) }
{
    let mut front_text = Buffer::new();
    let mut standing_text = Buffer::new();
    page.begin(Section::Run)?;
    page.row(&[
        front_text.format(front).as_bytes(),
        standing_text.format(standing).as_bytes(),
    ])
}
