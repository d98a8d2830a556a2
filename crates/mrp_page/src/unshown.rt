//! How many rows of items are not on a page.

ghost use Rattle.std.specs.Prelude.{◌≡◌, ◌-◌, length, map, sum_by};
ghost use Rattle.mrp_page.specs.Row.{cell_at};
ghost use Rattle.mrp_page.specs.Rows.{rows_named};
ghost use Rattle.mrp_page.specs.Unshown.{left_out, unshown};

use crate::counts::Counts;
use crate::item_rows::ItemRows;
use crate::places::Places;
use crate::row::Row;

// How many of these rows belong to other items than those that are shown, each given by one of its
// rows.
fn count_others(rows: &Places<'_>, shown: &[&Row]) -> usize
    ensures { result ≡ length rows.now - sum_by (λ leader. length (rows_named (cell_at leader 0) rows.now)) (map (λ r. r.now) shown.now) }
{
    let mut others = rows.rows().len();
    for leader in shown {
        others = others.saturating_sub(rows.named(leader.name()).len());
    }
    others
}

// How many rows of a section are not on a page, including those that are not kept.
fn left_out(rows: &Places<'_>, shown: &[&Row], missed: u64) -> u64
    ensures { result ≡ left_out rows.now (map (λ r. r.now) shown.now) missed }
{
    missed.saturating_add(count_others(rows, shown) as u64)
}

// How many rows of items are not on a page that shows these items.
pub(crate) fn unshown(rows: &ItemRows<'_>, shown: &[&Row], counts: Counts) -> Counts
    ensures { result ≡ unshown rows.now (map (λ r. r.now) shown.now) counts }
{
    Counts {
        history: counts.history,
        promises: left_out(rows.promises(), shown, counts.promises),
        plan: left_out(rows.plan(), shown, counts.plan),
        orders: left_out(rows.orders(), shown, counts.orders),
        pegs: left_out(rows.pegs().places(), shown, counts.pegs),
        messages: counts.messages,
        loads: counts.loads,
        items: counts.items,
    }
}
