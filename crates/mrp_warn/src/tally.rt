//! How often rows name an item or a work centre.

ghost use Rattle.std.specs.Prelude.{◌≡◌, IfOk, nat_le, nat_lt, position};
ghost use Rattle.std.specs.List.{list_any};
ghost use Rattle.mrp_warn.specs.Rows.{first_likely, is_at, tally};

use mrp_qty::NoMemory;
use std::alloc::Global;

// How often each place below a count is named.
pub(crate) fn tally(alloc: Global, count: usize, named: &[usize]) -> Result<Vec<usize>, NoMemory>
    ensures { IfOk result (λ times. times.items ≡ tally count named.now) }
{
    let mut times = vec![in alloc; 0; count]?;
    for place in named {
        if *place < count {
            times[*place] += 1;
        }
    }
    Ok(times)
}

// Whether a value is above this one.
fn has_above(most: u64, values: &[u64]) -> bool
    ensures { result ≡ list_any (nat_lt most) values.now }
{
    values.iter().any(|value| most < *value)
}

// The place of the first value that is not below this one.
fn first_from(least: u64, values: &[u64]) -> Option<usize>
    ensures { result ≡ position (nat_le least) values.now }
{
    values.iter().position(|value| least <= *value)
}

// The place of the first value that may be meant as it is: one that is not below this one, where none is
// above that one.
pub(crate) fn first_likely(least: u64, most: u64, values: &[u64]) -> Option<usize>
    ensures { result ≡ first_likely least most values.now }
{
    if has_above(most, values) {
        None
    } else {
        first_from(least, values)
    }
}

// Whether a place is this one.
pub(crate) fn is_at(own: Option<usize>, place: usize) -> bool
    ensures { result ≡ is_at own place }
{
    match own {
        Some(own) => own == place,
        None => false,
    }
}
