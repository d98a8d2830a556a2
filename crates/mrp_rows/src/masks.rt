//! Masks of the lanes that stand out in a block of bytes.

ghost use Rattle.std.specs.Prelude.{◌≡◌};
ghost use Rattle.mrp_rows.specs.Masks.{first_set};

/// The lane of the lowest bit that is set in a mask of so many lanes, or this count where none is.
pub(crate) fn first_set(mask: u64, lanes: usize) -> usize
    ensures { result ≡ first_set mask lanes }
{
    if mask == 0 {
        lanes
    } else {
        mask.trailing_zeros() as usize
    }
}
