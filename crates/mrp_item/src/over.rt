//! Overflow as an error.

ghost use Rattle.std.specs.Prelude.{◌≡◌, ok_or};
ghost use Rattle.std.specs.Result.{result_ok};

use mrp_phase::PhaseFault;

// The value; `TooLarge` if there is none.
pub fn or_over<T>(found: Option<T>) -> Result<T, PhaseFault>
    ensures value { result ≡ ok_or found PhaseFault.TooLarge }
    ensures found { found ≡ result_ok result }
{
    found.ok_or(PhaseFault::TooLarge)
}
