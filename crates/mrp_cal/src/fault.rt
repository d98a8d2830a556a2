//! What is wrong with a calendar.
use std::error::Error;
use std::fmt;

/// Why a calendar was refused. If several apply, the first is returned.
#[derive(Clone, Copy, Debug, PartialEq, Eq, Hash)]
pub enum CalFault {
    /// The start is not a Monday.
    StartNotMonday,
    /// The weeks are not 1 to 104.
    Weeks,
    /// No weekday is worked.
    NoWorkday,
}

impl fmt::Display for CalFault {
    ghost use Rattle.std.specs.Prelude.{Some};
    ghost use Rattle.mrp_cal.specs.FaultText.{words_of};

    ghost output = { λ fault. Some (words_of fault) };

    fn fmt<W: fmt::Write>(&self, f: &mut fmt::Formatter<W>) -> fmt::Result {
        match self {
            CalFault::StartNotMonday => write!(f, "the start is not a Monday"),
            CalFault::Weeks => write!(f, "the weeks are not 1 to 104"),
            CalFault::NoWorkday => write!(f, "no weekday is worked"),
        }
    }
}

impl Error for CalFault {}
