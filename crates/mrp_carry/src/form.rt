//! The two tables that are written of the bookings that stand.

/// What is written of the bookings that stand.
#[derive(Clone, Copy, Debug, PartialEq, Eq)]
pub enum CarryForm {
    /// A script that books again what is carried.
    Script,
    /// A list of all bookings that stand, with their old numbers and those that they get.
    Numbers,
}

impl CarryForm {
    ghost use Rattle.std.specs.Prelude.{◌≡◌};
    ghost use Rattle.mrp_report.specs.page.Rows.{row};
    ghost use Rattle.mrp_carry.specs.Rows.{columns_of};

    /// The names of the columns, as a csv record.
    #[tactic(auto, unfolding(csv::specs::Writing::fields_text, csv::specs::Writing::is_blank))]
    pub fn head(self) -> &'static str
        ensures { result.now ≡ row (columns_of self) }
    {
        match self {
            CarryForm::Script => "desk,call,item,date,quantity,number\n",
            CarryForm::Numbers => "old,new,desk,item,date,quantity\n",
        }
    }
}
