//! The plans of a day's runs so far.

ghost use Rattle.std.specs.Prelude.{◌≡◌, None};
ghost use Rattle.std.specs.Option.{option_copied, option_or};
ghost use Rattle.mrp_engine.specs.day.RunPlans.{with_plan};

use mrp_item::Plan;

/// The plans of runs of one shop, one planned after the other, of which two are kept: that of the first run, with
/// which the reports begin, and that of the last, from which the next is made by net change.
#[derive(Drop)]
pub struct RunPlans {
    first: Option<Plan>,
    // `None` while the first run is the last.
    last: Option<Plan>,
}

impl RunPlans {
    /// No run is planned yet.
    pub fn none() -> RunPlans
        ensures { result ≡ record { first = None; last = None } }
    {
        RunPlans {
            first: None,
            last: None,
        }
    }

    /// The plan of the last run.
    pub fn last(&self) -> Option<&Plan>
        ensures { option_copied result ≡ option_or self.now.last self.now.first }
    {
        match &self.last {
            Some(plan) => Some(plan),
            None => self.first.as_ref(),
        }
    }

    /// Adds the plan of one more run.
    pub fn add(&mut self, plan: Plan)
        ensures { self.new ≡ with_plan self.old plan }
    {
        if self.first.is_none() {
            self.first = Some(plan);
        } else {
            self.last = Some(plan);
        }
    }

    /// The plan of the first run.
    pub fn into_first(self) -> Option<Plan>
        ensures { result ≡ self.first }
    {
        let RunPlans { first, last: _ } = self;
        first
    }
}
