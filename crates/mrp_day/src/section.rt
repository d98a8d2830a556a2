//! The sections of a day.

ghost use Rattle.std.specs.Prelude.{◌≡◌, map};
ghost use Rattle.mrp_day.specs.Sections.{columns_of, head_of, line_of};

/// A section of a day: the history of the order book, or a section of a run's report.
#[derive(Clone, Copy, Debug, PartialEq, Eq)]
pub enum Section {
    /// The calls that the order book answered, and its replies.
    History,
    /// The entry of the order book that the run plans from.
    Run,
    /// What is available to promise of each master item in each week.
    Promises,
    /// Gross requirements, receipts and projected available balance of each item in each week.
    Plan,
    /// The orders of each item, firm and planned.
    Orders,
    /// Which supply serves which requirement.
    Pegs,
    /// The messages to the planner about each supply.
    Messages,
    /// The load and the capacity of each work centre in each week.
    Loads,
}

impl Section {
    /// The line that the section begins with, without its line feed.
    pub fn line(self) -> &'static str
        ensures { result.now ≡ line_of self }
    {
        match self {
            Section::History => "[history]",
            Section::Run => "[run]",
            Section::Promises => "[promises]",
            Section::Plan => "[plan]",
            Section::Orders => "[orders]",
            Section::Pegs => "[pegs]",
            Section::Messages => "[messages]",
            Section::Loads => "[loads]",
        }
    }

    /// The names of the section's columns, in order.
    pub fn columns(self) -> &'static [&'static str]
        ensures { map (λ c. c.now) result.now ≡ columns_of self }
    {
        match self {
            Section::History => &[
                "entry", "desk", "call", "item", "week", "quantity", "number", "reply", "value",
            ],
            Section::Run => &["front", "standing"],
            Section::Promises => &["item", "week", "firm", "booked", "bucket", "available"],
            Section::Plan => &[
                "item", "week", "gross", "open", "firm", "planned", "start", "balance",
            ],
            Section::Orders => &[
                "item", "order", "kind", "due", "quantity", "start", "release", "late",
            ],
            Section::Pegs => &[
                "item", "week", "need", "number", "parent", "line", "supply", "source", "quantity",
            ],
            Section::Messages => &["item", "supply", "source", "message", "value"],
            Section::Loads => &["centre", "week", "load", "capacity", "over"],
        }
    }

    /// What comes before the section's rows: its line, and the names of its columns as a csv
    /// record.
    #[tactic(auto, unfolding(crate::specs::Sections::head_of, csv::specs::Writing::fields_text, csv::specs::Writing::is_blank))]
    pub fn head(self) -> &'static str
        ensures { result.now ≡ head_of self }
    {
        match self {
            Section::History => {
                "[history]\nentry,desk,call,item,week,quantity,number,reply,value\n"
            }
            Section::Run => "[run]\nfront,standing\n",
            Section::Promises => "[promises]\nitem,week,firm,booked,bucket,available\n",
            Section::Plan => "[plan]\nitem,week,gross,open,firm,planned,start,balance\n",
            Section::Orders => "[orders]\nitem,order,kind,due,quantity,start,release,late\n",
            Section::Pegs => {
                "[pegs]\nitem,week,need,number,parent,line,supply,source,quantity\n"
            }
            Section::Messages => "[messages]\nitem,supply,source,message,value\n",
            Section::Loads => "[loads]\ncentre,week,load,capacity,over\n",
        }
    }
}
