//! What a survey of nine tables says.

ghost use Rattle.std.specs.Prelude.{◌≡◌, IfOk, option_and_then, option_map};
ghost use Rattle.mrp_survey.specs.Likes.{like_among};
ghost use Rattle.mrp_survey.specs.Names.{place_among};

use crate::finding::Finding;
use crate::found_loop::FoundLoop;
use crate::header::column_names;
use crate::known::Known;
use crate::likes::Likes;
use mrp_cal::Calendar;
use mrp_qty::NoMemory;
use mrp_rows::{Name, Table};
use mrp_tables::Version;
use std::alloc::Global;
use std::marker::Model;

/// All that is wrong with nine tables, and of them what is needed to say so.
#[derive(Drop)]
pub struct Survey {
    pub(crate) findings: Vec<Finding>,
    pub(crate) loops: Vec<FoundLoop>,
    pub(crate) version: Option<Version>,
    pub(crate) calendar: Option<Calendar>,
    pub(crate) items: Option<Likes>,
    pub(crate) centres: Option<Likes>,
}

impl Model for Survey {
    ghost use Rattle.mrp_survey.specs.Surveyed.{Surveyed};

    ghost Value = { Surveyed };

    ghost view = { λ s. record {
      findings = s.findings.items;
      loops = s.loops.items;
      version = s.version;
      calendar = s.calendar;
      items = s.items;
      centres = s.centres;
    } };
}

impl Survey {
    ghost use Rattle.std.specs.Prelude.{◌≡◌, map, option_and_then, option_map, unwrap_or};
    ghost use Rattle.mrp_tables.specs.declared.version.Version.TheVariants.{One};
    ghost use Rattle.mrp_survey.specs.Headers.{table_columns};
    ghost use Rattle.mrp_survey.specs.Likes.{like_among};
    ghost use Rattle.mrp_survey.specs.Names.{place_among};

    /// What is wrong with records, table by table: a header, then record by record the cells from the left, then what is wrong beside
    /// other records. Loops are not among them.
    pub fn findings(&self) -> &[Finding]
        ensures { result.now ≡ self.now.findings }
    {
        &self.findings
    }

    /// The sets of items that need one another, in the order of their first items. They are looked for where the items are known, in
    /// the bill lines within their limit of which both items are known and no fault says that the component is a master item.
    pub fn loops(&self) -> &[FoundLoop]
        ensures { result.now ≡ self.now.loops }
    {
        &self.loops
    }

    /// The tables' version. `None` if it is wrong: then neither items nor the master schedule are read.
    pub fn version(&self) -> Option<Version>
        ensures { result ≡ self.now.version }
    {
        self.version
    }

    /// The horizon, with each day a workday. `None` if its start or its weeks are wrong.
    pub fn calendar(&self) -> Option<&Calendar>
        ensures { option_map (λ own. own.now) result ≡ self.now.calendar }
    {
        self.calendar.as_ref()
    }

    /// The place of an item among the known ones, from 0.
    pub fn item_place(&self, name: &Name) -> Option<usize>
        ensures { result ≡ option_and_then (λ own. place_among own name.now) self.now.items }
    {
        place_among(&self.items, name)
    }

    /// The first item whose name equals this one but for capitals.
    pub fn item_like(&self, name: &Name) -> Option<&Name>
        ensures { option_map (λ own. own.now) result ≡ like_among self.now.items name.now }
    {
        like_among(&self.items, name)
    }

    /// The first work centre whose name equals this one but for capitals.
    pub fn centre_like(&self, name: &Name) -> Option<&Name>
        ensures { option_map (λ own. own.now) result ≡ like_among self.now.centres name.now }
    {
        like_among(&self.centres, name)
    }

    /// The names of a table's columns in the tables' version; in the first, where the version is wrong.
    pub fn columns(&self, table: Table) -> &'static [&'static str]
        ensures { map (λ c. c.now) result.now ≡ table_columns (unwrap_or self.now.version One) table }
    {
        column_names(table, self.version.unwrap_or(Version::One))
    }
}

fn place_among(names: &Option<Likes>, name: &Name) -> Option<usize>
    ensures { result ≡ option_and_then (λ own. place_among own name.now) names.now }
{
    match names {
        Some(names) => names.place_of(name),
        None => None,
    }
}

fn like_among<'a>(names: &'a Option<Likes>, name: &Name) -> Option<&'a Name>
    ensures { option_map (λ own. own.now) result ≡ like_among names.now name.now }
{
    match names {
        Some(names) => names.first_like(name),
        None => None,
    }
}

// Names with what look-ups of other names need.
pub(crate) fn likes_of(alloc: Global, names: Option<Known>) -> Result<Option<Likes>, NoMemory>
    ensures { IfOk result (λ likes. likes ≡ names) }
{
    match names {
        Some(names) => {
            let likes = Likes::of(alloc, names)?;
            Ok(Some(likes))
        }
        None => Ok(None),
    }
}
