//! The master schedule and the script.

use crate::first_tables::FirstTables;
use crate::master::Master;
use crate::rows::{MasterRow, ScriptRow};
use crate::script::Script;
use mrp_rows::{Fault, Sections};
use std::alloc::Global;

// The rows of the master schedule and of the script.
#[derive(Drop)]
pub(crate) struct MasterAndScript {
    pub(crate) master: Vec<MasterRow>,
    pub(crate) script: Vec<ScriptRow>,
}

impl MasterAndScript {
    ghost use Rattle.mrp_tables.specs.Parts.{AreFirst, GivesMasterAndScript};

    // These tables' rows, given the bundle's first tables, or a refusal, which is the bundle's if all
    // tables before these are read whole.
    pub(crate) fn read(
        alloc: Global,
        sections: &Sections<'_>,
        first: &FirstTables,
    ) -> Result<MasterAndScript, Fault>
        requires { AreFirst sections.now first.now }
        ensures { GivesMasterAndScript sections.now result }
    {
        let master = Master::read(
            alloc,
            sections,
            first.version,
            &first.calendar,
            &first.items,
        )?;
        let script = Script::read(alloc, sections, &first.calendar, &first.items)?;
        Ok(MasterAndScript { master, script })
    }
}
