//! Planners: they plan items, carry outcomes over, and count what they plan.

ghost use Rattle.std.specs.Prelude.{◌≡◌, ◌<◌, ◌+◌, ◌-◌, ◌^◌, ℕ, map, min, IfOk};
ghost use Rattle.std.specs.Option.{option_map};
ghost use Rattle.mrp_item.specs.Inputs.{count};
ghost use Rattle.mrp_item.specs.Made.{item_from, parents_from};
ghost use Rattle.mrp_item.specs.NetChange.{Carries, IsLeftAlone};
ghost use Rattle.mrp_item.specs.Places.{ItemOf};

use crate::carrying::{carry, keep};
use crate::inputs::Inputs;
use crate::outcome::Outcome;
use crate::plan::Plan;
use crate::planning::plan_item;
use mrp_qty::NoMemory;
use std::alloc::Global;
use std::marker::Model;
use std::sync::Arc;

/// What plans items one at a time, and counts how often it does. Generic code gets the outcome of an item from
/// it alone: by planning it, by carrying it over or keeping it from an older plan, or by copying it.
pub trait Planner {
    /// The outcome of an item.
    type Made: Drop;

    // The item and its inputs, which determine the outcome.
    ghost item_of: { Self.Made → ItemOf };

    // How often an item was planned.
    ghost planned: { Self → ℕ };

    /// How often an item was planned; it saturates.
    fn count(&self) -> u64
        ensures { result ≡ planned self.now };

    /// The outcome of planning an item, as by [`plan_item`]. It counts, also if memory is refused.
    ///
    /// Errors: `NoMemory` if an allocation fails, or a reference count cannot rise.
    fn plan(
        &mut self,
        alloc: Global,
        inputs: &Arc<Inputs>,
        item: usize,
        parents: &[Self::Made],
    ) -> Result<Self::Made, NoMemory>
        requires item { item < count inputs.now.value }
        requires parents { map item_of parents.now ≡ parents_from inputs.now.value item }
        ensures outcome { IfOk result (λ made. item_of made ≡ item_from inputs.now.value item) }
        ensures planned { planned self.new ≡ min (planned self.old + 1) (2 ^ 64 - 1) };

    /// The outcome of an item as in an older plan of an equal shop, as by [`carry`]. It does not count.
    ///
    /// Errors: `NoMemory` if a reference count cannot rise.
    fn carry(
        &mut self,
        old: &Plan,
        item: usize,
        inputs: &Arc<Inputs>,
        parents: &[Self::Made],
    ) -> Result<Option<Self::Made>, NoMemory>
        requires tables { old.now.inputs.tables ≡ inputs.now.value.tables }
        requires item { item < count inputs.now.value }
        requires parents { map item_of parents.now ≡ parents_from inputs.now.value item }
        ensures outcome { IfOk result (λ made. Carries old.now.inputs inputs.now.value item (option_map item_of made)) }
        ensures planned { planned self.new ≡ planned self.old };

    /// The outcome of an item as in an older plan of an equal shop, as by [`keep`]. It does not count.
    ///
    /// Errors: `NoMemory` if a reference count cannot rise.
    fn keep(
        &mut self,
        old: &Plan,
        item: usize,
        inputs: &Arc<Inputs>,
    ) -> Result<Self::Made, NoMemory>
        requires tables { old.now.inputs.tables ≡ inputs.now.value.tables }
        requires item { item < count inputs.now.value }
        requires alone { IsLeftAlone old.now.inputs inputs.now.value item }
        ensures outcome { IfOk result (λ made. item_of made ≡ item_from inputs.now.value item) }
        ensures planned { planned self.new ≡ planned self.old };

    /// An equal outcome. It does not count.
    ///
    /// Errors: `NoMemory` if an allocation fails, or a reference count cannot rise.
    fn copy(&self, made: &Self::Made) -> Result<Self::Made, NoMemory>
        ensures { IfOk result (λ copy. copy ≡ made.now) };
}

/// A planner whose outcomes are [`Outcome`]s. Contracts see how often it planned an item.
#[derive(Drop)]
pub struct Work {
    planned: u64,
}

impl Model for Work {
    ghost use Rattle.std.specs.Prelude.{ℕ};

    ghost Value = { ℕ };

    ghost view = { λ work. work.planned };
}

impl Work {
    /// A planner that has planned nothing.
    pub fn new() -> Work
        ensures { result ≡ 0 }
    {
        Work { planned: 0 }
    }
}

impl Planner for Work {
    type Made = Outcome;

    ghost item_of = { λ made. made };

    ghost planned = { λ work. work };

    fn count(&self) -> u64 {
        let Work { planned } = self;
        *planned
    }

    fn plan(
        &mut self,
        alloc: Global,
        inputs: &Arc<Inputs>,
        item: usize,
        parents: &[Outcome],
    ) -> Result<Outcome, NoMemory> {
        self.planned = self.planned.saturating_add(1);
        plan_item(alloc, inputs, item, parents)
    }

    fn carry(
        &mut self,
        old: &Plan,
        item: usize,
        inputs: &Arc<Inputs>,
        parents: &[Outcome],
    ) -> Result<Option<Outcome>, NoMemory> {
        carry(old, item, inputs, parents)
    }

    fn keep(&mut self, old: &Plan, item: usize, inputs: &Arc<Inputs>) -> Result<Outcome, NoMemory> {
        keep(old, item, inputs)
    }

    fn copy(&self, made: &Outcome) -> Result<Outcome, NoMemory> {
        made.copy()
    }
}
