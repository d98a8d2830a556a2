//! What messages, orders and pegs are drawn from.

ghost use Rattle.std.specs.Prelude.{◌≡◌, [], IfOk, length, map};
ghost use Rattle.std.specs.Option.{option_map_or, option_copied};
ghost use Rattle.mrp_page.specs.Draw.{has_item};
ghost use Rattle.mrp_page.specs.Pegs.{pieces_of_order, waits_for};
ghost use Rattle.mrp_page.specs.Rows.{rows_named};
ghost use Rattle.mrp_page.specs.Scene.{scene_of};

use crate::item_rows::ItemRows;
use crate::pegs::Pegs;
use crate::places::Places;
use crate::row::Row;
use mrp_facts::Facts;
use mrp_qty::NoMemory;
use std::alloc::Global;
use std::marker::Model;

// The items that are shown, each by a row of it, the orders, the pegs and the entries of the history that
// are kept, whether all pegs are, and the tables of the day if they are given.
#[derive(Drop)]
pub(crate) struct Scene<'s, 'a> {
    shown: &'s [&'a Row],
    orders: &'s Places<'a>,
    pegs: &'s Pegs<'a>,
    entries: Places<'a>,
    whole: bool,
    tables: Option<&'s Facts<'s>>,
}

impl<'s, 'a> Model for Scene<'s, 'a> {
    ghost use Rattle.std.specs.Prelude.{map};
    ghost use Rattle.std.specs.Option.{option_copied};
    ghost use Rattle.mrp_page.specs.Scene.{SceneView};

    ghost Value = { SceneView };

    ghost view = { λ s. record { shown = map (λ r. r.now) s.shown.now; orders = s.orders.now; pegs = s.pegs.now; history = s.entries; whole = s.whole; tables = option_copied s.tables } };
}

impl<'s, 'a> Scene<'s, 'a> {
    // What a page that shows these items is drawn from, given how many pegs are not kept, and the tables or none.
    pub(crate) fn of(
        alloc: Global,
        shown: &'s [&'a Row],
        rows: &'s ItemRows<'a>,
        history: &'a [Row],
        missed: u64,
        tables: Option<&'s Facts<'s>>,
    ) -> Result<Scene<'s, 'a>, NoMemory>
        ensures { IfOk result (λ scene. scene ≡ scene_of (map (λ r. r.now) shown.now) rows.now history.now missed (option_copied tables.entry)) }
    {
        let orders = rows.orders();
        let pegs = rows.pegs();
        let entries = Places::of(alloc, history)?;
        let whole = missed == 0;
        Ok(Scene {
            shown,
            orders,
            pegs,
            entries,
            whole,
            tables,
        })
    }

    // The tables of the day, if they are given.
    pub(crate) fn tables(&self) -> Option<&'s Facts<'s>>
        ensures { option_copied result ≡ self.now.tables }
    {
        self.tables
    }

    pub(crate) fn shown(&self) -> &'s [&'a Row]
        ensures { map (λ r. r.now) result.now ≡ self.now.shown }
    {
        self.shown
    }

    // How many items are shown.
    pub(crate) fn count_shown(&self) -> u64
        ensures { result ≡ length self.now.shown }
    {
        self.shown.len() as u64
    }

    pub(crate) fn history(&self) -> &'a [Row]
        ensures { result.now ≡ self.now.history }
    {
        self.entries.rows()
    }

    // Whether an entry is on the page.
    pub(crate) fn has_entry(&self, number: &[u8]) -> bool
        ensures { result ≡ has_item self.now.history number.now }
    {
        self.entries.has(number)
    }

    // Whether all pegs are kept.
    pub(crate) fn is_whole(&self) -> bool
        ensures { result ≡ self.now.whole }
    {
        self.whole
    }

    // The orders that are kept.
    pub(crate) fn orders(&self) -> &'a [Row]
        ensures { result.now ≡ self.now.orders }
    {
        self.orders.rows()
    }

    // The orders of an item.
    pub(crate) fn orders_of(&self, name: &[u8]) -> &'a [Row]
        ensures { result.now ≡ rows_named name.now self.now.orders }
    {
        self.orders.named(name)
    }

    // The pegs of an item.
    pub(crate) fn pegs_of(&self, name: &[u8]) -> &'a [Row]
        ensures { result.now ≡ rows_named name.now self.now.pegs }
    {
        self.pegs.places().named(name)
    }

    // How many pieces the pegs of an open order of an item have together.
    pub(crate) fn pieces_of_order(&self, name: &[u8], order: &[u8]) -> u64
        ensures { result ≡ pieces_of_order self.now.pegs name.now order.now }
    {
        self.pegs.pieces_of_order(name, order)
    }

    // The pegs that the orders of an item wait for, if they wait for any.
    pub(crate) fn waits_for(&self, name: &[u8]) -> Option<&'s Vec<&'a Row>>
        ensures { option_map_or (λ pegs. map (λ r. r.now) pegs.now.items) result [] ≡ waits_for self.now.pegs name.now }
    {
        self.pegs.waits_for(name)
    }
}
