//! The rule of the table, and the kinds of step that keep it. No value of these types exists.
//!
//! A table is made, and its first seat is split into the others (`Cut`). A seat looks (`Look`), and takes the slot if it is
//! free (`Take`), or leaves it if it is taken. The holder moves the value out and in, which the rule does not see, and
//! gives the slot back (`Give`). A seat that meets another joins (`Keep`) a note of it (`Note`), and a close joins all seats.
ghost use Rattle.mrp_turn.specs.Rule.{FollowsRule, starting};
ghost use Rattle.mrp_turn.specs.Steps.{took, gave, cut_left, cut_right, noted, joined, looked};
ghost use Rattle.mrp_turn.specs.declared.views.View.TheVariants.{Spent};

use crate::log::Held;
use crate::object::Object;
use crate::views::{About, View};
use atomic_table::{Join, Play, Split, TableRule};
use std::marker::PhantomData;

// What holds of the table between any two steps.
pub struct TurnRule<O> {
    object: PhantomData<O>,
}

impl<O: Object> TableRule<
    Option<Held<O::State, O::Call, O::Reply>>,
    View<O, O::Call, O::Reply>,
    About<O>,
> for TurnRule<O> {
    ghost holds = { λ key. FollowsRule O.opens O.answers key };

    ghost first = { starting };
}

// Takes the slot if the word is 0.
pub struct Take<O> {
    object: PhantomData<O>,
}

impl<O: Object> Play<Option<Held<O::State, O::Call, O::Reply>>, View<O, O::Call, O::Reply>>
    for Take<O> {
    ghost then = { took O.opens O.answers };
}

// Reads the word, and leaves the seat unchanged.
pub struct Look<O> {
    object: PhantomData<O>,
}

impl<O: Object> Play<Option<Held<O::State, O::Call, O::Reply>>, View<O, O::Call, O::Reply>>
    for Look<O> {
    ghost then = { looked O.opens O.answers };
}

// Gives the slot back, with the log of the value in it.
pub struct Give;

impl<O, S, C, R> Play<Option<Held<S, C, R>>, View<O, C, R>> for Give {
    ghost then = { gave };
}

// Cuts off the first of the accounts that a seat keeps, as a seat of its own.
pub struct Cut;

impl<O, C, R> Split<View<O, C, R>> for Cut {
    ghost left = { cut_left };

    ghost right = { cut_right };
}

// Makes a note of what a seat has seen.
pub struct Note;

impl<O, C, R> Split<View<O, C, R>> for Note {
    ghost left = { λ v. v };

    ghost right = { noted };
}

// Joins the other seat to this one, which keeps its accounts.
pub struct Keep;

impl<O, C, R> Join<View<O, C, R>> for Keep {
    ghost both = { joined };

    ghost spent = { Spent };
}
