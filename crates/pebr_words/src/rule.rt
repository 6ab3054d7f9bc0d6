//! The rule of the table, and its steps.

ghost use Rattle.std.specs.Prelude.{ℕ, Option, None};
ghost use Rattle.pebr_core.specs.declared.kinds.Shape.{Shape};
ghost use Rattle.pebr_core.specs.declared.kinds.Step.{Step};
ghost use Rattle.pebr_core.specs.declared.kinds.Step.TheVariants as step;

use crate::protocol::RootProtocol;
use crate::views::{Told, View};
use pebr_table::{Join, Play, Split, TableRule};
use std::marker::{Brand, PhantomData};

/// Words and views show a sound core, and the protocol keeps.
pub struct Rule<P> {
    marker: PhantomData<P>,
}

impl<P: RootProtocol> TableRule<(), View<P::Note>, Told<P::Fixed>> for Rule<P> {
    ghost use Rattle.pebr_words.specs.Ruled.{Ruled, BackedWhole, first_view};

    ghost holds = { λ told. Ruled (P.keeps told.fixed) (BackedWhole P.whole (P.backed told.fixed)) told.shape };

    ghost first = { λ told. first_view told.shape P.first };
}

/// The core step that a step on a word is. A proof picks it at each call.
pub trait IsStep<A> {
    ghost shape: { Shape };

    ghost step: { Step };

    // What is done to the note.
    ghost act: { Option A };
}

impl<A> IsStep<A> for Brand {
    ghost shape = { record { roots = 0; seats = 0; shields = 0; batch = 0; width = 0 } };

    ghost step = { step.Note 0 };

    ghost act = { None };
}

/// A core step.
pub struct Makes<P, K> {
    marker: PhantomData<(P, K)>,
}

impl<P: RootProtocol, K: IsStep<P::Act>> Play<(), View<P::Note>> for Makes<P, K> {
    ghost use Rattle.pebr_words.specs.Ruled.{Made};

    ghost then = { λ _. Made P.after P.whole K.shape K.step K.act };
}

/// A core step that is made by a store, which tells nothing of the number found.
pub struct Stores<P, K> {
    marker: PhantomData<(P, K)>,
}

impl<P: RootProtocol, K: IsStep<P::Act>> Play<(), View<P::Note>> for Stores<P, K> {
    ghost use Rattle.pebr_words.specs.Ruled.{Made};

    ghost then = { λ _ me _ after. (found : ℕ) × Made P.after P.whole K.shape K.step K.act me found after };
}

/// The new seat gets the first number.
pub struct Parts;

impl<N> Split<View<N>> for Parts {
    ghost use Rattle.pebr_words.specs.Ruled.{view_taken, view_left};

    ghost left = { view_left };

    ghost right = { view_taken };
}

/// The first seat gets all numbers of both.
pub struct Unites<P> {
    marker: PhantomData<P>,
}

impl<P: RootProtocol> Join<View<P::Note>> for Unites<P> {
    ghost use Rattle.std.specs.Prelude.{[]};
    ghost use Rattle.pebr_words.specs.Ruled.{united_view};

    ghost both = { united_view P.merged P.empty };

    ghost spent = { [] };
}
