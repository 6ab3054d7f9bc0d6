//! The rule of the table, and its steps.

ghost use Rattle.std.specs.Prelude.{◌≡◌, ◌∷◌, []};
ghost use Rattle.pebr_table.specs.Operations.{load, store, exchange};
ghost use Rattle.pebr_table.specs.Recorded.{Records, bare};

use crate::recorded::Recorded;
use atomic_table::{Join, Play, Split, TableRule};
use std::marker::PhantomData;

/// The rule of the layer above holds, and the words are what the recorded operations made of them.
pub struct Kept<P> {
    marker: PhantomData<P>,
}

impl<V, K, P: TableRule<(), V, K>> TableRule<(), Recorded<V>, K> for Kept<P> {
    ghost holds = { λ key. Records (P.holds key) };

    ghost first = { λ key. record { operations = []; view = P.first key } };
}

/// A load.
pub struct Loads<M> {
    marker: PhantomData<M>,
}

impl<V, M: Play<(), V>> Play<(), Recorded<V>> for Loads<M> {
    ghost then = { λ s me found after. (after.0.operations ≡ load s.word found ∷ me.0.operations)
        × M.then s (bare me) found (bare after) };
}

/// A store.
pub struct Stores<M> {
    marker: PhantomData<M>,
}

impl<V, M: Play<(), V>> Play<(), Recorded<V>> for Stores<M> {
    ghost then = { λ s me found after. (after.0.operations ≡ store s.word s.first ∷ me.0.operations)
        × M.then s (bare me) found (bare after) };
}

/// A compare and exchange.
pub struct Exchanges<M> {
    marker: PhantomData<M>,
}

impl<V, M: Play<(), V>> Play<(), Recorded<V>> for Exchanges<M> {
    ghost then = { λ s me found after. (after.0.operations ≡ exchange s.word s.first s.second found ∷ me.0.operations)
        × M.then s (bare me) found (bare after) };
}

/// The seat keeps its operations, and the new one has none.
pub struct Parts<M> {
    marker: PhantomData<M>,
}

impl<V, M: Split<V>> Split<Recorded<V>> for Parts<M> {
    ghost left = { λ v. record { operations = v.operations; view = M.left v.view } };

    ghost right = { λ v. record { operations = []; view = M.right v.view } };
}

/// The seat keeps its operations.
pub struct Unites<M> {
    marker: PhantomData<M>,
}

impl<V, M: Join<V>> Join<Recorded<V>> for Unites<M> {
    ghost both = { λ v w. record { operations = v.operations; view = M.both v.view w.view } };

    ghost spent = { record { operations = []; view = M.spent } };
}
