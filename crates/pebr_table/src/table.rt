//! The words, and a seat at them.

ghost use Rattle.std.specs.Prelude.{◌≡◌};

use crate::recorded::Recorded;
use crate::rule::Kept;
use atomic_table::TableRule;
use std::alloc::Global;

/// The words, under the rule `P` of the layer above.
#[derive(Drop)]
pub struct Table<V, K, P: TableRule<(), V, K>> {
    pub(crate) inner: atomic_table::Table<(), Recorded<V>, K, Kept<P>, Global>,
    ghost slotless: { inner.shared.table_id.slots ≡ 0 },
}

/// A seat at the words, with the view `V` of the layer above. It has no bytes.
#[derive(Drop)]
pub struct Seat<V> {
    pub(crate) inner: atomic_table::Seat<(), Recorded<V>>,
}
