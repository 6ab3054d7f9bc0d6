//! What the table knows of its seats. No value of these types is made: they stand in proofs alone.

use std::marker::Model;

/// The operations of a seat.
pub struct Operations {
    unit: (),
}

impl Model for Operations {
    ghost use Rattle.std.specs.Prelude.{List, []};
    ghost use Rattle.pebr_table.specs.Operations.{Op};

    ghost Value = { List Op };

    ghost view = { λ _. [] };
}

/// A seat's view in the layer above, and beside it what the seat did, the newest first.
pub struct Recorded<V> {
    pub operations: Operations,
    pub view: V,
}
