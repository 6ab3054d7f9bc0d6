//! What a check finds.

/// What a check finds.
#[derive(Clone, Copy, PartialEq, Eq, Debug)]
pub enum Checked {
    /// The seat is still in: each of its shields that is set on a slot that it has seen protects it.
    Valid,
    /// Another seat has ejected it. Only shields that were valid before protect.
    Ejected,
}
