//! Where a call of `meter` can be stopped.

/// A step of a try, before which a [`Stop`] is called.
#[derive(Clone, Copy, PartialEq, Eq, Debug)]
pub enum Point {
    /// Before the pass enters.
    Enter,
    /// Before the first of four roots is loaded.
    Load,
    /// Before the check.
    Check,
    /// Before the first word is read.
    Read,
    /// Before the first word of the fresh slot is written.
    Write,
    /// Before the root is replaced.
    Replace,
    /// Before the shields are taken down.
    Clear,
    /// Before the pass leaves.
    Leave,
}

/// What is done at the points of a try. Whatever it does, the clauses of the call that it stops stand.
pub trait Stop {
    /// Called at most once in each try at each point.
    fn at(&mut self, point: Point);
}

/// Stops nowhere.
#[derive(Drop)]
pub(crate) struct Never;

impl Stop for Never {
    #[inline]
    fn at(&mut self, _point: Point) {}
}
