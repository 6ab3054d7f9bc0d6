//! A piece of work.

/// Piece `number` of some things: those from `start` on that stand before `end`, both counted from 0.
#[derive(Clone, Copy, PartialEq, Eq, Debug)]
pub struct Piece {
    /// The number of the piece, counted from 0.
    pub number: u64,
    /// The first of its things.
    pub start: u64,
    /// The thing behind its last one.
    pub end: u64,
}
