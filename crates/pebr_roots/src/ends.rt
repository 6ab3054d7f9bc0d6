//! How calls end.

/// How a replacement ends.
#[derive(Clone, Copy, PartialEq, Eq, Debug)]
pub enum ReplaceEnd {
    /// The root has the fresh slot now, and the old one is retired.
    Replaced,
    /// The root had another slot than the one under the shield. Nothing was changed.
    Other,
}

/// What a collection came to, in slots.
#[derive(Clone, Copy, PartialEq, Eq, Debug)]
pub struct Collected {
    /// Retired slots that are fresh now.
    pub given: usize,
    /// Slots that are still retired.
    pub left: usize,
}
