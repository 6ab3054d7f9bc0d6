//! What came of an ask.

use flow_parts::Fragment;

/// What came of asking for the flow of a key.
#[derive(Clone, Copy, PartialEq, Eq, Debug)]
pub enum Answer {
    /// The flow was held, and read as this.
    Held(Fragment),
    /// No entry of the key's set had the key.
    Absent,
    /// The watcher was ejected three times before it held a flow.
    Lost,
}
